//! The plain types of programs, runs and reports. Their definitions, which every theorem of the
//! workspace cites, stand in specs/.
#![tactic(auto)]

mod journal;
mod limits;
mod name;
mod outcome;
mod path;
mod services;
mod term;
mod word;

pub use journal::{Choice, Delivery, Entry, History, Start};
pub use limits::{
    MOST_CAPTURED, MOST_CHECKPOINT_BYTES, MOST_DEPTH, MOST_GRANTED, MOST_LEVEL, MOST_NAMINGS,
    MOST_NESTED, MOST_NODES, MOST_PAIRS, MOST_PARAMETERS, MOST_PEEKED, MOST_PLACES,
    MOST_PROGRAM_BYTES, MOST_READ_NESTED, MOST_REDUCTIONS, MOST_REPORT_BYTES,
    MOST_SAVED_ACTIVITIES, MOST_SAVED_HOMES, MOST_SEATS, MOST_TRACE_BYTES, MOST_WORKERS,
};
pub use name::{ActivityName, FutureName};
pub use outcome::{
    ActivityReport, Counts, Fault, Line, Lists, Outcome, Reception, Status, Verdict, exit_number,
};
pub use path::CreationPath;
pub use services::{Arrival, Arrivals, LabelLists, Labels, ServiceEntry, Services};
pub use term::{Mark, Method, Place, Program, Sign, Term};
pub use word::{Label, Word};
