//! Runs the command from its words to its report.
#![tactic(auto)]

mod comparing;
mod ended;
mod letting_go;
mod prepare;
mod programs;
mod reports;
mod resuming;
mod saving;
mod stop;
mod top;
mod traces;
mod writing;

pub use ended::{
    comparisons_are_exact, ended_runs_print_the_same, journals_are_accepted,
    one_sender_prints_the_same, saves_are_resumed,
};
pub use prepare::{Prepared, report_for};
pub use programs::program_of;
pub use stop::{Stop, Which};
pub use top::run_asp;
pub use writing::{refuse, write_prepared};
