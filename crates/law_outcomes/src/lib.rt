//! Laws of programs that are read, and of the outcomes of runs: what the laws ask of a program, the
//! grammar gives; texts stay as a program wrote them, outcomes are well formed, and their reports are
//! read as what they were written from. Each law is the contract of a function that does nothing.
#![tactic(auto)]

mod outcomes;
mod programs;
mod texts;

pub use outcomes::{
    end_reports_agree, narrow_reports_are_all, numbers_are_within, outcomes_are_well_formed,
    plain_runs_show_replays, replay_reports_are_read, reports_of_runs_are_read,
    reports_show_replays, runs_show_replays,
};
pub use programs::{program_texts_are_printable, programs_are_readable, programs_have_no_places};
pub use texts::{labels_are_printable, lines_are_printable, reached_have};
