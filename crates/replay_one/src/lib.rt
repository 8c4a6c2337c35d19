//! The one-thread machine of the language: the least-named activity that can step takes one
//! reduction, until none can. It runs a program within a budget, and replays a run from its logs
//! and counts.
#![tactic(auto)]

mod listed;
mod looks;
mod replays;
mod round;
mod rousing;
mod run;
mod schedule;
mod splitting;
mod telling;

pub use listed::{are_replayable, counts_in, lists_in};
pub use replay_parts::{Bounds, Event, NoNotes, Note, Notes};
pub use replays::{ReplayStop, replay, replay_noting};
pub use round::Machine;
pub use run::run_plain;
pub use splitting::{splits_are_redexes, splits_one_way, splits_plug_back};
