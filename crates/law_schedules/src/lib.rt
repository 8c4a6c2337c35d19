//! Laws of schedules: who need not be looked at for the next step of a run on one thread, whom a
//! step wakes, and where a replay diverges first. Each law is the contract of a function that does nothing.
#![tactic(auto)]

mod divergence;
mod effects;
mod schedules;

pub use divergence::{
    diverges_where_first, fits_where_none_differs, reports_are_in_order, rows_are_shown,
};
pub use effects::{
    absent_received_none, made_is_there, made_received_none, nobody_receives, others_are_kept,
    others_receive_none, own_is_there, targets_receive,
};
pub use schedules::{
    called_are_scheduled, least_steps, main_is_ready, main_is_watched, none_is_ready, notes_leave,
    resters_leave, woken_are_scheduled,
};
