//! Laws of classes of labels: what came with labels that nobody asks for together may have come in
//! any order. Each law is the contract of a function that does nothing.
#![tactic(auto)]

mod classes;

pub use classes::{
    alike_outcomes, alike_statuses, alike_steps, fitting_are_within, resting_runs_are_full,
    runs_end, runs_lead_on, services_show_classes, stuck_replays_are_ends, stuck_runs_are_alike,
};
