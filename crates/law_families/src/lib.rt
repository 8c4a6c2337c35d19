//! Laws of families of ended runs: when every run of a program is a beginning of one of them. Each
//! law is the contract of a function that does nothing.
#![tactic(auto)]

mod families;

pub use families::{
    fitting_are_within, offers_show, one_sender_is_complete, runs_end, runs_lead_to_ends,
    stuck_runs_are_ends,
};
