//! Laws of runs: what each configuration that a program reaches keeps, what steps leave of each
//! other, and that lists and counts determine a run. Each law is the contract of a function that
//! does nothing.
#![tactic(auto)]

mod closed;
mod commuting;
mod joins;
mod linked;
mod names;
mod reached;
mod replays;
mod sound;
mod steps;
mod waking;

pub use closed::{copies_are_closed, reached_are_closed, splits_are_below, values_are_closed};
pub use commuting::{free_steps_commute, steps_commute};
pub use joins::{
    joined_fits, one_sender_bounds, one_sender_ends, stuck_is_joined, stuck_runs_agree,
};
pub use linked::{
    awaited_are_begun, cells_are_linked, intends_step, stuck_is_still, targets_are_there,
};
pub use names::{
    entries_ascend, futures_stand_once, futures_were_begun, logs_tell, names_are_creations,
    requests_are_sends, served_once,
};
pub use reached::{moves_go_on, runs_go_on, start_is_reached};
pub use replays::{
    counts_sum, fits_where_run, listed_runs_stay_within, own_lists_show, plain_runs_are_runs,
    plain_runs_replay, plain_runs_spend, replays_are_runs, replays_lead, replays_rest, runs_agree,
    runs_replay, runs_under_own_lists,
};
pub use sound::{
    moves_keep_closed, moves_keep_sound, reached_are_sound, sound_intents, sound_steps,
    start_is_closed, start_is_sound,
};
pub use steps::{
    effects_are_new, futures_fill, intends_stay, listed_is_free, logs_grow, one_is_made,
    others_stay, polls_stay, requests_grow, steps_count,
};
pub use waking::{
    awaiting_stays, cycles_stay, done_stays, fault_stays, none_rests_running, others_stay_next,
    serving_stays,
};
