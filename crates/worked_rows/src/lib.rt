//! Worked programs with their reports, worked journals, edges, reading by paths and state lines:
//! all are computed from the definitions of the language.
#![tactic(auto)]

mod bad_reports;
mod chases;
mod circles;
mod copies;
mod group_rows;
mod lending;
mod numbers;
mod objects;
mod pairs;
mod passed;
mod passing;
mod poll_rows;
mod reading;
mod senders;
mod services;
mod states;

pub use bad_reports::{
    cut_reports, line_forms, numbers_in_lines, orders_of_names, versions, whole_reports,
};
pub use chases::cycles;
pub use circles::{circle, own_answer, two_circles};
pub use copies::{packed, unpacked};
pub use group_rows::{empty_group, no_member, passive_group, three_workers};
pub use lending::{delivered_answer, grants, polls_in_commits, refused_entries};
pub use numbers::{budgets, choices, number_faults, signs, sums};
pub use objects::{clones, doubling_object, shared_object};
pub use pairs::three_pairs;
pub use passed::unread_edges;
pub use passing::{shared_argument, two_copies, unread_future};
pub use poll_rows::{
    narrow_logs, polls, polls_at_the_budget, polls_by_label, polls_of_main, polls_round_a_service,
};
pub use reading::{fields, futures, groups, methods, sharing};
pub use senders::{ordered_services, race};
pub use services::{answer, early_request, main_serves, service_faults};
pub use states::{circling_state, shared_state, two_copies_state};
