//! What the command `asp-explain` does, over any source and any two sinks.
#![tactic(auto)]

mod answer;
mod command;
mod loading;
mod of_events;
mod of_other;
mod of_picture;
mod of_run;
mod of_until;
mod page;
mod stop;
mod task;
mod top;
mod writing;

pub use top::run_explain;
