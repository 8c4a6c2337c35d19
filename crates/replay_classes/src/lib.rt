//! The ends of a program's runs by classes of labels: requests with labels that nobody asks for
//! together may come in any order, and one run stands for all of these orders.
#![tactic(auto)]

mod classes;
mod cuts;
mod ends;
mod guides;
mod laws;
mod logs;
mod looks;
mod probes;
mod search;
mod sendings;
mod services;
mod walks;

pub use laws::fitting_are_alike;
pub use search::ends_by_classes;
