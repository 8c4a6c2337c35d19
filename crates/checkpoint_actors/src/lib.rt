//! Activities that a checkpoint keeps, over whole code: with their pending requests, behind those
//! that they have served, and with the values of futures.
#![tactic(auto)]

mod actors;
mod counts;
mod parts;
mod queues;
mod values;

pub use parts::{Parts, make_parts};
