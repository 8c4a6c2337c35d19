//! A redex, as far as the cells of its strict operands tell what it comes to.

use asp_model::{Label, Sign};
use code_table::{Place, SharedLabel};

/// A redex: its strict operands first, in the order in which they are read.
#[derive(Clone, Copy)]
pub enum Redex<'a> {
    /// It contracts, whatever stands at its places.
    Goes,
    Get(Place, &'a Label),
    Put(Place, &'a Label, Place),
    /// The receiver, and the arguments.
    Call(Place, &'a SharedLabel, &'a [Place]),
    Clone(Place),
    Active(Place, Option<&'a SharedLabel>),
    Serve(&'a [Label]),
    If(Place),
    Operate(Sign, Place, Place),
    Print(Place),
    /// A group, and the group of the arguments.
    Scatter(Place, &'a Label, Place),
    Size(Place),
    /// A group, and the member's number.
    Member(Place, Place),
    WaitAll(Place),
    Pending(&'a [Label]),
}
