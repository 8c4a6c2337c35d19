//! What a check finds.

ghost use Rattle.std.specs.Prelude.{◌≡◌};
ghost use Rattle.asp_check.specs.declared.fault.CheckError.TheVariants.{Memory};
ghost use Rattle.asp_check.specs.Faults.{kind_number, is_before as before};

use std::alloc::{AllocError, AllocFailed};
use std::cmp::Ordering;
use thiserror::Error;

/// What is wrong.
#[derive(Clone, Copy, Debug, PartialEq, Eq)]
pub enum CheckKind {
    /// A variable that nothing round it binds.
    Unbound,
    /// A label that an earlier field or method of the object has.
    DoubleLabel,
    /// A self or parameter that stood earlier in the method's head.
    DoubleParameter,
    /// A method or call with more than 8 parameters or arguments.
    TooManyParameters,
    /// A method, call or `scatter` with another arity than the first of its label.
    Arity,
    /// A method that an activity begins with, where the label's first arity is not 0.
    ServiceArity,
}

impl CheckKind {
    /// The number of the kind, from 1. Of two faults at one place the lesser is told.
    pub fn number(self) -> u32
        ensures number { result ≡ kind_number self }
    {
        match self {
            CheckKind::Unbound => 1,
            CheckKind::DoubleLabel => 2,
            CheckKind::DoubleParameter => 3,
            CheckKind::TooManyParameters => 4,
            CheckKind::Arity => 5,
            CheckKind::ServiceArity => 6,
        }
    }
}

/// A fault of a program.
#[derive(Clone, Copy, Debug, PartialEq, Eq)]
pub struct CheckFault {
    /// Where the variable, label or name stands in the source text.
    pub at: usize,
    pub kind: CheckKind,
}

impl CheckFault {
    pub(crate) fn is_before(self, other: CheckFault) -> bool
        ensures { result ≡ before self other }
    {
        match self.at.cmp(&other.at) {
            Ordering::Less => true,
            Ordering::Greater => false,
            Ordering::Equal => self.kind.number() < other.kind.number(),
        }
    }
}

/// Why a program is refused.
#[derive(Debug, Drop, Error)]
pub enum CheckError {
    /// The program has this fault, and none before it.
    #[error("the program has a fault")]
    Fault(CheckFault),
    /// There is no memory for the check.
    #[error("no memory")]
    Memory,
}

impl From<AllocError> for CheckError {
    ghost from_gives = { λ _ e. e ≡ Memory };

    fn from(_error: AllocError) -> CheckError {
        CheckError::Memory
    }
}
