//! Where an activity stands.

ghost use Rattle.std.specs.Prelude.{◌≡◌};
ghost use Rattle.step_parts.specs.Stances.{free_stance, stance_shape};

use crate::outlook::Outlook;
use asp_model::{Fault, FutureName};

/// Where an activity stands.
#[derive(Clone, Copy)]
pub enum Stance<'a> {
    /// The value of this future is owed to it: the first strict operand that is a future stands at
    /// this place, and leads to that value.
    Needs(usize, &'a FutureName),
    /// It has a contraction.
    Contracts,
    /// It has a communication that may be done.
    Communicates,
    /// Its first strict operand that is a future awaits this one, which has no value.
    Awaits(&'a FutureName),
    /// It stands at a fault.
    Faulted(Fault),
    /// It stands at a `serve` that no pending request matches.
    Serving,
    /// Its term is a place, and no service is suspended.
    Done,
}

/// Where an activity stands that has no operand that is a future: by what it does next, and whether
/// its redex asks others.
pub fn free_stance(outlook: Outlook, asks: bool) -> Stance
    ensures stance { stance_shape result ≡ free_stance asks outlook.entry }
{
    match outlook {
        Outlook::Steps => {
            if asks {
                Stance::Communicates
            } else {
                Stance::Contracts
            }
        }
        Outlook::Sends(_) | Outlook::Polls => Stance::Communicates,
        Outlook::Awaits(future) => Stance::Awaits(future),
        Outlook::Faulted(fault) => Stance::Faulted(fault),
        Outlook::Serving => Stance::Serving,
        Outlook::Done => Stance::Done,
    }
}
