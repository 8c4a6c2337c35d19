//! All that an end offers, by what is offered at the places of its logs.

ghost use Rattle.std.specs.Prelude.{◌≡◌, ℕ, IfOk};
ghost use Rattle.asp_model.specs.Names.{Text};
ghost use Rattle.asp_model.specs.Term.{Tree};
ghost use Rattle.class_search.specs.Found.{HasAllOffers, HasOffers, HasOffersIn, IsFoundEnd, end_in};

use crate::ends::{FoundEnd, Offer};
use crate::logs::ClassLog;
use std::alloc::{AllocError, Global};

/// Runs a program under logs by classes, one of which is cut.
pub trait Cuts {
    /// Why nothing is told of a run.
    type Halt: Drop;

    /// The program.
    ghost program: { Self → Tree };

    /// The classes of labels.
    ghost classes: { Self → Text → ℕ };

    /// What could be entered in this log of an end if it is cut at a place.
    fn offers_at(
        &self,
        alloc: Global,
        end: &FoundEnd,
        log: &ClassLog,
        place: usize,
    ) -> Result<Result<Vec<Offer>, Self::Halt>, AllocError>
        requires end { IsFoundEnd (classes self.now) (program self.now) end.now }
        ensures all { let x = end_in (program self.now) end.now in
            IfOk result (λ r. IfOk r (λ v. HasOffers (classes self.now) (program self.now) x
            log.now.to log.now.class place v.items)) };
}

/// What could be entered in a log of an end, wherever it is cut.
fn offers_in<C: Cuts>(
    alloc: Global,
    cuts: &C,
    end: &FoundEnd,
    log: &ClassLog,
) -> Result<Result<Vec<Offer>, C::Halt>, AllocError>
    requires end { IsFoundEnd (C.classes cuts.now) (C.program cuts.now) end.now }
    ensures all { let x = end_in (C.program cuts.now) end.now in
        IfOk result (λ r. IfOk r (λ v. HasOffersIn (C.classes cuts.now) (C.program cuts.now) x
        v.items log.now)) }
{
    let mut all: Vec<Offer> = Vec::new(alloc);
    for place in 0..log.entries.len() {
        match cuts.offers_at(alloc, end, log, place)? {
            Ok(mut offers) => all.append(&mut offers)?,
            Err(halt) => return Ok(Err(halt)),
        }
    }
    Ok(Ok(all))
}

/// What could be entered in the logs of an end, wherever one of them is cut.
pub fn all_offers<C: Cuts>(
    alloc: Global,
    cuts: &C,
    end: &FoundEnd,
) -> Result<Result<Vec<Offer>, C::Halt>, AllocError>
    requires end { IsFoundEnd (C.classes cuts.now) (C.program cuts.now) end.now }
    ensures all { IfOk result (λ r. IfOk r (λ v.
        HasAllOffers (C.classes cuts.now) (C.program cuts.now) end.now v.items)) }
{
    let mut all: Vec<Offer> = Vec::new(alloc);
    for log in &end.logs {
        match offers_in(alloc, cuts, end, log)? {
            Ok(mut offers) => all.append(&mut offers)?,
            Err(halt) => return Ok(Err(halt)),
        }
    }
    Ok(Ok(all))
}
