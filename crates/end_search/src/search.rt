//! The search.

ghost use Rattle.std.specs.Prelude.{◌≡◌, ◌≤◌, ◌↔◌, IfOk, IsTrue, List, OnOk, length};
ghost use Rattle.end_search.specs.Found.{AreClosed, AreDistinct, AreFound, AreWithin, Grows, IfComplete, IfMost, IsWithin};

use std::alloc::{AllocError, Global};

/// What runs to ends.
pub trait Ends {
    /// The end of a run.
    type End: Drop;
    /// Where a run could go that an end shows.
    type Offer: Drop;
    /// Why a run does not come to an end.
    type Halt: Drop;

    /// It is an end.
    ghost ended: { Self → Self.End → Type 0 };

    /// The run to this end begins as it is offered.
    ghost begins: { Self.End → Self.Offer → Type 0 };

    /// These are all that the end offers.
    ghost offered: { Self → Self.End → List Self.Offer → Type 0 };

    /// Whether the run to an end begins as it is offered.
    fn begins(&self, end: &Self::End, offer: &Self::Offer) -> bool
        ensures begins { IsTrue result ↔ begins end.now offer.now };

    /// All that an end offers.
    fn offers(
        &self,
        alloc: Global,
        end: &Self::End,
    ) -> Result<Result<Vec<Self::Offer>, Self::Halt>, AllocError>
        requires end { ended self.now end.now }
        ensures all { IfOk result (λ r. IfOk r (λ v. offered self.now end.now v.items)) };

    /// An end, the run to which begins so.
    fn end_from(
        &self,
        alloc: Global,
        offer: &Self::Offer,
    ) -> Result<Result<Self::End, Self::Halt>, AllocError>
        ensures end { IfOk result (λ r. IfOk r (λ e. ended self.now e × begins e offer.now)) };

    /// An end.
    fn first(&self, alloc: Global) -> Result<Result<Self::End, Self::Halt>, AllocError>
        ensures end { IfOk result (λ r. IfOk r (ended self.now)) };

    /// Is told from time to time how many ends were found, and how many of them are done.
    fn told(&self, _ends: usize, _done: usize) {}
}

/// How a search ended.
#[derive(Drop)]
pub enum Stop<H> {
    /// Nothing is left: the ends are all.
    Complete,
    /// There is another end, and no room for it.
    Most,
    /// A run did not come to an end.
    Halts(H),
}

/// The ends that were found, and how the search ended.
#[derive(Drop)]
pub struct Found<E, H> {
    pub ends: Vec<E>,
    pub stop: Stop<H>,
}

/// Whether the run to one of the ends begins as it is offered.
fn is_within<S: Ends>(runs: &S, ends: &[S::End], offer: &S::Offer) -> bool
    ensures within { IsTrue result ↔ IsWithin S.begins ends.now offer.now }
{
    for end in ends {
        if runs.begins(end, offer) {
            return true;
        }
    }
    false
}

/// The run to one of the ends begins as it is offered from now on.
fn meet<S: Ends>(
    alloc: Global,
    runs: &S,
    ends: &mut Vec<S::End>,
    offer: &S::Offer,
    most: usize,
) -> Result<Stop<S::Halt>, AllocError>
    requires found { AreFound (S.ended runs.now) most ends.old.items }
    ensures found { OnOk result (AreFound (S.ended runs.now) most ends.new.items) }
    ensures grows { OnOk result (Grows S.begins ends.old.items ends.new.items) }
    ensures within { IfOk result (IfComplete (IsWithin S.begins ends.new.items offer.now)) }
    ensures full { IfOk result (IfMost (most ≤ length ends.new.items)) }
{
    if is_within(runs, ends, offer) {
        return Ok(Stop::Complete);
    }
    if ends.len() >= most {
        return Ok(Stop::Most);
    }
    match runs.end_from(alloc, offer)? {
        Ok(end) => {
            ends.push(end)?;
            Ok(Stop::Complete)
        }
        Err(halt) => Ok(Stop::Halts(halt)),
    }
}

/// The same for each of some offers.
fn meet_all<S: Ends>(
    alloc: Global,
    runs: &S,
    ends: &mut Vec<S::End>,
    offers: &[S::Offer],
    most: usize,
) -> Result<Stop<S::Halt>, AllocError>
    requires found { AreFound (S.ended runs.now) most ends.old.items }
    ensures found { OnOk result (AreFound (S.ended runs.now) most ends.new.items) }
    ensures grows { OnOk result (Grows S.begins ends.old.items ends.new.items) }
    ensures within { IfOk result (IfComplete (AreWithin S.begins ends.new.items offers.now)) }
    ensures full { IfOk result (IfMost (most ≤ length ends.new.items)) }
{
    for offer in offers {
        match meet(alloc, runs, ends, offer, most)? {
            Stop::Complete => {}
            stop => return Ok(stop),
        }
    }
    Ok(Stop::Complete)
}

/// The same for all that each end offers, also of those that are found meanwhile.
fn close_all<S: Ends>(
    alloc: Global,
    runs: &S,
    ends: &mut Vec<S::End>,
    most: usize,
) -> Result<Stop<S::Halt>, AllocError>
    requires found { AreFound (S.ended runs.now) most ends.old.items }
    ensures found { OnOk result (AreFound (S.ended runs.now) most ends.new.items) }
    ensures grows { OnOk result (Grows S.begins ends.old.items ends.new.items) }
    ensures closed { IfOk result (IfComplete
        (AreClosed S.begins (S.offered runs.now) ends.new.items ends.new.items)) }
    ensures full { IfOk result (IfMost (most ≤ length ends.new.items)) }
{
    for done in 0..most {
        if done >= ends.len() {
            return Ok(Stop::Complete);
        }
        runs.told(ends.len(), done);
        let offers = match runs.offers(alloc, &ends[done])? {
            Ok(offers) => offers,
            Err(halt) => return Ok(Stop::Halts(halt)),
        };
        match meet_all(alloc, runs, ends, &offers, most)? {
            Stop::Complete => {}
            stop => return Ok(stop),
        }
    }
    Ok(Stop::Complete)
}

/// All ends, at most so many.
pub fn all_ends<S: Ends>(
    alloc: Global,
    runs: &S,
    most: usize,
) -> Result<Found<S::End, S::Halt>, AllocError>
    ensures found { IfOk result (λ f. AreFound (S.ended runs.now) most f.ends.items) }
    ensures distinct { IfOk result (λ f. AreDistinct S.begins f.ends.items) }
    ensures some { IfOk result (λ f. IfComplete (1 ≤ length f.ends.items) f.stop) }
    ensures complete { IfOk result (λ f. IfComplete
        (AreClosed S.begins (S.offered runs.now) f.ends.items f.ends.items) f.stop) }
    ensures full { IfOk result (λ f. IfMost (most ≤ length f.ends.items) f.stop) }
{
    let mut ends: Vec<S::End> = Vec::new(alloc);
    if most == 0 {
        return Ok(Found {
            ends,
            stop: Stop::Most,
        });
    }
    match runs.first(alloc)? {
        Ok(end) => ends.push(end)?,
        Err(halt) => {
            return Ok(Found {
                ends,
                stop: Stop::Halts(halt),
            });
        }
    }
    let stop = close_all(alloc, runs, &mut ends, most)?;
    Ok(Found { ends, stop })
}

/// Whether these ends are all; none is added.
pub fn check_ends<S: Ends>(
    alloc: Global,
    runs: &S,
    ends: Vec<S::End>,
) -> Result<Found<S::End, S::Halt>, AllocError>
    requires ends { AreFound (S.ended runs.now) (length ends.items) ends.items }
    ensures same { IfOk result (λ f. f.ends.items ≡ ends.items) }
    ensures complete { IfOk result (λ f. IfComplete
        (AreClosed S.begins (S.offered runs.now) ends.items ends.items) f.stop) }
{
    let mut ends = ends;
    let most = ends.len();
    let stop = close_all(alloc, runs, &mut ends, most)?;
    Ok(Found { ends, stop })
}
