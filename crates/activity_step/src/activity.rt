//! An activity, and its contractions.

ghost use Rattle.std.specs.Prelude.{◌≡◌, ◌<◌, ◌≤◌, Err, IfOk, OnErr, OnOk, alloc_error, reverse, true};
ghost use Rattle.std.specs.Option.{option_map};
ghost use Rattle.asp_model.specs.Shapes.{future_shape};
ghost use Rattle.asp_model.specs.Configuration.{Activity as ActivityShape};
ghost use Rattle.activity_step.specs.Activities.{
  IsAfter,
  IsNext,
  IsRun,
  IsRunning,
  StandsFor,
  reduces,
};
ghost use Rattle.activity_step.specs.Standings.{code_of};
ghost use Rattle.activity_step.specs.Advances.{Stands};

use crate::advance::Advance;
use crate::state::State;
use asp_model::{FutureName, Line};
use code_table::{Code, Future, Place};
use object_store::Store;
use std::alloc::{AllocError, Global};
use std::sync::Arc;

/// An activity over the code that all activities of a run share.
pub struct Activity {
    pub(crate) code: Arc<Code>,
    pub(crate) state: State,
    /// Where its active object stands.
    pub(crate) active: Place,
    /// The future of the service that runs, if it is no start term.
    pub(crate) present: Option<Arc<Future>>,
    /// How many reductions it took.
    pub(crate) count: u64,
    /// It gave "no memory" once, and gives nothing else since.
    pub(crate) spent: bool,
}

// Written out, so that crates above drop it by one call.
impl Drop for Activity {
    fn drop(self) {
        let Activity {
            code: _,
            state: _,
            active: _,
            present: _,
            count: _,
            spent: _,
        } = self;
    }
}

impl Activity {
    /// The code that it runs.
    pub fn code(&self) -> &Arc<Code>
        ensures code { result.now ≡ self.now.code }
    {
        &self.code
    }

    /// Where its active object stands.
    pub fn active(&self) -> Place
        ensures active { (a : ActivityShape) → StandsFor self.now a → result ≡ a.active }
    {
        self.active
    }

    /// How many reductions it took.
    pub fn count(&self) -> u64
        ensures count { (a : ActivityShape) → StandsFor self.now a → result ≡ a.reductions }
    {
        self.count
    }

    /// Its store.
    pub fn store(&self) -> &Store
        ensures store { result.now ≡ self.now.state.store }
    {
        &self.state.store
    }

    /// Its output lines, in order.
    pub fn lines(&self) -> &[Line]
        ensures lines { result.now ≡ self.now.state.lines.items }
    {
        &self.state.lines
    }

    /// Its state and where its active object stands, where it is done with.
    pub fn into_state(self) -> (State, Place)
        ensures stands { (a : ActivityShape) → StandsFor self a →
            Stands (code_of self) result.0 a.term (reverse a.services) a.store a.lines }
        ensures active { (a : ActivityShape) → StandsFor self a → result.1 ≡ a.active }
    {
        let Activity {
            code: _,
            state,
            active,
            present: _,
            count: _,
            spent: _,
        } = self;
        (state, active)
    }

    /// The future of the service that runs; none where the start term runs.
    pub fn present(&self) -> Option<&FutureName>
        ensures present { (a : ActivityShape) → StandsFor self.now a →
            option_map (λ f. future_shape f.now) result ≡ a.present }
    {
        match &self.present {
            Some(future) => Some(&future.name),
            None => None,
        }
    }

    /// It gave "no memory" once, and gives nothing else since.
    pub fn is_spent(&self) -> bool
        ensures spent { result ≡ self.now.spent }
    {
        self.spent
    }

    /// Fails where it is spent.
    pub(crate) fn unspent(&self) -> Result<(), AllocError>
        ensures spent { self.now.spent ≡ true → result ≡ Err alloc_error }
        ensures only { OnErr result (self.now.spent ≡ true) }
    {
        if self.spent { Err(AllocError) } else { Ok(()) }
    }

    /// What came of a call. After `AllocError` it is spent.
    pub(crate) fn noted<T>(&mut self, outcome: Result<T, AllocError>) -> Result<T, AllocError>
        ensures outcome { result ≡ outcome }
        ensures same { OnOk result (self.new ≡ self.old) }
        ensures gives_up { OnErr result (self.new.spent ≡ true) }
        ensures still { OnOk result (self.new.spent ≡ self.old.spent) }
        ensures code { code_of self.new ≡ code_of self.old }
    {
        if outcome.is_err() {
            self.spent = true;
        }
        outcome
    }

    /// One contraction, where it may be taken, or what the redex comes to, whatever it is.
    #[inline(never)]
    fn take_any(&mut self, alloc: Global, go: bool) -> Result<Advance, AllocError>
        ensures after { (a : ActivityShape) → StandsFor self.old a →
            IfOk result (IsAfter self.new a go) }
        ensures still { self.new.spent ≡ self.old.spent }
        ensures code { code_of self.new ≡ code_of self.old }
    {
        let advance = self.state.advance(alloc, &self.code, go)?;
        if !go {
            return Ok(advance);
        }
        if !is_reduction(advance) {
            return Ok(advance);
        }
        let count = self.count.checked_add(1).ok_or(AllocError)?;
        self.count = count;
        Ok(advance)
    }

    /// One contraction, where it may be taken, or what the redex comes to.
    #[inline(never)]
    fn take(&mut self, alloc: Global, go: bool) -> Result<Advance, AllocError>
        ensures after { (a : ActivityShape) → StandsFor self.old a →
            IfOk result (IsAfter self.new a go) }
        ensures still { self.new.spent ≡ self.old.spent }
        ensures code { code_of self.new ≡ code_of self.old }
    {
        match self.state.stop(&self.code) {
            Some(advance) => Ok(advance),
            None => {
                let advance = self.take_any(alloc, go)?;
                Ok(advance)
            }
        }
    }

    /// One contraction, where it may be taken, or what the redex comes to. After `AllocError` it is
    /// spent.
    #[inline(never)]
    pub fn step(&mut self, alloc: Global, go: bool) -> Result<Advance, AllocError>
        ensures after { (a : ActivityShape) → StandsFor self.old a →
            IfOk result (IsAfter self.new a go) }
        ensures spent { self.old.spent ≡ true → result ≡ Err alloc_error }
        ensures gives_up { OnErr result (self.new.spent ≡ true) }
        ensures still { OnOk result (self.new.spent ≡ self.old.spent) }
        ensures code { code_of self.new ≡ code_of self.old }
    {
        self.unspent()?;
        let outcome = self.take(alloc, go);
        self.noted(outcome)
    }

    /// Contractions of the kinds that run most, no more than are left.
    #[inline(always)]
    fn quick(&mut self, alloc: Global, left: u64) -> Result<u64, AllocError>
        ensures taken { (a : ActivityShape) → StandsFor self.old a →
            IfOk result (IsRunning self.new a) }
        ensures within { IfOk result (λ n. n ≤ left) }
        ensures still { self.new.spent ≡ self.old.spent }
        ensures code { code_of self.new ≡ code_of self.old }
    {
        let taken = self.state.quick_all(alloc, &self.code, left)?;
        let count = self.count.checked_add(taken).ok_or(AllocError)?;
        self.count = count;
        Ok(taken)
    }

    /// The next contractions, no more than are left, and what the redex behind them comes to, which
    /// counts as one. What a call answers that is not inlined is kept apart: so the answer itself
    /// needs no memory.
    #[inline(always)]
    fn take_next(&mut self, alloc: Global, left: u64) -> Result<(u64, Advance), AllocError>
        requires some { 0 < left }
        ensures next { (a : ActivityShape) → StandsFor self.old a →
            IfOk result (λ x. IsNext self.new a x.0 x.1) }
        ensures some { IfOk result (λ x. 0 < x.0) }
        ensures within { IfOk result (λ x. x.0 ≤ left) }
        ensures still { self.new.spent ≡ self.old.spent }
        ensures code { code_of self.new ≡ code_of self.old }
    {
        let taken = self.quick(alloc, left)?;
        if taken >= left {
            return Ok((taken, Advance::Reduces));
        }
        let advance = self.take(alloc, true)?;
        Ok((taken + 1, advance))
    }

    /// Takes the contractions before its stop, at most so many.
    #[inline(always)]
    fn run(&mut self, alloc: Global, most: u64) -> Result<Advance, AllocError>
        ensures run { (a : ActivityShape) → StandsFor self.old a →
            IfOk result (IsRun self.new a most) }
        ensures still { self.new.spent ≡ self.old.spent }
        ensures code { code_of self.new ≡ code_of self.old }
    {
        let mut left = most;
        while left > 0 {
            let (taken, advance) = self.take_next(alloc, left)?;
            if !is_reduction(advance) {
                return Ok(advance);
            }
            left -= taken;
        }
        let advance = self.take(alloc, false)?;
        Ok(advance)
    }

    /// Takes the contractions before its stop, at most so many. `Reduces` where all of them were taken
    /// and one more could be. After `AllocError` it is spent.
    #[inline(never)]
    pub fn local(&mut self, alloc: Global, most: u64) -> Result<Advance, AllocError>
        ensures run { (a : ActivityShape) → StandsFor self.old a →
            IfOk result (IsRun self.new a most) }
        ensures spent { self.old.spent ≡ true → result ≡ Err alloc_error }
        ensures gives_up { OnErr result (self.new.spent ≡ true) }
        ensures still { OnOk result (self.new.spent ≡ self.old.spent) }
        ensures code { code_of self.new ≡ code_of self.old }
    {
        self.unspent()?;
        let outcome = self.run(alloc, most);
        self.noted(outcome)
    }
}

#[inline(always)]
pub(crate) fn is_reduction(advance: Advance) -> bool
    ensures reduces { result ≡ reduces advance }
{
    match advance {
        Advance::Reduces => true,
        _ => false,
    }
}
