//! What an activity becomes when a communication is done.

ghost use Rattle.std.specs.Prelude.{◌≡◌, Err, List, OnErr, OnOk, alloc_error, true};
ghost use Rattle.asp_model.specs.Configuration.{Activity as ActivityShape};
ghost use Rattle.asp_model.specs.Contraction.{truth};
ghost use Rattle.asp_model.specs.Split.{Context, Redex, Splits, split};
ghost use Rattle.asp_model.specs.Store.{
  Future as FutureCell,
  Number as NumberCell,
  Reference as ReferenceCell,
};
ghost use Rattle.code_table.specs.declared.code.Node.{Node as NodeShape};
ghost use Rattle.code_table.specs.Cells.{IsBare, bare, held_future};
ghost use Rattle.code_table.specs.Shapes.{cell_of};
ghost use Rattle.activity_step.specs.Activities.{StandsFor, with_new_cell};
ghost use Rattle.activity_step.specs.Standings.{code_of, polled};

use crate::activity::Activity;
use asp_model::ActivityName;
use code_table::{Cell, Future};
use std::alloc::{AllocError, Global};
use std::sync::Arc;

/// The number of an answer.
fn number_cell(answer: bool) -> Cell
    ensures bare { IsBare result }
    ensures cell { (k : List NodeShape) → cell_of k (bare result) ≡ NumberCell (truth answer) }
{
    if answer {
        Cell::Number(1)
    } else {
        Cell::Number(0)
    }
}

impl Activity {
    /// The redex becomes a new cell, which is one reduction.
    fn become_cell(&mut self, cell: Cell) -> Result<(), AllocError>
        requires bare { IsBare cell }
        ensures becomes { (a : ActivityShape) (contexts : List Context) (redex : Redex) →
            StandsFor self.old a → split a.term ≡ Splits contexts redex →
            let c = cell_of (code_of self.old) (bare cell) in
            OnOk result (StandsFor self.new (with_new_cell contexts c a)) }
        ensures still { self.new.spent ≡ self.old.spent }
        ensures code { code_of self.new ≡ code_of self.old }
    {
        let nodes = self.code.nodes();
        let count = self.state.machine.redex(nodes)?;
        let place = self.state.store.add(cell)?;
        self.state.machine.become_place(count, place);
        let reductions = self.count.checked_add(1).ok_or(AllocError)?;
        self.count = reductions;
        Ok(())
    }

    /// The redex becomes a reference to an activity.
    fn become_reference(&mut self, alloc: Global, name: ActivityName) -> Result<(), AllocError>
        ensures becomes { (a : ActivityShape) (contexts : List Context) (redex : Redex) →
            StandsFor self.old a → split a.term ≡ Splits contexts redex →
            OnOk result (StandsFor self.new (with_new_cell contexts (ReferenceCell name) a)) }
        ensures still { self.new.spent ≡ self.old.spent }
        ensures code { code_of self.new ≡ code_of self.old }
    {
        let cell = Cell::Reference(Arc::new(alloc, name)?);
        self.become_cell(cell)
    }

    /// The redex becomes a future.
    fn become_future(&mut self, future: Arc<Future>) -> Result<(), AllocError>
        ensures becomes { (a : ActivityShape) (contexts : List Context) (redex : Redex) →
            StandsFor self.old a → split a.term ≡ Splits contexts redex →
            let c = FutureCell (held_future future) in
            OnOk result (StandsFor self.new (with_new_cell contexts c a)) }
        ensures still { self.new.spent ≡ self.old.spent }
        ensures code { code_of self.new ≡ code_of self.old }
    {
        self.become_cell(Cell::Future(future))
    }

    /// The redex becomes the number of an answer.
    fn become_number(&mut self, answer: bool) -> Result<(), AllocError>
        ensures becomes { (a : ActivityShape) (contexts : List Context) (redex : Redex) →
            StandsFor self.old a → split a.term ≡ Splits contexts redex →
            OnOk result (StandsFor self.new (polled contexts answer a)) }
        ensures still { self.new.spent ≡ self.old.spent }
        ensures code { code_of self.new ≡ code_of self.old }
    {
        self.become_cell(number_cell(answer))
    }

    /// The activity that it asked for was created, and has this name. After `AllocError` it is spent.
    pub fn created(&mut self, alloc: Global, name: ActivityName) -> Result<(), AllocError>
        ensures becomes { (a : ActivityShape) (contexts : List Context) (redex : Redex) →
            StandsFor self.old a → split a.term ≡ Splits contexts redex →
            OnOk result (StandsFor self.new (with_new_cell contexts (ReferenceCell name) a)) }
        ensures spent { self.old.spent ≡ true → result ≡ Err alloc_error }
        ensures gives_up { OnErr result (self.new.spent ≡ true) }
        ensures still { OnOk result (self.new.spent ≡ self.old.spent) }
        ensures code { code_of self.new ≡ code_of self.old }
    {
        self.unspent()?;
        let outcome = self.become_reference(alloc, name);
        self.noted(outcome)
    }

    /// The request that it asked for was sent, and this future has its answer. After `AllocError` it is
    /// spent.
    pub fn sent(&mut self, _alloc: Global, future: Arc<Future>) -> Result<(), AllocError>
        ensures becomes { (a : ActivityShape) (contexts : List Context) (redex : Redex) →
            StandsFor self.old a → split a.term ≡ Splits contexts redex →
            let c = FutureCell (held_future future) in
            OnOk result (StandsFor self.new (with_new_cell contexts c a)) }
        ensures spent { self.old.spent ≡ true → result ≡ Err alloc_error }
        ensures gives_up { OnErr result (self.new.spent ≡ true) }
        ensures still { OnOk result (self.new.spent ≡ self.old.spent) }
        ensures code { code_of self.new ≡ code_of self.old }
    {
        self.unspent()?;
        let outcome = self.become_future(future);
        self.noted(outcome)
    }

    /// What is pending was told: the redex becomes 1 where the answer is yes, and else 0. After
    /// `AllocError` it is spent.
    pub fn polled(&mut self, _alloc: Global, answer: bool) -> Result<(), AllocError>
        ensures becomes { (a : ActivityShape) (contexts : List Context) (redex : Redex) →
            StandsFor self.old a → split a.term ≡ Splits contexts redex →
            OnOk result (StandsFor self.new (polled contexts answer a)) }
        ensures spent { self.old.spent ≡ true → result ≡ Err alloc_error }
        ensures gives_up { OnErr result (self.new.spent ≡ true) }
        ensures still { OnOk result (self.new.spent ≡ self.old.spent) }
        ensures code { code_of self.new ≡ code_of self.old }
    {
        self.unspent()?;
        let outcome = self.become_number(answer);
        self.noted(outcome)
    }
}
