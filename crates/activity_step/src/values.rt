//! Rows whose redex becomes a place.

ghost use Rattle.std.specs.Prelude.{◌≡◌, IfOk, List};
ghost use Rattle.asp_model.specs.Configuration.{ServiceShape};
ghost use Rattle.asp_model.specs.Contraction.{LineShape, contract};
ghost use Rattle.asp_model.specs.Split.{Redex};
ghost use Rattle.asp_model.specs.Store.{Store as StoreShape};
ghost use Rattle.asp_model.specs.Term.{Tree};
ghost use Rattle.code_table.specs.Tables.{kind_head};
ghost use Rattle.code_table.specs.declared.code.Node.{Node as NodeShape};
ghost use Rattle.code_table.specs.Shapes.{store_of};
ghost use Rattle.step_rows.specs.Decisions.{decided, value_redex};
ghost use Rattle.step_machine.specs.Rows.{IsAtRedex};
ghost use Rattle.step_machine.specs.Stacks.{last};
ghost use Rattle.step_machine.specs.Standing.{view_of};
ghost use Rattle.activity_step.specs.Advances.{IsAdvance, Stands};

use crate::advance::{Advance, stop_of};
use crate::performing::perform;
use crate::state::State;
use code_table::{Code, Kind};
use std::alloc::{AllocError, Global};
use step_rows::{Decision, decide};

impl State {
    /// Does what the redex of the last operands comes to, or tells it.
    #[inline(always)]
    pub fn decided_advance(
        &mut self,
        alloc: Global,
        decision: Decision,
        count: usize,
        go: bool,
    ) -> Result<Advance, AllocError>
        ensures advance { (k : List NodeShape) (t : Tree) (vs : List ServiceShape) (s : StoreShape)
            (ls : List LineShape) (r : Redex) →
            Stands k self.old t vs s ls → IsAtRedex k (view_of self.old.machine) t vs count r →
            contract (store_of k self.old.store.cells) r ≡ decided k self.old.store.cells decision →
            IfOk result (IsAdvance k self.new t vs s ls go) }
    {
        if let Some(advance) = stop_of(decision) {
            return Ok(advance);
        }
        if !go {
            return Ok(Advance::Reduces);
        }
        let place = perform(alloc, &mut self.store, &mut self.lines, decision)?;
        self.machine.become_place(count, place);
        Ok(Advance::Reduces)
    }

    /// A row with strict operands, which are the last operands.
    #[inline(always)]
    pub fn value_advance(
        &mut self,
        alloc: Global,
        code: &Code,
        kind: &Kind,
        count: usize,
        go: bool,
    ) -> Result<Advance, AllocError>
        ensures advance { (t : Tree) (vs : List ServiceShape) (s : StoreShape) (ls : List LineShape) →
            Stands code.now self.old t vs s ls →
            IsAtRedex code.now (view_of self.old.machine) t vs count
            (value_redex (kind_head kind.now) (last count self.old.machine.operands.items)) →
            IfOk result (IsAdvance code.now self.new t vs s ls go) }
    {
        let operands = self.machine.last_operands(count);
        let decision = decide(code, &self.store, kind, operands)?;
        self.decided_advance(alloc, decision, count, go)
    }
}
