//! Rows whose redex becomes another term of its node.

ghost use Rattle.std.specs.Prelude.{◌≡◌, ◌+◌, ◌∷◌, [], IfOk, IfSome, List, length, ℕ};
ghost use Rattle.asp_model.specs.Configuration.{ServiceShape};
ghost use Rattle.asp_model.specs.Contraction.{LineShape};
ghost use Rattle.asp_model.specs.Names.{Text};
ghost use Rattle.asp_model.specs.Store.{Number as NumberCell, Store as StoreShape, cell as cell_in};
ghost use Rattle.asp_model.specs.Term.{Tree};
ghost use Rattle.code_table.specs.declared.code.Kind.TheVariants as kind;
ghost use Rattle.code_table.specs.declared.code.Node.{Node as NodeShape};
ghost use Rattle.code_table.specs.Shapes.{store_of};
ghost use Rattle.step_machine.specs.Rows.{AtNode, chosen};
ghost use Rattle.step_machine.specs.Stacks.{last};
ghost use Rattle.step_machine.specs.Standing.{view_of};
ghost use Rattle.activity_step.specs.Advances.{IsAdvance, Stands};

use crate::advance::Advance;
use crate::state::State;
use code_table::{Code, Node, Place};
use std::alloc::{AllocError, Global};
use step_machine::child_at;
use step_rows::{Test, one, test_row};

impl State {
    /// The one operand of the redex.
    #[inline(always)]
    fn last_operand(&self, count: usize) -> Option<Place>
        ensures one { IfSome result
            (λ p. last count self.now.machine.operands.items ≡ p ∷ []) }
    {
        one(self.machine.last_operands(count))
    }

    /// `let x = i in a`.
    #[inline(never)]
    pub fn let_advance(
        &mut self,
        node: &Node,
        count: usize,
        go: bool,
    ) -> Result<Advance, AllocError>
        ensures advance { (k : List NodeShape) (number from : ℕ) (x : Text) (t : Tree)
            (vs : List ServiceShape) (s : StoreShape) (ls : List LineShape) →
            Stands k self.old t vs s ls →
            AtNode k (view_of self.old.machine) number from count node.now →
            node.now.kind ≡ kind.Let x →
            IfOk result (IsAdvance k self.new t vs s ls go) }
    {
        let Some(place) = self.last_operand(count) else {
            return Err(AllocError);
        };
        let Some(body) = child_at(node, 1) else {
            return Err(AllocError);
        };
        if go {
            self.machine.bind(count, place, body)?;
        }
        Ok(Advance::Reduces)
    }

    /// A sequence that goes on with its last term.
    #[inline(always)]
    fn last_step(
        &mut self,
        node: &Node,
        from: usize,
        count: usize,
        go: bool,
    ) -> Result<Advance, AllocError>
        ensures advance { (k : List NodeShape) (number place : ℕ) (t : Tree)
            (vs : List ServiceShape) (s : StoreShape) (ls : List LineShape) →
            Stands k self.old t vs s ls →
            AtNode k (view_of self.old.machine) number from count node.now →
            node.now.kind ≡ kind.Steps →
            last count self.old.machine.operands.items ≡ place ∷ [] →
            from + 2 ≡ length node.now.children.items →
            IfOk result (IsAdvance k self.new t vs s ls go) }
    {
        let next = from.checked_add(1).ok_or(AllocError)?;
        let Some(child) = child_at(node, next) else {
            return Err(AllocError);
        };
        if go {
            self.machine.become_child(count, child)?;
        }
        Ok(Advance::Reduces)
    }

    /// A sequence that goes on with several terms.
    #[inline(always)]
    fn next_steps(
        &mut self,
        node: &Node,
        number: usize,
        from: usize,
        count: usize,
        go: bool,
    ) -> Result<Advance, AllocError>
        ensures advance { (k : List NodeShape) (place : ℕ) (t : Tree) (vs : List ServiceShape)
            (s : StoreShape) (ls : List LineShape) →
            Stands k self.old t vs s ls →
            AtNode k (view_of self.old.machine) number from count node.now →
            node.now.kind ≡ kind.Steps →
            last count self.old.machine.operands.items ≡ place ∷ [] →
            (from + 2 ≡ length node.now.children.items → ⊥) →
            IfOk result (IsAdvance k self.new t vs s ls go) }
    {
        let next = from.checked_add(1).ok_or(AllocError)?;
        if go {
            self.machine.become_node(count, number, next);
        }
        Ok(Advance::Reduces)
    }

    /// `i; rest`, where so many terms of the sequence are gone.
    #[inline(always)]
    pub fn steps_advance(
        &mut self,
        node: &Node,
        number: usize,
        from: usize,
        count: usize,
        go: bool,
    ) -> Result<Advance, AllocError>
        ensures advance { (k : List NodeShape) (t : Tree) (vs : List ServiceShape) (s : StoreShape)
            (ls : List LineShape) →
            Stands k self.old t vs s ls →
            AtNode k (view_of self.old.machine) number from count node.now →
            node.now.kind ≡ kind.Steps →
            IfOk result (IsAdvance k self.new t vs s ls go) }
    {
        let Some(_place) = self.last_operand(count) else {
            return Err(AllocError);
        };
        let end = from.checked_add(2).ok_or(AllocError)?;
        if end == node.children.len() {
            self.last_step(node, from, count, go)
        } else {
            self.next_steps(node, number, from, count, go)
        }
    }

    /// `repeat(a)`, or the sequence that it became, whose first term is done.
    #[inline(always)]
    pub fn repeat_advance(
        &mut self,
        number: usize,
        from: usize,
        count: usize,
        go: bool,
    ) -> Result<Advance, AllocError>
        ensures advance { (k : List NodeShape) (n : NodeShape) (t : Tree) (vs : List ServiceShape)
            (s : StoreShape) (ls : List LineShape) →
            Stands k self.old t vs s ls →
            AtNode k (view_of self.old.machine) number from count n → n.kind ≡ kind.Repeat →
            IfOk result (IsAdvance k self.new t vs s ls go) }
    {
        if from == 0 {
            if go {
                self.machine.become_node(count, number, 1);
            }
            return Ok(Advance::Reduces);
        }
        let Some(_place) = self.last_operand(count) else {
            return Err(AllocError);
        };
        if go {
            self.machine.become_node(count, number, 0);
        }
        Ok(Advance::Reduces)
    }

    /// `if (i) {a} else {b}`.
    #[inline(always)]
    pub fn if_advance(
        &mut self,
        alloc: Global,
        code: &Code,
        node: &Node,
        count: usize,
        go: bool,
    ) -> Result<Advance, AllocError>
        ensures advance { (number from : ℕ) (t : Tree) (vs : List ServiceShape) (s : StoreShape)
            (ls : List LineShape) →
            Stands code.now self.old t vs s ls →
            AtNode code.now (view_of self.old.machine) number from count node.now →
            node.now.kind ≡ kind.If →
            IfOk result (IsAdvance code.now self.new t vs s ls go) }
    {
        let operands = self.machine.last_operands(count);
        match test_row(&self.store, operands)? {
            Test::Number(_, number) => self.choose(node, number, count, go),
            Test::Other(decision) => self.decided_advance(alloc, decision, count, go),
        }
    }

    /// The branch that a number chooses.
    #[inline(always)]
    pub fn choose(
        &mut self,
        node: &Node,
        number: i64,
        count: usize,
        go: bool,
    ) -> Result<Advance, AllocError>
        ensures advance { (k : List NodeShape) (at from place : ℕ) (t : Tree)
            (vs : List ServiceShape) (s : StoreShape) (ls : List LineShape) →
            Stands k self.old t vs s ls →
            AtNode k (view_of self.old.machine) at from count node.now → node.now.kind ≡ kind.If →
            last count self.old.machine.operands.items ≡ place ∷ [] →
            cell_in (store_of k self.old.store.cells) place ≡ NumberCell number →
            IfOk result (IsAdvance k self.new t vs s ls go) }
    {
        let Some(child) = child_at(node, branch_of(number)) else {
            return Err(AllocError);
        };
        if go {
            self.machine.become_child(count, child)?;
        }
        Ok(Advance::Reduces)
    }
}

/// A number that is 0 chooses the second branch, which is the third child.
#[inline(always)]
fn branch_of(number: i64) -> usize
    ensures chosen { result ≡ chosen number }
{
    if number == 0 { 2 } else { 1 }
}
