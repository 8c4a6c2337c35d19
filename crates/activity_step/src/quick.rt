//! Contractions of the kinds that run most.

ghost use Rattle.std.specs.Prelude.{◌≡◌, ◌<◌, ◌≤◌, IfOk, List, OnOk, Some, true, ℕ};
ghost use Rattle.asp_model.specs.Configuration.{ServiceShape};
ghost use Rattle.asp_model.specs.Contraction.{LineShape, contract};
ghost use Rattle.asp_model.specs.Names.{Text};
ghost use Rattle.asp_model.specs.Split.{Redex};
ghost use Rattle.asp_model.specs.Store.{Store as StoreShape};
ghost use Rattle.asp_model.specs.Term.{Tree};
ghost use Rattle.code_laws.specs.Nodes.{in_place};
ghost use Rattle.code_table.specs.Classes.{class_at, class_of};
ghost use Rattle.code_table.specs.Tables.{kind_head};
ghost use Rattle.code_table.specs.declared.code.Kind.TheVariants as kind;
ghost use Rattle.code_table.specs.declared.code.Node.{Node as NodeShape};
ghost use Rattle.code_table.specs.Shapes.{store_of};
ghost use Rattle.step_rows.specs.Decisions.{decided, value_redex};
ghost use Rattle.step_machine.specs.declared.frames.Focus.TheVariants as focus;
ghost use Rattle.step_machine.specs.Rows.{AtNode, IsAtRedex};
ghost use Rattle.step_machine.specs.declared.frames.Nested.TheVariants as nested;
ghost use Rattle.step_machine.specs.Sites.{Gives, IsNested, IsNodeAt, number_redex};
ghost use Rattle.step_machine.specs.Spreads.{IsAtCall};
ghost use Rattle.step_machine.specs.Stacks.{last, piece_from};
ghost use Rattle.step_machine.specs.Standing.{view_of};
ghost use Rattle.activity_step.specs.declared.state.State.{State as StateShape};
ghost use Rattle.activity_step.specs.Advances.{AreTaken, IsAdvance, IsTaken, Reduced, Stands};

use crate::activity::is_reduction;
use crate::advance::{Advance, stop_of};
use crate::calls::near_call_of;
use crate::performing::{add_number, perform};
use crate::state::State;
use asp_model::Sign;
use code_table::{Cell, Class, Code, KeyedLabel, Kind, Node, Place};
use std::alloc::{AllocError, Global};
use step_machine::{Focus, Nested, Site};
use step_rows::{Callee, Decision, near_decide, near_get, near_operate, near_test, operate_next};

/// Whether a contraction was taken.
#[inline(always)]
fn taken(outcome: Result<Advance, AllocError>) -> Result<bool, AllocError>
    ensures taken { (k : List NodeShape) (x : StateShape) (t : Tree) (vs : List ServiceShape)
        (s : StoreShape) (ls : List LineShape) →
        IfOk outcome (IsAdvance k x t vs s ls true) → IfOk result (IsTaken k x t vs s ls) }
{
    let advance = outcome?;
    Ok(is_reduction(advance))
}

/// How many contractions were taken.
#[inline(always)]
fn count_of(taken: bool) -> u64
    ensures taken { (k : List NodeShape) (x : StateShape) (t : Tree) (vs : List ServiceShape)
        (s : StoreShape) (ls : List LineShape) →
        IsTaken k x t vs s ls taken → AreTaken k x t vs s ls result }
    ensures within { result ≤ 1 }
{
    if taken { 1 } else { 0 }
}

impl State {
    /// A number that is the next term below a node becomes a place.
    #[inline(always)]
    fn quick_number(
        &mut self,
        number: usize,
        from: usize,
        done: usize,
        value: i64,
    ) -> Result<(), AllocError>
        ensures reduced { (k : List NodeShape) (t : Tree) (vs : List ServiceShape) (s : StoreShape)
            (ls : List LineShape) →
            Stands k self.old t vs s ls →
            Gives k t vs (view_of self.old.machine) number from done (number_redex value) →
            OnOk result (Reduced k self.new t vs s ls) }
    {
        let place = add_number(&mut self.store, &self.lines, value)?;
        self.machine.give(number, from, done, place)?;
        Ok(())
    }

    /// An object of the class of a node.
    #[inline(never)]
    fn quick_make(
        &mut self,
        alloc: Global,
        class: &Class,
        number: usize,
        count: usize,
    ) -> Result<bool, AllocError>
        ensures taken { (k : List NodeShape) (from : ℕ) (n : NodeShape) (t : Tree)
            (vs : List ServiceShape) (s : StoreShape) (ls : List LineShape) →
            Stands k self.old t vs s ls → AtNode k (view_of self.old.machine) number from count n →
            class_at k number ≡ class_of n.kind → class_of n.kind ≡ Some class.now →
            IfOk result (IsTaken k self.new t vs s ls) }
    {
        taken(self.make_advance(alloc, class, number, count, true))
    }

    /// `let x = i in a`.
    #[inline(never)]
    fn quick_let(&mut self, node: &Node, count: usize) -> Result<bool, AllocError>
        ensures taken { (k : List NodeShape) (number from : ℕ) (x : Text) (t : Tree)
            (vs : List ServiceShape) (s : StoreShape) (ls : List LineShape) →
            Stands k self.old t vs s ls →
            AtNode k (view_of self.old.machine) number from count node.now →
            node.now.kind ≡ kind.Let x → IfOk result (IsTaken k self.new t vs s ls) }
    {
        taken(self.let_advance(node, count, true))
    }

    /// The call that a service begins with.
    #[inline(never)]
    fn quick_asked(&mut self, alloc: Global, code: &Code, count: usize) -> Result<bool, AllocError>
        ensures taken { (t : Tree) (vs : List ServiceShape) (s : StoreShape) (ls : List LineShape) →
            Stands code.now self.old t vs s ls → self.old.machine.focus ≡ focus.Asked count →
            IfOk result (IsTaken code.now self.new t vs s ls) }
    {
        taken(self.asked_advance(alloc, code, count, true))
    }

    /// Where no node is next, a service may begin with its call.
    #[inline(always)]
    fn quick_other(&mut self, alloc: Global, code: &Code) -> Result<bool, AllocError>
        ensures taken { (t : Tree) (vs : List ServiceShape) (s : StoreShape) (ls : List LineShape) →
            Stands code.now self.old t vs s ls →
            IfOk result (IsTaken code.now self.new t vs s ls) }
    {
        match self.machine.focus {
            Focus::Asked(count) => self.quick_asked(alloc, code, count),
            _ => Ok(false),
        }
    }

    /// A row with strict operands, which are the last operands.
    #[inline(always)]
    fn quick_value(
        &mut self,
        alloc: Global,
        code: &Code,
        kind: &Kind,
        count: usize,
    ) -> Result<bool, AllocError>
        ensures taken { (t : Tree) (vs : List ServiceShape) (s : StoreShape) (ls : List LineShape) →
            Stands code.now self.old t vs s ls →
            IsAtRedex code.now (view_of self.old.machine) t vs count
            (value_redex (kind_head kind.now) (last count self.old.machine.operands.items)) →
            IfOk result (IsTaken code.now self.new t vs s ls) }
    {
        let operands = self.machine.last_operands(count);
        let Some(decision) = near_decide(code, &self.store, kind, operands) else {
            return Ok(false);
        };
        taken(self.decided_advance(alloc, decision, count, true))
    }

    /// `i.m(k ..)`, where the receiver is near and no group.
    #[inline(always)]
    fn quick_call(
        &mut self,
        code: &Code,
        label: &KeyedLabel,
        number: usize,
        count: usize,
    ) -> Result<bool, AllocError>
        ensures taken { (t : Tree) (vs : List ServiceShape) (s : StoreShape) (ls : List LineShape) →
            Stands code.now self.old t vs s ls →
            IsAtCall code.now (view_of self.old.machine) number count label.now.label.text t vs →
            IfOk result (IsTaken code.now self.new t vs s ls) }
    {
        let operands = self.machine.last_operands(count);
        let Some(callee) = near_call_of(code, &self.store, label, operands) else {
            return Ok(false);
        };
        let Callee::Method(method, captured) = callee else {
            return Ok(false);
        };
        self.machine.enter_body(count, &captured, &method.body)?;
        Ok(true)
    }

    /// `if (i) {a} else {b}`, where the number is near.
    #[inline(always)]
    fn quick_if(&mut self, node: &Node, count: usize) -> Result<bool, AllocError>
        ensures taken { (k : List NodeShape) (number from : ℕ) (t : Tree) (vs : List ServiceShape)
            (s : StoreShape) (ls : List LineShape) →
            Stands k self.old t vs s ls →
            AtNode k (view_of self.old.machine) number from count node.now →
            node.now.kind ≡ kind.If → IfOk result (IsTaken k self.new t vs s ls) }
    {
        let operands = self.machine.last_operands(count);
        let Some((_place, number)) = near_test(&self.store, operands) else {
            return Ok(false);
        };
        taken(self.choose(node, number, count, true))
    }

    /// The redex of a node whose terms that are reduced in place are done, where its kind is one of
    /// those that run most.
    #[inline(always)]
    fn quick_redex(
        &mut self,
        alloc: Global,
        code: &Code,
        node: &Node,
        number: usize,
        from: usize,
        count: usize,
    ) -> Result<bool, AllocError>
        ensures taken { (t : Tree) (vs : List ServiceShape) (s : StoreShape) (ls : List LineShape) →
            Stands code.now self.old t vs s ls →
            self.old.machine.focus ≡ focus.Node number from count →
            count ≡ in_place (piece_from code.now number from) → IsNodeAt code.now number node.now →
            IfOk result (IsTaken code.now self.new t vs s ls) }
    {
        match &node.kind {
            Kind::Make(class) => self.quick_make(alloc, class, number, count),
            Kind::Call(label) => self.quick_call(code, label, number, count),
            Kind::Let(_) => self.quick_let(node, count),
            Kind::Steps => taken(self.steps_advance(node, number, from, count, true)),
            Kind::If => self.quick_if(node, count),
            Kind::Repeat => taken(self.repeat_advance(number, from, count, true)),
            Kind::Number(n) => {
                taken(self.decided_advance(alloc, Decision::Number(*n), count, true))
            }
            Kind::Get(_) => self.quick_value(alloc, code, &node.kind, count),
            Kind::Put(_) => self.quick_value(alloc, code, &node.kind, count),
            Kind::Operate(_) => self.quick_value(alloc, code, &node.kind, count),
            _ => Ok(false),
        }
    }

    /// What a redex below a node comes to, where that is a contraction.
    #[inline(always)]
    fn nested_decided(
        &mut self,
        alloc: Global,
        decision: Decision,
        number: usize,
        from: usize,
        done: usize,
    ) -> Result<u64, AllocError>
        ensures taken { (k : List NodeShape) (r : Redex) (t : Tree) (vs : List ServiceShape)
            (s : StoreShape) (ls : List LineShape) →
            Stands k self.old t vs s ls →
            Gives k t vs (view_of self.old.machine) number from done r →
            contract (store_of k self.old.store.cells) r ≡ decided k self.old.store.cells decision →
            IfOk result (AreTaken k self.new t vs s ls) }
        ensures within { IfOk result (λ n. n ≤ 1) }
    {
        if stop_of(decision).is_some() {
            return Ok(0);
        }
        let place = perform(alloc, &mut self.store, &mut self.lines, decision)?;
        self.machine.give(number, from, done, place)?;
        Ok(1)
    }

    /// A number, and a sign over a place and it, if that gives a number too.
    #[inline(always)]
    fn quick_pair(
        &mut self,
        sign: Sign,
        first: Place,
        value: i64,
        number: usize,
        from: usize,
        done: usize,
    ) -> Result<u64, AllocError>
        ensures taken { (k : List NodeShape) (t : Tree) (vs : List ServiceShape) (s : StoreShape)
            (ls : List LineShape) →
            Stands k self.old t vs s ls →
            let next = nested.OperateNumber sign first value in
            IsNested k t vs (view_of self.old.machine) number from done next →
            IfOk result (AreTaken k self.new t vs s ls) }
        ensures within { IfOk result (λ n. n ≤ 2) }
    {
        let Some(sum) = operate_next(&self.store, sign, first, value) else {
            return Ok(0);
        };
        self.store.add(Cell::Number(value))?;
        let place = self.store.add(Cell::Number(sum))?;
        self.machine.give(number, from, done, place)?;
        Ok(2)
    }

    /// A redex below a node, which needs no frame, and no more contractions than are left.
    #[inline(always)]
    fn quick_nested(
        &mut self,
        alloc: Global,
        code: &Code,
        number: usize,
        from: usize,
        done: usize,
        redex: Nested,
        left: u64,
    ) -> Result<u64, AllocError>
        ensures taken { (t : Tree) (vs : List ServiceShape) (s : StoreShape) (ls : List LineShape) →
            Stands code.now self.old t vs s ls →
            IsNested code.now t vs (view_of self.old.machine) number from done redex.entry →
            IfOk result (AreTaken code.now self.new t vs s ls) }
        ensures within { 0 < left → IfOk result (λ n. n ≤ left) }
    {
        match redex {
            Nested::Number(value) => {
                self.quick_number(number, from, done, value)?;
                Ok(1)
            }
            Nested::Get(label, at) => {
                let Some(decision) = near_get(code, &self.store, label, at) else {
                    return Ok(0);
                };
                self.nested_decided(alloc, decision, number, from, done)
            }
            Nested::Operate(sign, first, second) => {
                let Some(decision) = near_operate(&self.store, sign, first, second) else {
                    return Ok(0);
                };
                self.nested_decided(alloc, decision, number, from, done)
            }
            Nested::OperateNumber(sign, first, value) => {
                if left < 2 {
                    return Ok(0);
                }
                self.quick_pair(sign, first, value, number, from, done)
            }
        }
    }

    /// Takes the next contractions where they are of a kind that runs most, no more than are left.
    #[inline(always)]
    fn quick(&mut self, alloc: Global, code: &Code, left: u64) -> Result<u64, AllocError>
        ensures taken { (t : Tree) (vs : List ServiceShape) (s : StoreShape) (ls : List LineShape) →
            Stands code.now self.old t vs s ls →
            IfOk result (AreTaken code.now self.new t vs s ls) }
        ensures within { 0 < left → IfOk result (λ n. n ≤ left) }
    {
        let site = self.machine.reach(code.nodes())?;
        match site {
            Site::Redex {
                node,
                number,
                from,
                done,
            } => {
                let taken = self.quick_redex(alloc, code, node, number, from, done)?;
                Ok(count_of(taken))
            }
            Site::Nested {
                number,
                from,
                done,
                redex,
            } => self.quick_nested(alloc, code, number, from, done, redex, left),
            Site::Other => {
                let taken = self.quick_other(alloc, code)?;
                Ok(count_of(taken))
            }
        }
    }

    /// Takes contractions as long as they are of a kind that runs most, at most so many.
    #[inline(always)]
    pub fn quick_all(&mut self, alloc: Global, code: &Code, most: u64) -> Result<u64, AllocError>
        ensures taken { (t : Tree) (vs : List ServiceShape) (s : StoreShape) (ls : List LineShape) →
            Stands code.now self.old t vs s ls →
            IfOk result (AreTaken code.now self.new t vs s ls) }
        ensures within { IfOk result (λ n. n ≤ most) }
    {
        let mut left = most;
        while left > 0 {
            let taken = self.quick(alloc, code, left)?;
            if taken == 0 {
                return Ok(most.saturating_sub(left));
            }
            left -= taken;
        }
        Ok(most)
    }
}
