//! Calls, and redexes that ask something of other activities.

ghost use Rattle.std.specs.Prelude.{◌≡◌, ◌∷◌, [], IfOk, IfSome, List, Option, ℕ};
ghost use Rattle.std.specs.Option.{option_map};
ghost use Rattle.asp_model.specs.Configuration.{ServiceShape};
ghost use Rattle.asp_model.specs.Contraction.{LineShape};
ghost use Rattle.asp_model.specs.Names.{Text};
ghost use Rattle.asp_model.specs.Store.{Store as StoreShape};
ghost use Rattle.asp_model.specs.Term.{Active as ActiveHead, Tree};
ghost use Rattle.code_table.specs.declared.code.Node.{Node as NodeShape};
ghost use Rattle.step_rows.specs.Decisions.{value_redex};
ghost use Rattle.step_machine.specs.declared.frames.Focus.TheVariants as focus;
ghost use Rattle.step_machine.specs.Rows.{IsAtRedex};
ghost use Rattle.step_machine.specs.Spreads.{IsAtCall};
ghost use Rattle.step_machine.specs.Stacks.{last};
ghost use Rattle.step_machine.specs.Standing.{view_of};
ghost use Rattle.activity_step.specs.Called.{IsCalled};
ghost use Rattle.activity_step.specs.Advances.{IsAdvance, Stands};

use crate::advance::Advance;
use crate::state::State;
use code_table::{Code, KeyedLabel, Place, Places};
use object_store::Store;
use std::alloc::{AllocError, Global};
use step_machine::{Machine, Spread};
use step_rows::{Callee, Creation, active_row, callee_of, look};

/// The first operand, and the others.
#[inline(always)]
pub fn first_and_others(operands: &[Place]) -> Option<(Place, &[Place])>
    ensures first { IfSome result (λ x. operands.now ≡ x.0 ∷ x.1.now) }
{
    match operands.split_first() {
        Some((first, others)) => Some((*first, others)),
        None => None,
    }
}

/// What a call of these operands leads to: the receiver, then the arguments.
#[inline(always)]
pub fn call_of<'a>(
    code: &'a Code,
    store: &'a Store,
    label: &KeyedLabel,
    operands: &[Place],
) -> Result<Callee<'a>, AllocError>
    ensures called { IfOk result
        (IsCalled code.now store.now.cells label.now.label.text operands.now) }
{
    let Some((at, arguments)) = first_and_others(operands) else {
        return Err(AllocError);
    };
    let Some(cell) = look(store, at) else {
        return Err(AllocError);
    };
    let callee = callee_of(code, cell, label, at, arguments)?;
    Ok(callee)
}

/// The same where the receiver is near.
#[inline(always)]
pub fn near_call_of<'a>(
    code: &'a Code,
    store: &'a Store,
    label: &KeyedLabel,
    operands: &[Place],
) -> Option<Callee<'a>>
    ensures called { IfSome result
        (IsCalled code.now store.now.cells label.now.label.text operands.now) }
{
    let Some((at, arguments)) = first_and_others(operands) else {
        return None;
    };
    let Some(cell) = store.near(at) else {
        return None;
    };
    match callee_of(code, cell, label, at, arguments) {
        Ok(callee) => Some(callee),
        Err(_) => None,
    }
}

/// What the call of a service leads to.
fn asked_of<'a>(
    code: &'a Code,
    machine: &Machine,
    store: &'a Store,
    count: usize,
) -> Result<Callee<'a>, AllocError>
    ensures called { let ops = last count machine.now.operands.items in
        IfOk result (IsCalled code.now store.now.cells machine.now.asked.label.text ops) }
{
    let operands = machine.last_operands(count);
    let callee = call_of(code, store, &machine.asked, operands)?;
    Ok(callee)
}

impl State {
    /// `i.m(k ..)`, where the node with this number has the label.
    #[inline(always)]
    pub fn call_advance(
        &mut self,
        alloc: Global,
        code: &Code,
        label: &KeyedLabel,
        number: usize,
        count: usize,
        go: bool,
    ) -> Result<Advance, AllocError>
        ensures advance { (t : Tree) (vs : List ServiceShape) (s : StoreShape) (ls : List LineShape) →
            Stands code.now self.old t vs s ls →
            IsAtCall code.now (view_of self.old.machine) number count label.now.label.text t vs →
            IfOk result (IsAdvance code.now self.new t vs s ls go) }
    {
        let operands = self.machine.last_operands(count);
        let callee = call_of(code, &self.store, label, operands)?;
        match callee {
            Callee::Method(method, captured) => {
                if go {
                    self.machine.enter_body(count, &captured, &method.body)?;
                }
                Ok(Advance::Reduces)
            }
            Callee::Members(members) => {
                if go {
                    self.machine
                        .spread(Spread::Same, number, count, &members, &Places::of(&[]))?;
                }
                Ok(Advance::Reduces)
            }
            Callee::Activity(_) => Ok(Advance::Sends),
            Callee::Other(decision) => self.decided_advance(alloc, decision, count, go),
        }
    }

    /// The call that a service begins with.
    #[inline(never)]
    pub fn asked_advance(
        &mut self,
        alloc: Global,
        code: &Code,
        count: usize,
        go: bool,
    ) -> Result<Advance, AllocError>
        ensures advance { (t : Tree) (vs : List ServiceShape) (s : StoreShape) (ls : List LineShape) →
            Stands code.now self.old t vs s ls → self.old.machine.focus ≡ focus.Asked count →
            IfOk result (IsAdvance code.now self.new t vs s ls go) }
    {
        let callee = asked_of(code, &self.machine, &self.store, count)?;
        match callee {
            Callee::Method(method, captured) => {
                if go {
                    self.machine.enter_body(count, &captured, &method.body)?;
                }
                Ok(Advance::Reduces)
            }
            Callee::Members(_) => Err(AllocError),
            Callee::Activity(_) => Ok(Advance::Sends),
            Callee::Other(decision) => self.decided_advance(alloc, decision, count, go),
        }
    }

    /// `active(i)`, or `active(i, m)`.
    #[inline(never)]
    pub fn active_advance(
        &mut self,
        alloc: Global,
        count: usize,
        go: bool,
    ) -> Result<Advance, AllocError>
        ensures advance { (k : List NodeShape) (service : Option Text) (t : Tree)
            (vs : List ServiceShape) (s : StoreShape) (ls : List LineShape) →
            Stands k self.old t vs s ls →
            IsAtRedex k (view_of self.old.machine) t vs count
            (value_redex (ActiveHead service) (last count self.old.machine.operands.items)) →
            IfOk result (IsAdvance k self.new t vs s ls go) }
    {
        let operands = self.machine.last_operands(count);
        let creation = active_row(&self.store, operands)?;
        match creation {
            Creation::Creates(place) => Ok(Advance::Creates(place)),
            Creation::Other(decision) => self.decided_advance(alloc, decision, count, go),
        }
    }
}
