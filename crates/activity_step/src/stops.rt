//! Where a lease ends most often, told from where the machine stands.

ghost use Rattle.std.specs.Prelude.{◌≡◌, IfSome, List, Option, ℕ};
ghost use Rattle.asp_model.specs.Configuration.{ServiceShape};
ghost use Rattle.asp_model.specs.Contraction.{LineShape};
ghost use Rattle.asp_model.specs.Names.{Text};
ghost use Rattle.asp_model.specs.Store.{Store as StoreShape};
ghost use Rattle.asp_model.specs.Term.{Active as ActiveHead, Tree};
ghost use Rattle.code_table.specs.declared.code.Node.{Node as NodeShape};
ghost use Rattle.step_rows.specs.Decisions.{value_redex};
ghost use Rattle.step_machine.specs.declared.frames.Focus.TheVariants as focus;
ghost use Rattle.step_machine.specs.Rows.{IsAtRedex};
ghost use Rattle.step_machine.specs.Spreads.{IsAtCall};
ghost use Rattle.step_machine.specs.Stacks.{last};
ghost use Rattle.step_machine.specs.Standing.{view_of};
ghost use Rattle.activity_step.specs.Advances.{IsStop, Stands};

use crate::advance::Advance;
use crate::calls::call_of;
use crate::reducing::node_in;
use crate::state::State;
use code_table::{Code, KeyedLabel, Kind, Place};
use step_machine::{Focus, in_place_count};
use step_rows::{Callee, Creation, active_row};

impl State {
    /// A request.
    #[inline(always)]
    fn stop_call(
        &self,
        code: &Code,
        label: &KeyedLabel,
        number: usize,
        count: usize,
    ) -> Option<Advance>
        ensures stop { (t : Tree) (vs : List ServiceShape) (s : StoreShape) (ls : List LineShape) →
            Stands code.now self.now t vs s ls →
            IsAtCall code.now (view_of self.now.machine) number count label.now.label.text t vs →
            IfSome result (IsStop code.now self.now t vs s ls) }
    {
        let operands = self.machine.last_operands(count);
        let Ok(callee) = call_of(code, &self.store, label, operands) else {
            return None;
        };
        match callee {
            Callee::Activity(_) => Some(Advance::Sends),
            _ => None,
        }
    }

    /// A new activity.
    #[inline(always)]
    fn stop_active(&self, count: usize) -> Option<Advance>
        ensures stop { (k : List NodeShape) (service : Option Text) (t : Tree)
            (vs : List ServiceShape) (s : StoreShape) (ls : List LineShape) →
            Stands k self.now t vs s ls →
            IsAtRedex k (view_of self.now.machine) t vs count
            (value_redex (ActiveHead service) (last count self.now.machine.operands.items)) →
            IfSome result (IsStop k self.now t vs s ls) }
    {
        let operands = self.machine.last_operands(count);
        let Ok(creation) = active_row(&self.store, operands) else {
            return None;
        };
        match creation {
            Creation::Creates(place) => Some(Advance::Creates(place)),
            Creation::Other(_decision) => None,
        }
    }

    /// A communication.
    #[inline(always)]
    fn stop_redex(&self, code: &Code, number: usize, from: usize, count: usize) -> Option<Advance>
        ensures stop { (t : Tree) (vs : List ServiceShape) (s : StoreShape) (ls : List LineShape) →
            Stands code.now self.now t vs s ls →
            self.now.machine.focus ≡ focus.Node number from count →
            IfSome result (IsStop code.now self.now t vs s ls) }
    {
        let Some(node) = node_in(code, number) else {
            return None;
        };
        if count != in_place_count(node, from) {
            return None;
        }
        match &node.kind {
            Kind::Call(label) => self.stop_call(code, label, number, count),
            Kind::Active(_) => self.stop_active(count),
            Kind::Serve(_) => Some(Advance::Serves),
            Kind::Pending(_) => Some(Advance::Polls),
            _ => None,
        }
    }

    /// The term is a place, where no frame of it is left.
    #[inline(always)]
    fn stop_place(&self, place: Place) -> Option<Advance>
        ensures stop { (k : List NodeShape) (t : Tree) (vs : List ServiceShape) (s : StoreShape)
            (ls : List LineShape) →
            Stands k self.now t vs s ls → self.now.machine.focus ≡ focus.Place place →
            IfSome result (IsStop k self.now t vs s ls) }
    {
        if self.machine.is_alone() {
            Some(Advance::Rests(place))
        } else {
            None
        }
    }

    /// Where no contraction is left, if that is told at once: at a communication, or at the place that
    /// the term is.
    #[inline(always)]
    pub fn stop(&self, code: &Code) -> Option<Advance>
        ensures stop { (t : Tree) (vs : List ServiceShape) (s : StoreShape) (ls : List LineShape) →
            Stands code.now self.now t vs s ls →
            IfSome result (IsStop code.now self.now t vs s ls) }
    {
        match self.machine.focus {
            Focus::Node { number, from, done } => self.stop_redex(code, number, from, done),
            Focus::Place(place) => self.stop_place(place),
            _ => None,
        }
    }
}
