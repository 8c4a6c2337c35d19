//! Calls of the members of groups.

ghost use Rattle.std.specs.Prelude.{◌≡◌, IfOk, List, ℕ};
ghost use Rattle.asp_model.specs.Configuration.{ServiceShape};
ghost use Rattle.asp_model.specs.Contraction.{LineShape};
ghost use Rattle.asp_model.specs.Store.{Store as StoreShape};
ghost use Rattle.asp_model.specs.Term.{Tree};
ghost use Rattle.code_table.specs.declared.code.Kind.TheVariants as kind;
ghost use Rattle.code_table.specs.declared.code.Node.{Node as NodeShape};
ghost use Rattle.code_table.specs.declared.keys.KeyedLabel.{KeyedLabel as KeyedShape};
ghost use Rattle.step_machine.specs.declared.frames.Focus.TheVariants as focus;
ghost use Rattle.step_machine.specs.Rows.{AtNode};
ghost use Rattle.step_machine.specs.Standing.{view_of};
ghost use Rattle.activity_step.specs.Advances.{IsAdvance, Stands};

use crate::advance::Advance;
use crate::reducing::node_in;
use crate::state::State;
use code_table::Code;
use std::alloc::{AllocError, Global};
use step_machine::{Spread, call_label};
use step_rows::{Scattering, scatter_row};

impl State {
    /// `scatter(i, m, k)`.
    #[inline(never)]
    pub fn scatter_advance(
        &mut self,
        alloc: Global,
        number: usize,
        count: usize,
        go: bool,
    ) -> Result<Advance, AllocError>
        ensures advance { (k : List NodeShape) (from : ℕ) (n : NodeShape) (l : KeyedShape)
            (t : Tree) (vs : List ServiceShape) (s : StoreShape) (ls : List LineShape) →
            Stands k self.old t vs s ls → AtNode k (view_of self.old.machine) number from count n →
            n.kind ≡ kind.Scatter l → IfOk result (IsAdvance k self.new t vs s ls go) }
    {
        let operands = self.machine.last_operands(count);
        let scattering = scatter_row(&self.store, operands)?;
        match scattering {
            Scattering::Members(members, others) => {
                if go {
                    self.machine
                        .spread(Spread::Own, number, count, &members, &others)?;
                }
                Ok(Advance::Reduces)
            }
            Scattering::Other(decision) => self.decided_advance(alloc, decision, count, go),
        }
    }

    /// The call of a member.
    #[inline(never)]
    pub fn called_advance(
        &mut self,
        alloc: Global,
        code: &Code,
        number: usize,
        count: usize,
        go: bool,
    ) -> Result<Advance, AllocError>
        ensures advance { (t : Tree) (vs : List ServiceShape) (s : StoreShape) (ls : List LineShape) →
            Stands code.now self.old t vs s ls →
            self.old.machine.focus ≡ focus.Called number count →
            IfOk result (IsAdvance code.now self.new t vs s ls go) }
    {
        let Some(node) = node_in(code, number) else {
            return Err(AllocError);
        };
        let Some(label) = call_label(node) else {
            return Err(AllocError);
        };
        self.call_advance(alloc, code, label, number, count, go)
    }
}
