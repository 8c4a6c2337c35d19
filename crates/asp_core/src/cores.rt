//! A core.

ghost use Rattle.std.specs.Prelude.{◌≡◌, ◌∷◌, [], IfOk, OnOk, false};
ghost use Rattle.std.specs.Arc.{arc_value};
ghost use Rattle.asp_model.specs.Names.{main_name};
ghost use Rattle.asp_model.specs.Shapes.{tree_of};
ghost use Rattle.asp_model.specs.History.{program_history};
ghost use Rattle.asp_model.specs.Term.{locations};
ghost use Rattle.def_journals.specs.Journals.{begun as start_of};
ghost use Rattle.core_edges.specs.Strategies.{KeepsEdges};
ghost use Rattle.core_state.specs.Cores.{IsCore, program_of};

use crate::first::First;
use asp_check::Checked;
use asp_model::{ActivityName, Entry};
use code_compiler::compile;
use code_table::Code;
use core_edges::Edges;
use core_state::CoreState;
use std::alloc::{AllocError, Global};
use std::sync::Arc;
use update_policy::{Plan, Policies, PolicyBox, UpdatePolicy};

mod apart;

/// Activities that are here or lent, the edges along which futures went, and the journal of all
/// that was lent, committed and delivered. After `AllocError` it is spent.
pub struct Core<P = PolicyBox> {
    pub(crate) alloc: Global,
    pub(crate) code: Arc<Code>,
    /// Where its run begins, which only proofs read.
    pub(crate) first: First,
    pub(crate) budget: u64,
    pub(crate) state: CoreState,
    pub(crate) edges: Edges<P>,
    pub(crate) spent: bool,
}

// Written out: wherever a core is let go, this is called, and no drop of what is in it is proved.
impl<P: Drop> Drop for Core<P> {
    fn drop(self) {
        let Core {
            alloc: _,
            code: _,
            first: _,
            budget: _,
            state: _,
            edges: _,
            spent: _,
        } = self;
    }
}

/// The code of a program, and the state of its start.
#[derive(Drop)]
struct Beginning {
    code: Arc<Code>,
    state: CoreState,
}

fn begun(alloc: Global, program: &Checked, budget: u64) -> Result<Beginning, AllocError>
    ensures program { let term = tree_of program.now.program.root in
        IfOk result (λ b. program_of (arc_value b.code) ≡ term) }
    ensures bare { IfOk result (λ b. locations (program_of (arc_value b.code)) ≡ []) }
    ensures state { IfOk result (λ b. let k = arc_value b.code in
        IsCore (program_history (program_of k) budget []) k b.state (start_of (program_of k) budget)) }
{
    let code = Arc::new(alloc, compile(alloc, program)?)?;
    let state = CoreState::begin(alloc, code.clone()?, budget)?;
    Ok(Beginning { code, state })
}

/// The edges meet the main activity.
fn meet_main<P: UpdatePolicy>(alloc: Global, edges: &mut Edges<P>) -> Result<(), AllocError>
    requires none { edges.old.holders.activities ≡ [] }
    ensures met { OnOk result (edges.new.holders.activities ≡ (main_name, false) ∷ []) }
    ensures edges { OnOk result (KeepsEdges edges.old edges.new) }
{
    let main = ActivityName::main(alloc)?;
    edges.met(&main)?;
    Ok(())
}

/// The start of a program, of which edges are told.
fn begin<P: UpdatePolicy>(
    alloc: Global,
    program: &Checked,
    budget: u64,
    edges: &mut Edges<P>,
) -> Result<Beginning, AllocError>
    requires none { edges.old.holders.activities ≡ [] }
    ensures program { let term = tree_of program.now.program.root in
        IfOk result (λ b. program_of (arc_value b.code) ≡ term) }
    ensures bare { IfOk result (λ b. locations (program_of (arc_value b.code)) ≡ []) }
    ensures state { IfOk result (λ b. let k = arc_value b.code in
        IsCore (program_history (program_of k) budget []) k b.state (start_of (program_of k) budget)) }
    ensures met { OnOk result (edges.new.holders.activities ≡ (main_name, false) ∷ []) }
    ensures edges { OnOk result (KeepsEdges edges.old edges.new) }
{
    meet_main(alloc, edges)?;
    begun(alloc, program, budget)
}

impl<P: UpdatePolicy + Drop> Core<P> {
    ghost use Rattle.std.specs.Prelude.{◌≡◌, IfOk};
    ghost use Rattle.asp_model.specs.Shapes.{tree_of};
    ghost use Rattle.def_journals.specs.Journals.{begun};
    ghost use Rattle.asp_model.specs.History.{program_history};
    ghost use Rattle.asp_core.specs.Chosen.{DeliversChosen};
    ghost use Rattle.asp_core.specs.Cores.{IsHome, IsRun, history_of};
    ghost use Rattle.asp_core.specs.Plans.{AreByPlan};
    ghost use Rattle.asp_core.specs.Stopping.{AllStopped};

    /// A core whose main activity is in, with the program as its term, and the whole budget.
    pub fn new(
        alloc: Global,
        program: &Checked,
        budget: u64,
        plan: Plan,
        policies: Policies<P>,
    ) -> Result<Core<P>, AllocError>
        ensures begun { let term = tree_of program.now.program.root in
            IfOk result (λ x. IsRun x (begun term budget)) }
        ensures history { let term = tree_of program.now.program.root in
            IfOk result (λ x. history_of x ≡ program_history term budget []) }
        ensures plan { IfOk result (λ x. x.edges.plan ≡ plan) }
        ensures policies { IfOk result (λ x. x.edges.policies ≡ policies) }
        ensures by_plan { IfOk result
            (λ x. AreByPlan P.answer P.asked plan policies x.edges) }
        ensures home { IfOk result IsHome }
        ensures chosen { IfOk result DeliversChosen }
        ensures stopped { IfOk result (λ x. AllStopped (history_of x)) }
    {
        let mut edges = Edges::new(alloc, plan, policies);
        match begin(alloc, program, budget, &mut edges) {
            Ok(begun) => {
                let first = First::program();
                Ok(Core {
                    alloc,
                    code: begun.code,
                    first,
                    budget,
                    state: begun.state,
                    edges,
                    spent: false,
                })
            }
            Err(error) => {
                drop(edges);
                Err(error)
            }
        }
    }

    /// Gives a core up, wherever it stands.
    pub fn discard(self) {
        drop(self);
    }
}

impl<P> Core<P> {
    ghost use Rattle.std.specs.Prelude.{◌≡◌, ◌<◌, Some, false, map, slice_get, true};
    ghost use Rattle.asp_model.specs.Shapes.{entry_shape};
    ghost use Rattle.def_journals.specs.Journals.{RunShape};
    ghost use Rattle.def_journals.specs.Owed.{is_any};
    ghost use Rattle.asp_core.specs.Cores.{
      IsHome,
      IsKept,
      IsRun,
      activities_of,
      entries_of,
      names_of,
    };

    /// How many activities there are.
    pub fn activities(&self) -> usize
        ensures { result ≡ activities_of self.now }
    {
        self.state.activities()
    }

    /// The name of an activity.
    pub fn name(&self, number: u32) -> &ActivityName
        requires kept { IsKept self.now }
        requires fresh { self.now.spent ≡ false }
        requires known { number < activities_of self.now }
        ensures name { slice_get (names_of self.now) number ≡ Some result.now }
    {
        self.state.name(number)
    }

    /// What was lent, committed and delivered, in order.
    pub fn journal(&self) -> &[Entry]
        ensures entries { map entry_shape result.now ≡ entries_of self.now }
    {
        self.state.entries()
    }

    /// Whether a call has answered `AllocError`. Each call that can answer it does so then.
    pub fn is_spent(&self) -> bool
        ensures spent { result ≡ self.now.spent }
    {
        self.spent
    }

    /// Whether nobody is out.
    pub fn is_home(&self) -> bool
        requires kept { IsKept self.now }
        ensures home { result ≡ true → IsHome self.now }
        ensures out { (s : RunShape) → IsRun self.now s → result ≡ false → is_any s.out ≡ true }
    {
        if self.spent {
            return true;
        }
        !self.state.seats.is_any_out()
    }

    /// The edges along which futures went.
    pub fn edges(&self) -> &Edges<P>
        ensures edges { result.now ≡ self.now.edges }
    {
        &self.edges
    }
}
