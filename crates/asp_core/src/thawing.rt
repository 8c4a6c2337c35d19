//! A core that goes on from a configuration.

ghost use Rattle.std.specs.Prelude.{◌≡◌, [], IfOk, OnOk, Some};
ghost use Rattle.std.specs.Arc.{arc_value};
ghost use Rattle.asp_model.specs.History.{FirstShape};
ghost use Rattle.asp_model.specs.Term.{locations};
ghost use Rattle.def_journals.specs.Edges.{no_holders};
ghost use Rattle.def_journals.specs.Journals.{run_from};
ghost use Rattle.core_state.specs.Cores.{IsCore, program_of};
ghost use Rattle.core_thaws.specs.Telling.{BeginWith};
ghost use Rattle.core_thaws.specs.Thawed.{resumed_history};
ghost use Rattle.asp_core.specs.Chosen.{DeliversChosen};
ghost use Rattle.asp_core.specs.Cores.{IsHome, IsRun, history_of};
ghost use Rattle.asp_core.specs.Plans.{AreByPlan};
ghost use Rattle.asp_core.specs.Stopping.{AllStopped};
ghost use Rattle.asp_core.specs.Thawing.{BeginsIn, MayBegin, MayBeginSomewhere};

use crate::cores::Core;
use crate::first::First;
use crate::freezing::Frozen;
use code_table::Code;
use core_edges::Edges;
use core_state::CoreState;
use core_thaws::{tell, thawed};
use std::alloc::{AllocError, Global};
use std::sync::Arc;
use update_policy::{Plan, Policies, UpdatePolicy};

/// The code and the state of a core that goes on.
#[derive(Drop)]
struct Resumed {
    code: Arc<Code>,
    state: CoreState,
}

/// The state in which a run goes on, of which edges that know nothing are told.
fn resume<P: UpdatePolicy>(
    alloc: Global,
    frozen: Frozen,
    budget: u64,
    edges: &mut Edges<P>,
) -> Result<Resumed, AllocError>
    requires first { MayBeginSomewhere frozen budget }
    requires none { edges.old.holders.holders ≡ no_holders }
    requires unanswered { edges.old.holders.answers ≡ [] }
    requires nobody { edges.old.holders.activities ≡ [] }
    ensures code { IfOk result (λ r. arc_value r.code ≡ arc_value frozen.code) }
    ensures core { (x : FirstShape) → MayBegin frozen x budget →
        let code = arc_value frozen.code in
        let history = resumed_history (program_of code) x budget in
        IfOk result (λ r. IsCore history code r.state (run_from x budget)) }
    ensures begin { (x : FirstShape) → MayBegin frozen x budget →
        OnOk result (BeginWith x.configuration frozen.activities.items edges.old edges.new) }
{
    let Frozen {
        code,
        homes,
        futures,
        activities,
    } = frozen;
    match tell(edges, &activities, &homes, &futures) {
        Ok(()) => {
            drop(homes);
            match thawed(alloc, activities, futures, budget) {
                Ok(state) => Ok(Resumed { code, state }),
                Err(error) => {
                    drop(code);
                    Err(error)
                }
            }
        }
        Err(error) => {
            drop(code);
            drop(homes);
            drop(futures);
            drop(activities);
            Err(error)
        }
    }
}

impl<P: UpdatePolicy + Drop> Core<P> {
    /// A core that goes on where another was taken apart, or a checkpoint was read, with this
    /// budget. All are in. Its history begins there. Futures that began before have the usual
    /// strategy of the plan.
    pub fn thaw(
        alloc: Global,
        frozen: Frozen,
        first: First,
        budget: u64,
        plan: Plan,
        policies: Policies<P>,
    ) -> Result<Core<P>, AllocError>
        requires first { BeginsIn frozen first budget }
        requires bare { locations (program_of (arc_value frozen.code)) ≡ [] }
        ensures run { (x : FirstShape) → first.shape ≡ Some x →
            IfOk result (λ c. IsRun c (run_from x budget)) }
        ensures history { (x : FirstShape) → first.shape ≡ Some x →
            let program = program_of (arc_value frozen.code) in
            IfOk result (λ c. history_of c ≡ resumed_history program x budget) }
        ensures plan { IfOk result (λ c. c.edges.plan ≡ plan) }
        ensures policies { IfOk result (λ c. c.edges.policies ≡ policies) }
        ensures by_plan { IfOk result
            (λ c. AreByPlan P.answer P.asked plan policies c.edges) }
        ensures home { IfOk result IsHome }
        ensures chosen { IfOk result DeliversChosen }
        ensures stopped { IfOk result (λ c. AllStopped (history_of c)) }
    {
        let mut edges = Edges::new(alloc, plan, policies);
        match resume(alloc, frozen, budget, &mut edges) {
            Ok(resumed) => Ok(Core {
                alloc,
                code: resumed.code,
                first,
                budget,
                state: resumed.state,
                edges,
                spent: false,
            }),
            Err(error) => {
                drop(edges);
                Err(error)
            }
        }
    }
}
