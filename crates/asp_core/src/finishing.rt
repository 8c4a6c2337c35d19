//! A core that is run on one thread until its verdict is there.

ghost use Rattle.std.specs.Prelude.{◌≡◌, ◌<◌, ◌≤◌, IfOk, None, OnOk, false};
ghost use Rattle.asp_model.specs.History.{BeginsWith};
ghost use Rattle.asp_model.specs.Shapes.{tree_of};
ghost use Rattle.asp_model.specs.declared.limits.TheConstants.{MOST_REDUCTIONS};
ghost use Rattle.core_state.specs.Leases.{IsLease};
ghost use Rattle.asp_core.specs.EndOfRun.{IsEndOfHistory, IsEndOfRun};
ghost use Rattle.asp_core.specs.Chosen.{StaysChosen};
ghost use Rattle.asp_core.specs.Cores.{IsHome, IsKept, activities_of, code_of, history_of};
ghost use Rattle.asp_core.specs.Plans.{StayByPlan};
ghost use Rattle.asp_core.specs.Stopping.{HasStoppedOr, StaysStopped};
ghost use Rattle.asp_core.specs.Over.{HasNothingToDo, IsHomeBut, IsOver, MayBeLent};
ghost use Rattle.asp_core.specs.PlannedEnds.{IsEndAsChosen, IsEndAsPlanned, IsEndByChoice, IsEndByPlan};

use crate::cores::Core;
use asp_check::Checked;
use core_state::Lease;
use run_ends::RunEnd;
use std::alloc::{AllocError, Global};
use update_policy::{Plan, Policies, UpdatePolicy};

/// The most rounds of a run: more than any run can take.
const MOST_ROUNDS: u64 = u64::MAX;

/// Lends an activity that is ready, has it run, and commits what it did.
fn work<P: UpdatePolicy>(core: &mut Core<P>, number: u32) -> Result<(), AllocError>
    requires kept { IsKept core.old }
    requires known { number < activities_of core.old }
    requires ready { MayBeLent core.old number }
    requires home { IsHome core.old }
    ensures kept { IsKept core.new }
    ensures home { OnOk result (IsHome core.new) }
    ensures begins { OnOk result (BeginsWith (history_of core.new) (history_of core.old)) }
    ensures code { OnOk result (code_of core.new ≡ code_of core.old) }
    ensures by_plan { OnOk result (StayByPlan P.answer P.asked core.old.edges core.new.edges) }
    ensures chosen { OnOk result (StaysChosen core.old core.new) }
    ensures stopped { OnOk result (StaysStopped (history_of core.old) (history_of core.new)) }
{
    let Some(mut lease) = core.lend(number) else {
        unreachable!()
    };
    // A lease that is spent comes back too: the core is spent then.
    let _ran = lease.run();
    bring_back(core, lease)
}

/// Commits a lease that has stopped, if nobody else is out.
fn bring_back<P: UpdatePolicy>(core: &mut Core<P>, lease: Lease) -> Result<(), AllocError>
    requires kept { IsKept core.old }
    requires lease { IsLease (history_of core.old) (code_of core.old) lease }
    requires stopped { HasStoppedOr (history_of core.old) (code_of core.old) lease }
    requires alone { IsHomeBut core.old lease.number }
    ensures kept { IsKept core.new }
    ensures home { OnOk result (IsHome core.new) }
    ensures begins { BeginsWith (history_of core.new) (history_of core.old) }
    ensures code { code_of core.new ≡ code_of core.old }
    ensures by_plan { OnOk result (StayByPlan P.answer P.asked core.old.edges core.new.edges) }
    ensures chosen { OnOk result (StaysChosen core.old core.new) }
    ensures stopped { OnOk result (StaysStopped (history_of core.old) (history_of core.new)) }
{
    core.commit(lease)
}

/// Delivers the value that is owed next, or else has the next activity work that can. It returns
/// whether there was one.
fn advance<P: UpdatePolicy>(core: &mut Core<P>) -> Result<bool, AllocError>
    requires kept { IsKept core.old }
    requires home { IsHome core.old }
    ensures kept { IsKept core.new }
    ensures home { OnOk result (IsHome core.new) }
    ensures still { IfOk result (λ more. more ≡ false → HasNothingToDo core.new) }
    ensures begins { OnOk result (BeginsWith (history_of core.new) (history_of core.old)) }
    ensures code { OnOk result (code_of core.new ≡ code_of core.old) }
    ensures by_plan { OnOk result (StayByPlan P.answer P.asked core.old.edges core.new.edges) }
    ensures chosen { OnOk result (StaysChosen core.old core.new) }
    ensures stopped { OnOk result (StaysStopped (history_of core.old) (history_of core.new)) }
{
    if let Some(delivery) = core.next_owed()? {
        core.deliver(&delivery)?;
        return Ok(true);
    }
    match core.next_ready() {
        Some(number) => {
            work(core, number)?;
            Ok(true)
        }
        None => Ok(false),
    }
}

/// Advances until nothing is left to do: the verdict is there then.
fn go_on<P: UpdatePolicy + Drop>(core: &mut Core<P>) -> Result<(), AllocError>
    requires kept { IsKept core.old }
    requires home { IsHome core.old }
    ensures over { OnOk result (IsOver core.new) }
    ensures begins { OnOk result (BeginsWith (history_of core.new) (history_of core.old)) }
    ensures code { OnOk result (code_of core.new ≡ code_of core.old) }
    ensures by_plan { OnOk result (StayByPlan P.answer P.asked core.old.edges core.new.edges) }
    ensures chosen { OnOk result (StaysChosen core.old core.new) }
    ensures stopped { OnOk result (StaysStopped (history_of core.old) (history_of core.new)) }
{
    for _round in 0..MOST_ROUNDS {
        if !advance(core)? {
            return Ok(());
        }
    }
    Err(AllocError)
}

/// Delivers what is owed, and lends, runs and commits, until the verdict is there. Nobody may be
/// out. `AllocError` says that memory ran out, or that `MOST_ROUNDS` were not enough.
pub fn finish<P: UpdatePolicy + Drop>(mut core: Core<P>) -> Result<Core<P>, AllocError>
    requires kept { IsKept core }
    requires home { IsHome core }
    ensures over { IfOk result IsOver }
    ensures begins { IfOk result (λ x. BeginsWith (history_of x) (history_of core)) }
    ensures code { IfOk result (λ x. code_of x ≡ code_of core) }
    ensures by_plan { IfOk result (λ x. StayByPlan P.answer P.asked core.edges x.edges) }
    ensures chosen { IfOk result (λ x. StaysChosen core x) }
    ensures stopped { IfOk result (λ x. StaysStopped (history_of core) (history_of x)) }
{
    match go_on(&mut core) {
        Ok(()) => Ok(core),
        Err(error) => {
            core.discard();
            Err(error)
        }
    }
}

/// The end of the run of a core whose verdict is there, wherever that began.
pub fn end_of_run<P: UpdatePolicy + Drop>(core: Core<P>) -> Result<RunEnd, AllocError>
    requires over { IsOver core }
    ensures told { IfOk result (IsEndOfHistory (history_of core)) }
    // Of a run that began with its program:
    ensures end { let h = history_of core in
        h.first ≡ None → IfOk result (IsEndOfRun h.program h.budget) }
    ensures by_plan { IsEndAsPlanned P.answer P.asked core result }
    ensures chosen { IsEndAsChosen P.answer P.asked core result }
{
    core.outcome()
}

/// Runs a program on one thread, until its verdict is there.
pub fn run<P: UpdatePolicy + Drop>(
    alloc: Global,
    program: &Checked,
    budget: u64,
    plan: Plan,
    policies: Policies<P>,
) -> Result<RunEnd, AllocError>
    requires within { budget ≤ MOST_REDUCTIONS }
    ensures end { IfOk result (IsEndOfRun (tree_of program.now.program.root) budget) }
    ensures by_plan { let term = tree_of program.now.program.root in
        IfOk result (IsEndByPlan P.answer P.asked plan policies term budget) }
    ensures chosen { let term = tree_of program.now.program.root in
        IfOk result (IsEndByChoice P.answer P.asked plan policies term budget) }
{
    let begun = Core::new(alloc, program, budget, plan, policies)?;
    let core = finish(begun)?;
    end_of_run(core)
}
