//! What a run leaves: how each activity stands, its state, and the verdict.

ghost use Rattle.std.specs.Prelude.{◌≡◌, ◌<◌, List, IfOk, length, map};
ghost use Rattle.std.specs.Arc.{arc_value};
ghost use Rattle.std.specs.List.{list_any};
ghost use Rattle.asp_model.specs.Names.{Name};
ghost use Rattle.asp_model.specs.Chase.{chase};
ghost use Rattle.asp_model.specs.Configuration as model;
ghost use Rattle.asp_model.specs.Configuration.{Configuration, RequestShape};
ghost use Rattle.asp_model.specs.Intent.{intent};
ghost use Rattle.asp_model.specs.Status.{
  is_awaiting,
  is_running,
  status_of_intent,
  verdict_among as verdict_of,
};
ghost use Rattle.asp_model.specs.Outcome.{outcome_of as outcome_shown};
ghost use Rattle.asp_model.specs.Shapes.{outcome_shape, status_shape, verdict_shape};
ghost use Rattle.future_table.specs.Values.{values_of};
ghost use Rattle.step_reads.specs.Values.{AreClosedValues};
ghost use Rattle.step_activity.specs.Actors.{IsClosedFor, Stands, code_of, log_in};
ghost use Rattle.def_paths.specs.Outcomes.{EndShape, whole_outcome_of};
ghost use Rattle.code_table.specs.declared.code.Node.{Node as NodeShape};
ghost use Rattle.run_ends.specs.Ends.{IsEndOf};
ghost use Rattle.step_ends.specs.Activities.{RunCode, StandForSome, StandForSound};
ghost use Rattle.step_ends.specs.Ends.{AreClosedStates, AreEndsBy, AreEndsFor, IsEndBy, end_with};

use asp_model::{ActivityName, ActivityReport, Outcome, Status, Verdict};
use code_table::Code;
use future_table::FutureTable;
use run_ends::{EndState, RunEnd};
use std::alloc::{AllocError, Global};
use std::collections::BTreeMap;
use std::sync::Arc;
use step_activity::{Actor, Outlook};

/// The status of an activity that has settled.
fn status_of(alloc: Global, actor: &Actor, futures: &FutureTable) -> Result<Status, AllocError>
    requires closed { IsClosedFor actor.now }
    requires values { AreClosedValues (values_of futures.now) }
    ensures status { (a : model.Activity) (rs : List RequestShape) (n : Name) →
        Stands actor.now a rs →
        let intended = intent (chase (values_of futures.now)) rs n a in
        IfOk result (λ s. status_shape s ≡ status_of_intent intended) }
{
    match actor.outlook(alloc, futures)? {
        Outlook::Steps | Outlook::Sends(_) | Outlook::Polls => Ok(Status::Running),
        Outlook::Awaits(future) => Ok(Status::Awaits(future.copy(alloc)?)),
        Outlook::Faulted(fault) => Ok(Status::Faulted(fault)),
        Outlook::Serving => Ok(Status::Serving),
        Outlook::Done => Ok(Status::Done),
    }
}

fn end_of(
    alloc: Global,
    name: ActivityName,
    mut actor: Box<Actor>,
    futures: &FutureTable,
) -> Result<(ActivityReport, EndState), AllocError>
    requires closed { IsClosedFor actor.value }
    requires values { AreClosedValues (values_of futures.now) }
    ensures end { (a : model.Activity) (rs : List RequestShape) → Stands actor.value a rs →
        let end = end_with (values_of futures.now) name a rs (log_in actor.value) in
        IfOk result (IsEndBy (code_of actor.value) end) }
{
    let here = actor.as_mut();
    here.settle()?;
    let status = status_of(alloc, here, futures)?;
    Ok(Box::into_inner(actor).into_end(name, status))
}

/// The ends of so many activities, in ascending order of names.
fn ends_of(
    alloc: Global,
    count: usize,
    activities: BTreeMap<ActivityName, Box<Actor>>,
    futures: &FutureTable,
) -> Result<(Vec<ActivityReport>, Vec<EndState>), AllocError>
    requires closed { AreClosedStates activities.entries }
    requires values { AreClosedValues (values_of futures.now) }
    ensures ends { (k : List NodeShape) (es : List EndShape) →
        AreEndsFor k (values_of futures.now) activities.entries es →
        IfOk result (λ r. AreEndsBy k r.0.items r.1.items es) }
{
    let mut reports = Vec::with_capacity(alloc, count)?;
    let mut states = Vec::with_capacity(alloc, count)?;
    for (name, actor) in activities {
        let (report, state) = end_of(alloc, name, actor, futures)?;
        reports.push(report)?;
        states.push(state)?;
    }
    Ok((reports, states))
}

fn is_runner(report: &ActivityReport) -> bool
    ensures { result ≡ is_running (status_shape report.now.status) }
{
    matches!(report.status, Status::Running)
}

fn is_waiter(report: &ActivityReport) -> bool
    ensures { result ≡ is_awaiting (status_shape report.now.status) }
{
    matches!(report.status, Status::Awaits(_))
}

fn some_runs(reports: &[ActivityReport]) -> bool
    ensures { result ≡ list_any (λ a. is_running (status_shape a.status)) reports.now }
{
    reports.iter().any(is_runner)
}

fn some_awaits(reports: &[ActivityReport]) -> bool
    ensures { result ≡ list_any (λ a. is_awaiting (status_shape a.status)) reports.now }
{
    reports.iter().any(is_waiter)
}

#[tactic(auto, using(crate::proofs::ReportLemmas::list_any_map))]
fn verdict_among(reports: &[ActivityReport]) -> Verdict
    ensures { verdict_shape result ≡ verdict_of (map (λ a. status_shape a.status) reports.now) }
{
    if some_runs(reports) {
        return Verdict::Budget;
    }
    if some_awaits(reports) {
        return Verdict::Blocked;
    }
    Verdict::End
}

/// The code that the activities run.
fn code_of_all(activities: &BTreeMap<ActivityName, Box<Actor>>) -> Result<Arc<Code>, AllocError>
    requires some { 0 < length activities.now.entries }
    ensures code { (k : List NodeShape) → RunCode k activities.now.entries →
        IfOk result (λ c. arc_value c ≡ k) }
{
    match activities.first_key_value() {
        Some((_name, actor)) => Arc::try_clone(actor.as_ref().code()),
        None => unreachable!(),
    }
}

/// What activities and filled futures of a run leave: each activity's report and state, and the
/// verdict.
pub fn run_end_of(
    alloc: Global,
    activities: BTreeMap<ActivityName, Box<Actor>>,
    futures: FutureTable,
) -> Result<RunEnd, AllocError>
    requires sound { StandForSome activities.entries futures }
    ensures end { (c : Configuration) → StandForSound activities.entries futures c →
        IfOk result (λ r. IsEndOf r (whole_outcome_of c)) }
    ensures outcome { (c : Configuration) → StandForSound activities.entries futures c →
        IfOk result (λ r. outcome_shape r.outcome ≡ outcome_shown c) }
{
    let count = activities.len();
    let code = code_of_all(&activities)?;
    let (reports, states) = ends_of(alloc, count, activities, &futures)?;
    let outcome = Outcome {
        verdict: verdict_among(&reports),
        activities: reports,
    };
    Ok(RunEnd {
        outcome,
        states,
        futures,
        code,
    })
}
