//! What a run leaves, as data.

ghost use Rattle.std.specs.Prelude.{◌≡◌, cond, map};
ghost use Rattle.std.specs.List.{list_any};
ghost use Rattle.asp_model.specs.Outcome.{exit_status, is_faulted as is_fault};
ghost use Rattle.asp_model.specs.Shapes.{activity_shape, outcome_shape, status_shape};

use crate::{ActivityName, FutureName, Word};

/// Why an activity stopped for good.
#[derive(Clone, Copy, Debug, PartialEq, Eq)]
pub enum Fault {
    /// The object has no field with that label.
    NoField,
    /// The object has no method with that label and that number of parameters.
    NoMethod,
    /// An object was asked for, and another cell stood there.
    NotObject,
    /// A number was asked for, and another cell stood there.
    NotNumber,
    /// A group was asked for, and another cell stood there.
    NotGroup,
    /// The group has no member at that number, or two groups differ in size.
    BadMember,
    /// A field of an activity was asked for.
    ActiveField,
    /// The result of an operator lies outside 64 bits.
    Overflow,
    /// The divisor is 0.
    ZeroDivisor,
}

/// What an activity does at the end of a run.
#[derive(Debug, Drop)]
pub enum Status {
    /// Its term is a place, and no service is suspended.
    Done,
    /// It stands at a `serve` that no pending request matches.
    Serving,
    /// It can step.
    Running,
    /// It needs the value of a future that has none.
    Awaits(FutureName),
    /// It stands at a fault.
    Faulted(Fault),
}

/// How a run ended.
#[derive(Clone, Copy, Debug, PartialEq, Eq)]
pub enum Verdict {
    /// No activity can step, and none awaits a future.
    End,
    /// No activity can step, and some await futures.
    Blocked,
    /// Some activity can step.
    Budget,
}

/// A line of output.
#[derive(Drop)]
pub enum Line {
    Number(i64),
    Text(Word),
}

/// What a log notes.
#[derive(Debug, Drop)]
pub enum Reception {
    /// A request came from this activity.
    From(ActivityName),
    /// The activity asked what is pending.
    Poll,
}

/// One activity at the end of a run.
#[derive(Drop)]
pub struct ActivityReport {
    pub name: ActivityName,
    /// Its reductions.
    pub count: u64,
    pub status: Status,
    /// What it received and asked, in order.
    pub senders: Vec<Reception>,
    /// Its output, in order.
    pub lines: Vec<Line>,
}

/// For each activity its log, in strictly ascending order of names.
#[derive(Drop)]
pub struct Lists {
    pub entries: Vec<(ActivityName, Vec<Reception>)>,
}

/// For each activity the number of its reductions, in strictly ascending order of names.
#[derive(Drop)]
pub struct Counts {
    pub entries: Vec<(ActivityName, u64)>,
}

/// A run at its end: the activities in ascending order of names.
#[derive(Drop)]
pub struct Outcome {
    pub verdict: Verdict,
    pub activities: Vec<ActivityReport>,
}

fn is_faulted(status: &Status) -> bool
    ensures { result ≡ is_fault (status_shape status.now) }
{
    matches!(status, Status::Faulted(_))
}

/// The exit status of a run with this outcome.
pub fn exit_number(outcome: &Outcome) -> u8
    ensures status { result ≡ exit_status (outcome_shape outcome.now) }
{
    match outcome.verdict {
        Verdict::Blocked => 4,
        Verdict::Budget => 5,
        Verdict::End => end_number(&outcome.activities),
    }
}

#[tactic(auto, using(crate::proofs::Mapped::list_any_map))]
fn end_number(activities: &[ActivityReport]) -> u8
    ensures { result ≡ cond (list_any (λ a. is_fault a.status) (map activity_shape activities.now)) 1 0 }
{
    u8::from(any_fault(activities))
}

fn any_fault(activities: &[ActivityReport]) -> bool
    ensures { result ≡ list_any (λ a. is_fault (status_shape a.status)) activities.now }
{
    activities
        .iter()
        .any(|activity| is_faulted(&activity.status))
}
