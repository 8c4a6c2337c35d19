//! Why an activity rests where nobody can go on.

ghost use Rattle.std.specs.Prelude.{◌≡◌, ℕ, List, None, Option, Some, slice_get};
ghost use Rattle.std.specs.Option.{option_copied};
ghost use Rattle.asp_model.specs.Names.{Name};
ghost use Rattle.asp_model.specs.Configuration.{Configuration};
ghost use Rattle.asp_model.specs.Status.{IsStuck};
ghost use Rattle.law_steps.specs.Sound.{IsSound};
ghost use Rattle.law_waits.specs.Courses.{ComesTo};
ghost use Rattle.law_waits.specs.Waits.{waited};
ghost use Rattle.wait_circles.specs.declared.ways.Circle.{Circle};
ghost use Rattle.wait_circles.specs.Ways.{AreCircles, IsEnd};
ghost use Rattle.wait_circles.specs.Whys.{AreOf, AreOnce, AreWaits, IsToldWhy, names_of};

use crate::ways::End;
use asp_model::{ActivityReport, Status};

/// Why an activity rests: what its waits lead to. Activities and circles are told by numbers.
#[derive(Clone, Copy)]
pub enum Why {
    /// To this circle of activities, of which each waits for the next.
    Round(usize),
    /// To this one, who has ended.
    Ended(usize),
    /// To this one, who stands at a fault.
    Faulted(usize),
    /// To this one, who is at a `serve` that no pending request matches.
    Unserved(usize),
    /// To this one, who awaits a future from which values lead from future to future in a circle.
    Values(usize),
}

fn activity_at(activities: &[ActivityReport], number: usize) -> Option<&ActivityReport>
    ensures { option_copied result ≡ slice_get activities.now number }
{
    activities.get(number)
}

// Why the last one on a way rests.
fn why_last(activities: &[ActivityReport], last: usize) -> Option<Why>
    ensures { (c : Configuration) (zs : List Circle) (n m : Name) → IsSound c → IsStuck c →
        AreOf c activities.now → slice_get (names_of activities.now) last ≡ Some m →
        ComesTo (waited c) n m → waited c m ≡ None →
        IsToldWhy c (names_of activities.now) zs n result }
{
    match activity_at(activities, last) {
        None => None,
        Some(activity) => match &activity.status {
            Status::Done => Some(Why::Ended(last)),
            Status::Serving => Some(Why::Unserved(last)),
            Status::Running => None,
            Status::Awaits(_) => Some(Why::Values(last)),
            Status::Faulted(_) => Some(Why::Faulted(last)),
        },
    }
}

/// Why an activity rests whose way has this end. It is told of each activity where nobody can go
/// on, and the cause holds.
pub fn why_of(activities: &[ActivityReport], end: End) -> Option<Why>
    ensures { (c : Configuration) (ns : List (Option ℕ)) (zs : List Circle) (i : ℕ) (n : Name) →
        IsSound c → IsStuck c → AreOf c activities.now → AreOnce (names_of activities.now) →
        AreWaits c ns (names_of activities.now) → AreCircles ns zs →
        slice_get (names_of activities.now) i ≡ Some n → IsEnd ns zs i end →
        IsToldWhy c (names_of activities.now) zs n result }
{
    match end {
        End::Round(circle) => Some(Why::Round(circle)),
        End::Last(last) => why_last(activities, last),
    }
}
