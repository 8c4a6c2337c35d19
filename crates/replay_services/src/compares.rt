//! What services can tell of two replays.

ghost use Rattle.std.specs.Prelude.{◌≡◌};
ghost use Rattle.asp_model.specs.Status.{Budget};
ghost use Rattle.asp_model.specs.Shapes.{services_shape, verdict_shape};
ghost use Rattle.asp_model.specs.Step.{ListsShape};
ghost use Rattle.asp_model.specs.Replay.{CountsShape};
ghost use Rattle.asp_model.specs.Term.{Tree};
ghost use Rattle.law_services.specs.Told.{NamesAscend};
ghost use Rattle.replay_services.specs.Compares.{IsServicesRun, Tells, is_budget};

use crate::replays::ServicesRun;
use asp_model::{ActivityName, Outcome, Verdict};
use determinacy::first_difference;

/// What services can tell of two replays of a program.
#[derive(Clone, Copy, Debug)]
pub enum Comparison<'a> {
    /// Both ended, and nothing: they agree in all but the logs.
    Same,
    /// Both ended, and this is the least-named activity that polled, or of which a service of the
    /// first finds requests in another order in the second.
    Differ(&'a ActivityName),
    /// One of them can go on.
    Unended,
}

fn is_unended(outcome: &Outcome) -> bool
    ensures { result ≡ is_budget (verdict_shape outcome.now.verdict) }
{
    matches!(outcome.verdict, Verdict::Budget)
}

/// Compares two replays of a program by what their services could take.
pub fn compare<'a>(run: &'a ServicesRun, other: &'a ServicesRun) -> Comparison<'a>
    requires ascending { NamesAscend (services_shape run.now.services) }
    requires ascending_too { NamesAscend (services_shape other.now.services) }
    ensures tells { (program : Tree) (lists others : ListsShape)
        (counts other_counts : CountsShape) →
        IsServicesRun run.now program lists counts →
        IsServicesRun other.now program others other_counts →
        Tells result program lists counts others other_counts }
{
    if is_unended(&run.outcome) || is_unended(&other.outcome) {
        return Comparison::Unended;
    }
    match first_difference(&run.services, &other.services) {
        None => Comparison::Same,
        Some(name) => Comparison::Differ(name),
    }
}
