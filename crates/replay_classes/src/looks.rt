//! What an activity does next.

ghost use Rattle.std.specs.Prelude.{◌≡◌, IfOk, Some};
ghost use Rattle.asp_model.specs.Configuration.{Configuration};
ghost use Rattle.asp_model.specs.Names.{Name};
ghost use Rattle.asp_model.specs.Step.{intent_in};
ghost use Rattle.def_journals.specs.Journals.{number_of};
ghost use Rattle.replay_population.specs.Population.{IsClosedBySome, IsKnown, IsPopulation};
ghost use Rattle.replay_classes.specs.Looks.{IsLook};

use asp_model::ActivityName;
use replay_population::Population;
use std::alloc::{AllocError, Global};
use step_parts::Outlook;

/// What an activity does next.
#[derive(Drop)]
pub enum Look {
    /// A reduction that sends nothing and does not ask what is pending.
    Steps,
    /// It sends a request to this activity.
    Sends(ActivityName),
    /// It asks what is pending.
    Polls,
    Rests,
}

/// What the activity of a number does next.
pub fn look_at(alloc: Global, population: &Population, number: u32) -> Result<Look, AllocError>
    requires closed { IsClosedBySome population.now }
    requires known { IsKnown population.now number }
    ensures look { (c : Configuration) (n : Name) → IsPopulation population.now c →
        number_of n population.now.roster ≡ Some number →
        IfOk result (IsLook n (intent_in c n)) }
{
    match population.outlook(alloc, number)? {
        Outlook::Steps => Ok(Look::Steps),
        Outlook::Sends(to) => Ok(Look::Sends(to.copy(alloc)?)),
        Outlook::Polls => Ok(Look::Polls),
        Outlook::Awaits(_) | Outlook::Faulted(_) | Outlook::Serving | Outlook::Done => {
            Ok(Look::Rests)
        }
    }
}
