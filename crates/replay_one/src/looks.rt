//! What the activities do next: whether they step, or what they wait for.

ghost use Rattle.std.specs.Prelude.{◌≡◌, ◌<◌, true, IfOk, None, Some, length};
ghost use Rattle.asp_model.specs.Names.{Name};
ghost use Rattle.asp_model.specs.Term.{Tree};
ghost use Rattle.asp_model.specs.Configuration.{Configuration, From, Poll, log_of};
ghost use Rattle.asp_model.specs.Step.{is_next};
ghost use Rattle.def_journals.specs.Journals.{number_of};
ghost use Rattle.law_steps.specs.Reached.{IsThere};
ghost use Rattle.replay_parts.specs.Bounds.{IsAscending, IsNextAt, IsNumbered, count_within, lists_within};
ghost use Rattle.replay_population.specs.Population.{HasPassedBySome, HasPassedIn, IsFoundAt, IsPopulation};
ghost use Rattle.replay_population.specs.Reached.{IsReachedBySome, IsReachedPopulation};
ghost use Rattle.replay_one.specs.Round.{IsLook, IsTurn};

use asp_model::{ActivityName, FutureName};
use replay_parts::{Bounds, Next, is_from, is_poll};
use replay_population::Population;
use std::alloc::{AllocError, Global};
use step_activity::Outlook;

/// What an activity that is ready does.
#[derive(Clone, Copy)]
pub enum Look<'a> {
    /// It is not there, is at its count, or rests for good.
    Leaves,
    Awaits(&'a FutureName),
    /// No pending request matches its `serve`.
    Serves,
    /// It is not next in the log of the activity with this number: whom it sends to, or itself
    /// where it polls.
    Holds(u32),
    /// It takes a reduction, which sends a request to the activity of this number, if there is one.
    Steps(Option<u32>),
}

/// What an activity does, how many members of a group that it waits for have values, and the number
/// of the request that it serves, where it does.
#[derive(Clone, Copy)]
pub struct View<'a> {
    pub look: Look<'a>,
    pub passed: usize,
    pub found: Option<u64>,
}

/// What the log of an activity may note next.
pub fn next_in<'a>(population: &Population, bounds: &'a Bounds, to: u32) -> Next<'a>
    requires ascending { IsAscending bounds.now }
    requires numbered { IsNumbered bounds.now population.now.roster }
    ensures next { (c : Configuration) (n : Name) → IsPopulation population.now c →
        number_of n population.now.roster ≡ Some to → IsThere c n →
        IsNextAt (lists_within bounds.now) n (length (log_of c n)) result }
{
    match bounds {
        Bounds::Budget(_) => Next::Anything,
        Bounds::Listed(_, _) => bounds.next(to, population.logged(to)),
    }
}

/// Whether a request to an activity may come from this one now.
fn may_come(population: &Population, bounds: &Bounds, to: u32, name: &ActivityName) -> bool
    requires ascending { IsAscending bounds.now }
    requires numbered { IsNumbered bounds.now population.now.roster }
    ensures may { (c : Configuration) (n : Name) → IsPopulation population.now c →
        number_of n population.now.roster ≡ Some to → IsThere c n →
        result ≡ is_next (lists_within bounds.now) c n (From name.now) }
{
    match next_in(population, bounds, to) {
        Next::Anything => true,
        Next::Only(next) => is_from(next, name),
        Next::Nothing => false,
    }
}

/// Whether an activity may poll now.
fn may_poll(population: &Population, bounds: &Bounds, number: u32) -> bool
    requires ascending { IsAscending bounds.now }
    requires numbered { IsNumbered bounds.now population.now.roster }
    ensures may { (c : Configuration) (n : Name) → IsPopulation population.now c →
        number_of n population.now.roster ≡ Some number → IsThere c n →
        result ≡ is_next (lists_within bounds.now) c n Poll }
{
    match next_in(population, bounds, number) {
        Next::Anything => true,
        Next::Only(next) => is_poll(next),
        Next::Nothing => false,
    }
}

/// Where it sends to this activity, or polls as this one, in its turn or out of turn.
fn in_turn<'a>(may: bool, to: u32, target: Option<u32>, passed: usize) -> View<'a>
    ensures passed { result.passed ≡ passed }
    ensures look { IsTurn may to target result.look }
    ensures found { result.found ≡ None }
{
    let look = if may {
        Look::Steps(target)
    } else {
        Look::Holds(to)
    };
    View {
        look,
        passed,
        found: None,
    }
}

/// What an activity does that stands before a redex that needs others, or is at its count. Whom it
/// sends to is mostly the activity of the number `guess`.
pub fn look_at<'a>(
    alloc: Global,
    population: &'a Population,
    bounds: &Bounds,
    number: u32,
    passed: usize,
    guess: u32,
) -> Result<View<'a>, AllocError>
    requires ascending { IsAscending bounds.now }
    requires numbered { IsNumbered bounds.now population.now.roster }
    requires reached { IsReachedBySome population.now }
    requires passed { HasPassedBySome population.now number passed }
    ensures look { (program : Tree) (c : Configuration) (n : Name) →
        IsReachedPopulation population.now program c →
        number_of n population.now.roster ≡ Some number → IfOk result (λ v.
        IsLook (lists_within bounds.now) (count_within bounds.now) c population.now.roster n v.look) }
    ensures passed { (c : Configuration) (n : Name) → IsPopulation population.now c →
        number_of n population.now.roster ≡ Some number →
        IfOk result (λ v. HasPassedIn c n v.passed) }
    ensures found { IfOk result (λ v. IsFoundAt population.now number v.found) }
{
    let Some(actor) = population.get(number) else {
        return Ok(unseen(Look::Leaves));
    };
    if actor.count() >= bounds.count(number) {
        return Ok(unseen(Look::Leaves));
    }
    let seen = actor.outlook_from(alloc, &population.futures, passed)?;
    let passed = seen.passed;
    match seen.outlook {
        Outlook::Steps => Ok(View {
            look: Look::Steps(None),
            passed,
            found: seen.found,
        }),
        Outlook::Sends(name) => {
            let Some(to) = population.roster.number_guessed(name, guess) else {
                unreachable!()
            };
            let may = may_come(population, bounds, to, population.roster.name(number));
            Ok(in_turn(may, to, Some(to), passed))
        }
        Outlook::Polls => {
            let may = may_poll(population, bounds, number);
            Ok(in_turn(may, number, None, passed))
        }
        Outlook::Awaits(future) => Ok(View {
            look: Look::Awaits(future),
            passed,
            found: None,
        }),
        Outlook::Faulted(_) => Ok(View {
            look: Look::Leaves,
            passed,
            found: None,
        }),
        Outlook::Serving => Ok(View {
            look: Look::Serves,
            passed,
            found: None,
        }),
        Outlook::Done => Ok(View {
            look: Look::Leaves,
            passed,
            found: None,
        }),
    }
}

/// No member is known to have a value.
fn unseen(look: Look) -> View
    ensures look { result.look ≡ look.entry }
    ensures passed { result.passed ≡ 0 }
    ensures found { result.found ≡ None }
{
    View {
        look,
        passed: 0,
        found: None,
    }
}
