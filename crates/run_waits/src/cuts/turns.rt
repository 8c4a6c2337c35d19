//! What an activity does next under given logs, or whom it needs first.

ghost use Rattle.std.specs.Prelude.{◌≡◌, ◌<◌, IfOk, Some, T, length};
ghost use Rattle.std.specs.FinMap.{is_sorted};
ghost use Rattle.asp_model.specs.Configuration.{Configuration, ReceptionShape};
ghost use Rattle.asp_model.specs.Intent.{Awaits};
ghost use Rattle.asp_model.specs.Names.{Name, name_cmp};
ghost use Rattle.asp_model.specs.Shapes.{future_shape, lists_shape};
ghost use Rattle.asp_model.specs.Status.{status_of};
ghost use Rattle.asp_model.specs.Step.{is_next};
ghost use Rattle.asp_model.specs.Term.{Tree};
ghost use Rattle.def_journals.specs.Journals.{number_of};
ghost use Rattle.law_cuts.specs.Wants.{creator_of as creator_shown, next_enterer};
ghost use Rattle.law_steps.specs.Reached.{IsThere};
ghost use Rattle.law_steps.specs.Sound.{IsSound};
ghost use Rattle.law_waits.specs.Waits.{waited};
ghost use Rattle.replay_population.specs.Population.{IsKnown, IsPopulation};
ghost use Rattle.replay_population.specs.Reached.{IsReachedBySome, IsReachedPopulation};
ghost use Rattle.replay_parts.specs.Roster.{Leads};
ghost use Rattle.run_waits.specs.Targets.{AreTold};
ghost use Rattle.wait_circles.specs.Entries.{name_lent};
ghost use Rattle.run_waits.specs.Entries.{names_in};
ghost use Rattle.run_waits.specs.Turns.{IsEntering, IsTurn, IsWanted};

use crate::cuts::entries::{creator_of, next_entry};
use crate::receipts::Receipts;
use asp_model::{ActivityName, FutureName, Lists};
use replay_population::{Population, Roster};
use std::alloc::{AllocError, Global};
use step_parts::Outlook;
use wait_circles::{enterer_of, is_from, is_poll};

/// What an activity does next.
#[derive(Clone, Copy)]
pub enum Turn {
    /// It takes a reduction.
    Steps,
    /// It cannot, before the activity of this number has taken one.
    Wants(Option<u32>),
}

/// The number of whom it needs.
fn number_in(roster: &Roster, name: Option<&ActivityName>) -> Option<u32>
    ensures { IsWanted (name_lent name.entry) roster.now result }
{
    match name {
        Some(name) => roster.number(name),
        None => None,
    }
}

/// The number of the creator of an activity.
fn creator(alloc: Global, roster: &Roster, number: u32) -> Result<Option<u32>, AllocError>
    requires known { number < length roster.now }
    ensures creator { (n : Name) → number_of n roster.now ≡ Some number →
        IfOk result (λ o. o ≡ number_of (creator_shown n) roster.now) }
{
    let name = creator_of(alloc, roster.name(number))?;
    Ok(roster.number(&name))
}

/// Who has to answer the future that an activity awaits.
fn receiver(roster: &Roster, receipts: &Receipts, future: &FutureName) -> Option<u32>
    ensures receiver { (c : Configuration) (n : Name) → IsSound c → AreTold c receipts.now →
        status_of c n ≡ Awaits (future_shape future.now) →
        IsWanted (waited c n) roster.now result }
{
    match receipts.target(future) {
        Some(target) => roster.number(&target.to),
        None => None,
    }
}

/// Who enters something next in the log of an activity.
fn next_number(population: &Population, lists: &Lists, to: u32) -> Option<u32>
    requires ascending { T (is_sorted name_cmp lists.now.entries.items) }
    requires numbered { Leads (names_in lists.now) population.now.roster }
    requires known { IsKnown population.now to }
    ensures next { (c : Configuration) (n : Name) → IsPopulation population.now c →
        number_of n population.now.roster ≡ Some to → IsThere c n →
        IsWanted (next_enterer (lists_shape lists.now) c n) population.now.roster result }
{
    let entry = next_entry(population, lists, to);
    number_in(
        &population.roster,
        enterer_of(entry, population.roster.name(to)),
    )
}

/// One that enters something in a log steps if that is next there.
fn entering(population: &Population, lists: &Lists, to: u32, may: bool) -> Turn
    requires ascending { T (is_sorted name_cmp lists.now.entries.items) }
    requires numbered { Leads (names_in lists.now) population.now.roster }
    requires known { IsKnown population.now to }
    ensures turn { (c : Configuration) (n m : Name) (x : ReceptionShape) →
        IsPopulation population.now c → number_of m population.now.roster ≡ Some to →
        IsEntering c n m x → may ≡ is_next (Some (lists_shape lists.now)) c m x →
        IsTurn (lists_shape lists.now) c population.now.roster n result }
{
    if may {
        Turn::Steps
    } else {
        Turn::Wants(next_number(population, lists, to))
    }
}

/// What an activity does next that was run.
pub fn turn_of(
    alloc: Global,
    population: &Population,
    lists: &Lists,
    receipts: &Receipts,
    number: u32,
) -> Result<Turn, AllocError>
    requires ascending { T (is_sorted name_cmp lists.now.entries.items) }
    requires numbered { Leads (names_in lists.now) population.now.roster }
    requires reached { IsReachedBySome population.now }
    requires known { IsKnown population.now number }
    ensures turn { (program : Tree) (c : Configuration) (n : Name) →
        IsReachedPopulation population.now program c → AreTold c receipts.now →
        number_of n population.now.roster ≡ Some number →
        IfOk result (IsTurn (lists_shape lists.now) c population.now.roster n) }
{
    let roster = &population.roster;
    let Some(_) = population.get(number) else {
        return Ok(Turn::Wants(creator(alloc, roster, number)?));
    };
    match population.outlook(alloc, number)? {
        Outlook::Steps => Ok(Turn::Steps),
        Outlook::Sends(target) => {
            let Some(to) = roster.number(target) else {
                unreachable!()
            };
            let may = is_from(next_entry(population, lists, to), roster.name(number));
            Ok(entering(population, lists, to, may))
        }
        Outlook::Polls => {
            let may = is_poll(next_entry(population, lists, number));
            Ok(entering(population, lists, number, may))
        }
        Outlook::Awaits(future) => Ok(Turn::Wants(receiver(roster, receipts, future))),
        Outlook::Serving => Ok(Turn::Wants(next_number(population, lists, number))),
        Outlook::Faulted(_) => Ok(Turn::Wants(None)),
        Outlook::Done => Ok(Turn::Wants(None)),
    }
}
