//! What could be entered in a log next.

ghost use Rattle.std.specs.Prelude.{◌≡◌, IfOk, OnOk, Some};
ghost use Rattle.asp_model.specs.Configuration.{Configuration, From, Poll, ReceptionShape};
ghost use Rattle.asp_model.specs.Names.{Name};
ghost use Rattle.asp_model.specs.Term.{Tree};
ghost use Rattle.def_journals.specs.Journals.{number_of};
ghost use Rattle.law_families.specs.Complete.{IntendsToLog};
ghost use Rattle.replay_population.specs.Population.{IsClosedBySome, IsKnown, IsPopulation};
ghost use Rattle.replay_population.specs.Reached.{IsReachedBySome, IsReachedPopulation};
ghost use Rattle.replay_offers.specs.Entries.{HasNext, IsEntry, with_some};

use asp_model::{ActivityName, Reception};
use replay_population::Population;
use std::alloc::{AllocError, Global};
use step_parts::Outlook;

/// What an activity enters that sends to another, if that is this one.
fn sent(
    alloc: Global,
    name: &ActivityName,
    target: &ActivityName,
    to: &ActivityName,
) -> Result<Option<Reception>, AllocError>
    ensures sent { to.now ≡ target.now → IfOk result (IsEntry (From name.now)) }
{
    if *to == *target {
        Ok(Some(Reception::From(name.copy(alloc)?)))
    } else {
        Ok(None)
    }
}

/// What it enters that polls, if it is this one.
fn polled(name: &ActivityName, to: &ActivityName) -> Option<Reception>
    ensures polled { to.now ≡ name.now → IsEntry Poll result }
{
    if *to == *name {
        Some(Reception::Poll)
    } else {
        None
    }
}

/// What the activity of a number enters next in a log, if it enters something there.
fn next_of(
    alloc: Global,
    population: &Population,
    number: u32,
    to: &ActivityName,
) -> Result<Option<Reception>, AllocError>
    requires closed { IsClosedBySome population.now }
    requires known { IsKnown population.now number }
    ensures next { (c : Configuration) (n : Name) (entry : ReceptionShape) →
        IsPopulation population.now c → number_of n population.now.roster ≡ Some number →
        IntendsToLog c n to.now entry → IfOk result (IsEntry entry) }
{
    let name = population.roster.name(number);
    match population.outlook(alloc, number)? {
        Outlook::Sends(target) => sent(alloc, name, target, to),
        Outlook::Polls => Ok(polled(name, to)),
        Outlook::Steps
        | Outlook::Awaits(_)
        | Outlook::Faulted(_)
        | Outlook::Serving
        | Outlook::Done => Ok(None),
    }
}

fn push_some(entries: &mut Vec<Reception>, entry: Option<Reception>) -> Result<(), AllocError>
    ensures { OnOk result (entries.new.items ≡ with_some entries.old.items entry) }
{
    if let Some(entry) = entry {
        entries.push(entry)?;
    }
    Ok(())
}

/// Whatever could be entered in the log of an activity next.
pub fn entries_at(
    alloc: Global,
    population: &Population,
    to: &ActivityName,
) -> Result<Vec<Reception>, AllocError>
    requires reached { IsReachedBySome population.now }
    ensures next { (program : Tree) (c : Configuration) →
        IsReachedPopulation population.now program c →
        IfOk result (λ v. HasNext c to.now v.items) }
{
    let mut entries = Vec::new(alloc);
    for number in 0..population.roster.len() as u32 {
        let entry = next_of(alloc, population, number, to)?;
        push_some(&mut entries, entry)?;
    }
    Ok(entries)
}
