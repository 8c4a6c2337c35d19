//! One step of an activity that is redone.

ghost use Rattle.std.specs.Prelude.{◌≡◌, ◌&&◌, ◌++◌, IfOk, OnOk, Some};
ghost use Rattle.asp_model.specs.Configuration.{Configuration};
ghost use Rattle.asp_model.specs.Intent.{Acts, Effect};
ghost use Rattle.asp_model.specs.Names.{Name};
ghost use Rattle.asp_model.specs.Status.{is_running, status_of};
ghost use Rattle.asp_model.specs.Step.{intent_in, with_effect};
ghost use Rattle.asp_model.specs.Term.{Tree};
ghost use Rattle.def_journals.specs.Journals.{number_of};
ghost use Rattle.law_core.specs.Commits.{made_by};
ghost use Rattle.step_activity.specs.Effects.{IsGiven};
ghost use Rattle.replay_population.specs.Giving.{IsGiving, IsGivingSome};
ghost use Rattle.replay_population.specs.Population.{IsClosedBySome, IsKnown, IsPopulation};
ghost use Rattle.journal_runs.specs.Stepping.{
  IsActed,
  IsActing,
  IsNewIn,
  IsNext,
  IsReducing,
  IsReducingSome,
  IsStepped,
  MayFollow,
  gives,
};

use replay_population::{Population, discard_given};
use std::alloc::{AllocError, Global};
use step_activity::Given;
use step_parts::{Outlook, Stance};

/// What an activity can do next.
pub(crate) enum Next {
    /// It has a contraction.
    Contracts,
    /// It has a communication.
    Communicates,
    /// It has a step, at which a value is unpacked that is owed to it.
    Needs,
    /// It has no step.
    Rests,
}

/// Whether an activity that has settled can step.
pub(crate) fn can_step(
    alloc: Global,
    population: &Population,
    number: u32,
) -> Result<bool, AllocError>
    requires closed { IsClosedBySome population.now }
    requires known { IsKnown population.now number }
    ensures runs { (c : Configuration) (n : Name) → IsPopulation population.now c →
        number_of n population.now.roster ≡ Some number →
        IfOk result (λ b. b ≡ is_running (status_of c n)) }
{
    match population.outlook(alloc, number)? {
        Outlook::Steps | Outlook::Sends(_) | Outlook::Polls => Ok(true),
        Outlook::Awaits(_) | Outlook::Faulted(_) | Outlook::Serving | Outlook::Done => Ok(false),
    }
}

/// What an activity that has settled can do next.
fn next_of(alloc: Global, population: &Population, number: u32) -> Result<Next, AllocError>
    requires reducing { IsReducingSome population.now number }
    ensures next { (program : Tree) (c : Configuration) (n : Name) →
        IsReducing population.now program c number n → IfOk result (IsNext c n) }
{
    let stance = population.stance(alloc, number)?;
    match stance {
        Stance::Contracts => Ok(Next::Contracts),
        Stance::Communicates => Ok(Next::Communicates),
        Stance::Needs(_, _) => {
            let steps = can_step(alloc, population, number)?;
            if !steps {
                return Ok(Next::Rests);
            }
            Ok(Next::Needs)
        }
        Stance::Awaits(_) => Ok(Next::Rests),
        Stance::Faulted(_) => Ok(Next::Rests),
        Stance::Serving => Ok(Next::Rests),
        Stance::Done => Ok(Next::Rests),
    }
}

/// Whether an activity may try its next step: it has one, which is no communication that reads
/// nothing if more shall follow.
fn may_follow(next: Next, more: bool) -> bool
    ensures may { (c : Configuration) (n : Name) → IsNext c n next → MayFollow c n more result }
{
    match next {
        Next::Rests => false,
        Next::Communicates => !more,
        Next::Contracts => true,
        Next::Needs => true,
    }
}

/// Whether a reduction sends or makes something, and more shall follow.
fn stops(given: &Given, more: bool) -> bool
    ensures stops { (n : Name) (e : Effect) → IsGiven n e given.now →
        result ≡ (more && gives e) }
{
    match given {
        Given::Made(_, _) => more,
        Given::Sent(_, _) => more,
        Given::Nothing => false,
        Given::Filled(_, _) => false,
        Given::Polled => false,
    }
}

/// What a reduction gives to others is handed on, and whom it makes has the next number.
fn hand_on(alloc: Global, population: &mut Population, given: Given) -> Result<(), AllocError>
    requires giving { IsGivingSome population.old given }
    ensures given { (c : Configuration) (e : Effect) (n : Name) →
        IsGiving population.old n given c e →
        OnOk result (IsPopulation population.new (with_effect n e c)) }
    ensures names { (c : Configuration) (e : Effect) (n : Name) →
        IsGiving population.old n given c e →
        IsNewIn population.old.roster e →
        OnOk result (population.new.roster ≡ population.old.roster ++ made_by e.made) }
{
    match given {
        Given::Nothing | Given::Polled => Ok(()),
        Given::Made(name, actor) => {
            population.insert(name, actor)?;
            Ok(())
        }
        Given::Sent(name, request) => {
            let Some(to) = population.roster.number(&name) else {
                unreachable!()
            };
            population.send(alloc, to, request)
        }
        Given::Filled(future, value) => population.fill(future, value),
    }
}

/// An activity takes its step, unless that sends or makes something and more shall follow. Whether
/// it does.
fn take(
    alloc: Global,
    population: &mut Population,
    number: u32,
    more: bool,
) -> Result<bool, AllocError>
    requires acting { (program : Tree) × (c : Configuration) × (n : Name)
        × IsReducing population.old program c number n × IsActing c n }
    ensures acted { (program : Tree) (c : Configuration) (n : Name) (e : Effect) →
        IsReducing population.old program c number n → intent_in c n ≡ Acts e →
        let ns = population.old.roster in
        IfOk result (IsActed population.new program ns c number n e more) }
{
    let given = population.act(alloc, number)?;
    let stops = stops(&given, more);
    if stops {
        discard_given(given);
        return Ok(false);
    }
    hand_on(alloc, population, given)?;
    Ok(true)
}

/// An activity that has settled takes a step, and no communication if more shall follow. Whether
/// there is such a step.
pub(crate) fn step(
    alloc: Global,
    population: &mut Population,
    number: u32,
    more: bool,
) -> Result<bool, AllocError>
    requires reducing { IsReducingSome population.old number }
    ensures stepped { (program : Tree) (c : Configuration) (n : Name) →
        IsReducing population.old program c number n → let ns = population.old.roster in
        IfOk result (IsStepped population.new program ns c number n more) }
{
    let next = next_of(alloc, population, number)?;
    let may = may_follow(next, more);
    if !may {
        return Ok(false);
    }
    take(alloc, population, number, more)
}
