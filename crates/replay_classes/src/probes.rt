//! What activities send next.

ghost use Rattle.std.specs.Prelude.{◌≡◌, ◌↔◌, Some, true, IfOk, IfSome, IsTrue, OnOk, slice_get};
ghost use Rattle.asp_model.specs.Configuration.{Configuration};
ghost use Rattle.asp_model.specs.Intent.{Acts, Effect};
ghost use Rattle.asp_model.specs.Names.{Name};
ghost use Rattle.asp_model.specs.Step.{intent_in, with_effect};
ghost use Rattle.asp_model.specs.Term.{Tree};
ghost use Rattle.def_journals.specs.Journals.{number_of};
ghost use Rattle.law_classes.specs.Runs.{entry_of as entry_by};
ghost use Rattle.replay_population.specs.Reached.{IsReachedBySome, IsReachedPopulation};
ghost use Rattle.replay_parts.specs.Roster.{Leads};
ghost use Rattle.replay_classes.specs.Classes.{class_in};
ghost use Rattle.replay_classes.specs.Looks.{AreSenders};
ghost use Rattle.replay_classes.specs.Probes.{CanSend, CanSendAll, HasNexts};
ghost use Rattle.replay_classes.specs.Sendings.{entry_of};

use crate::classes::Classes;
use crate::looks::{Look, look_at};
use asp_model::ActivityName;
use class_search::Sending;
use replay_population::{Population, discard_given};
use request_queue::Request;
use std::alloc::{AllocError, Global};
use step_activity::Given;

fn sending_of(
    alloc: Global,
    classes: &Classes,
    to: &ActivityName,
    request: &Request,
) -> Result<Sending, AllocError>
    ensures by { IfOk result (λ s. s.by ≡ request.now.sender) }
    ensures to { IfOk result (λ s. s.to ≡ to.now) }
    ensures class { IfOk result (λ s. s.class ≡ class_in classes.now request.now.label.text) }
{
    Ok(Sending {
        by: request.sender.copy(alloc)?,
        to: to.copy(alloc)?,
        class: classes.class_of(request.label.as_label()),
    })
}

/// An activity sends its next request. What that was is answered.
pub fn send(
    alloc: Global,
    classes: &Classes,
    population: &mut Population,
    number: u32,
) -> Result<Sending, AllocError>
    requires sends { CanSend population.old number }
    ensures sent { (program : Tree) (c : Configuration) (e : Effect) (n : Name) →
        IsReachedPopulation population.old program c →
        number_of n population.old.roster ≡ Some number → intent_in c n ≡ Acts e →
        IfOk result (λ s. entry_by (class_in classes.now) c n e ≡ entry_of s) }
    ensures reached { (program : Tree) (c : Configuration) (e : Effect) (n : Name) →
        IsReachedPopulation population.old program c →
        number_of n population.old.roster ≡ Some number → intent_in c n ≡ Acts e →
        OnOk result (IsReachedPopulation population.new program (with_effect n e c)) }
    ensures leads { OnOk result (Leads population.old.roster population.new.roster) }
{
    let given = population.act(alloc, number)?;
    let Given::Sent(to, request) = given else {
        unreachable!()
    };
    match sending_of(alloc, classes, &to, &request) {
        Ok(sending) => {
            population.give(alloc, Given::Sent(to, request))?;
            Ok(sending)
        }
        Err(error) => {
            discard_given(Given::Sent(to, request));
            Err(error)
        }
    }
}

/// For each number whether its activity sends next; none where some activity has another step.
pub fn senders(alloc: Global, population: &Population) -> Result<Option<Vec<bool>>, AllocError>
    requires reached { IsReachedBySome population.now }
    ensures senders { (program : Tree) (c : Configuration) →
        IsReachedPopulation population.now program c →
        IfOk result (λ o. IfSome o (λ v. AreSenders population.now.roster c v.items)) }
{
    let mut sends = Vec::new(alloc);
    for number in 0..population.roster.len() as u32 {
        match look_at(alloc, population, number)? {
            Look::Sends(_) => sends.push(true)?,
            Look::Rests => sends.push(false)?,
            Look::Steps | Look::Polls => return Ok(None),
        }
    }
    Ok(Some(sends))
}

fn is_sender(sends: &[bool], number: u32) -> bool
    ensures sender { IsTrue result ↔ (slice_get sends.now number ≡ Some true) }
{
    match sends.get(number as usize) {
        Some(sends) => *sends,
        None => false,
    }
}

/// What all of them send, one after another.
pub fn probe(
    alloc: Global,
    classes: &Classes,
    population: &mut Population,
    sends: &[bool],
) -> Result<Vec<Sending>, AllocError>
    requires all { CanSendAll population.old sends.now }
    ensures nexts { (program : Tree) (c : Configuration) →
        IsReachedPopulation population.old program c →
        AreSenders population.old.roster c sends.now →
        IfOk result (λ v. HasNexts (class_in classes.now) c v.items) }
{
    let mut nexts = Vec::new(alloc);
    for number in 0..population.roster.len() as u32 {
        if is_sender(sends, number) {
            nexts.push(send(alloc, classes, population, number)?)?;
        }
    }
    Ok(nexts)
}
