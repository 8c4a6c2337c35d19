//! What a reduction asks of others.

ghost use Rattle.std.specs.Prelude.{
  ◌≡◌,
  ◌<◌,
  IfOk,
  IsSome,
  List,
  Option,
  Some,
  is_some,
  length,
  suc,
  ℕ,
};
ghost use Rattle.std.specs.Arc.{arc_value};
ghost use Rattle.std.specs.Option.{option_map};
ghost use Rattle.asp_model.specs.Configuration as model;
ghost use Rattle.asp_model.specs.Configuration.{RequestShape};
ghost use Rattle.asp_model.specs.Contraction.{Communication, Communicates, contract};
ghost use Rattle.asp_model.specs.Intent.{
  Numbered,
  communicates,
  creates,
  oldest_match,
  polls,
  sends,
  serves,
};
ghost use Rattle.asp_model.specs.Names.{Name, Text};
ghost use Rattle.asp_model.specs.Parcel.{parcel_of};
ghost use Rattle.asp_model.specs.Split.{Context, Redex, Splits, split};
ghost use Rattle.activity_step.specs.Activities.{StandsFor};
ghost use Rattle.code_table.specs.Shapes.{parcel_shape};
ghost use Rattle.request_queue.specs.Pending.{request_at};
ghost use Rattle.step_activity.specs.Actors.{IsClosedFor, Stands, code_of, log_in};
ghost use Rattle.step_activity.specs.Asking.{IsWithin, asked_shape, lent_text, service_text};
ghost use Rattle.step_activity.specs.Effects.{IsDoneBy, IsGivenOf, IsLogAfter};

use crate::act::Given;
use crate::actor::{Actor, push_reception};
use crate::asked::Asked;
use activity_step::{Activity, Standing};
use asp_model::{ActivityName, Reception};
use code_table::{Parcel, Place, SharedLabel};
use request_queue::Request;
use std::alloc::{AllocError, Global};
use std::sync::Arc;
use step_parts::future_named;

impl Actor {
    /// What the redex asks of others is done. The future of a request is the one at `at` in the table
    /// of futures.
    #[inline(never)]
    pub fn communicate(
        &mut self,
        alloc: Global,
        name: &ActivityName,
        at: u32,
    ) -> Result<Given, AllocError>
        requires closed { IsClosedFor self.old }
        ensures done { (a : model.Activity) (rs : List RequestShape) (cs : List Context) (r : Redex)
            (x : Communication) → Stands self.old a rs → split a.term ≡ Splits cs r →
            contract a.store r ≡ Communicates x →
            let intended = communicates rs name.now a cs a.store x in
            IfOk result (IsDoneBy name.now intended rs self.new) }
        ensures log { IfOk result (IsLogAfter (log_in self.old) (log_in self.new)) }
        ensures code { code_of self.new ≡ code_of self.old }
        ensures given { IfOk result (IsGivenOf (code_of self.old)) }
    {
        match self.asked()? {
            Asked::Creates(object, service) => {
                let service = shared(alloc, service)?;
                self.create(alloc, name, object, service)
            }
            Asked::Sends(to, label, arguments) => {
                let to = to.copy(alloc)?;
                let label = label.share(alloc)?;
                let arguments = self.activity.pack(alloc, arguments)?;
                self.send(alloc, name, to, label, arguments, at)
            }
            Asked::Serves(labels) => match self.match_of(alloc, labels)? {
                Some(number) => self.serve(alloc, number),
                None => Ok(Given::Nothing),
            },
            Asked::Polls(labels) => {
                let answer = self.has_match(alloc, labels)?;
                self.poll(alloc, answer)
            }
            Asked::Nothing => Ok(Given::Nothing),
        }
    }

    /// What the redex asks of others.
    fn asked(&self) -> Result<Asked<'_>, AllocError>
        requires closed { IsClosedFor self.now }
        ensures asked { (a : model.Activity) (cs : List Context) (r : Redex) (x : Communication) →
            StandsFor self.now.activity a → split a.term ≡ Splits cs r →
            contract a.store r ≡ Communicates x → IfOk result (λ k. asked_shape k ≡ Some x) }
        ensures within { let size = length self.now.activity.state.store.cells in
            IfOk result (λ k. IsWithin size (asked_shape k)) }
    {
        match self.activity.standing()? {
            Standing::Place(_) => Ok(Asked::Nothing),
            Standing::Redex(redex) => Ok(self.asks(redex)),
        }
    }

    /// A new activity gets a copy of the object, and this one a reference to it. The new one is large,
    /// so that its making is told from a failure where it stands (`?` would move it once more).
    pub(crate) fn create(
        &mut self,
        alloc: Global,
        name: &ActivityName,
        object: Place,
        service: Option<SharedLabel>,
    ) -> Result<Given, AllocError>
        requires closed { IsClosedFor self.old }
        requires within { object < length self.old.activity.state.store.cells }
        ensures done { (a : model.Activity) (rs : List RequestShape) (cs : List Context) (r : Redex)
            → Stands self.old a rs → split a.term ≡ Splits cs r →
            let intended = creates name.now a cs a.store object (service_text service) in
            IfOk result (IsDoneBy name.now intended rs self.new) }
        ensures log { IfOk result (IsLogAfter (log_in self.old) (log_in self.new)) }
        ensures code { code_of self.new ≡ code_of self.old }
        ensures given { IfOk result (IsGivenOf (code_of self.old)) }
    {
        let number = next_number(self.creations)?;
        let created = name.created(alloc, number)?;
        let parcel = self.activity.pack(alloc, &[object])?;
        let Ok(begun) = Activity::made(alloc, parcel, service) else {
            return Err(AllocError);
        };
        let Ok(made) = Box::new(alloc, Actor::begin(alloc, begun)) else {
            return Err(AllocError);
        };
        self.clear = 0;
        self.activity.created(alloc, created.copy(alloc)?)?;
        self.creations = number;
        Ok(Given::Made(created, made))
    }

    /// This activity has a future for the answer of the request, the one at `at` in the table of
    /// futures.
    pub(crate) fn send(
        &mut self,
        alloc: Global,
        name: &ActivityName,
        to: ActivityName,
        label: SharedLabel,
        arguments: Parcel,
        at: u32,
    ) -> Result<Given, AllocError>
        requires code { arc_value arguments.code ≡ code_of self.old }
        ensures done { (a : model.Activity) (rs : List RequestShape) (cs : List Context) (r : Redex)
            (places : List ℕ) → Stands self.old a rs → split a.term ≡ Splits cs r →
            parcel_shape arguments ≡ parcel_of a.store places →
            let intended = sends name.now a cs a.store to label.text places in
            IfOk result (IsDoneBy name.now intended rs self.new) }
        ensures log { IfOk result (IsLogAfter (log_in self.old) (log_in self.new)) }
        ensures code { code_of self.new ≡ code_of self.old }
        ensures given { IfOk result (IsGivenOf (code_of self.old)) }
    {
        let number = next_number(self.sends)?;
        let future = future_named(alloc, name, number, at)?;
        let answer = Arc::try_clone(&future)?;
        let sender = name.copy(alloc)?;
        self.clear = 0;
        self.activity.sent(alloc, future)?;
        self.sends = number;
        let request = Request {
            label,
            arguments,
            future: answer,
            sender,
        };
        Ok(Given::Sent(to, request))
    }

    /// The request of this number is served: the term waits, and becomes its call.
    pub(crate) fn serve(&mut self, alloc: Global, number: u64) -> Result<Given, AllocError>
        requires closed { IsClosedFor self.old }
        requires pending { IsSome (request_at number self.old.queue.pending) }
        ensures done { (a : model.Activity) (rs : List RequestShape) (cs : List Context) (r : Redex)
            (labels : List Text) (n : Name) → Stands self.old a rs → split a.term ≡ Splits cs r →
            let oldest = oldest_match labels a.served 0 rs in
            Some number ≡ option_map (λ x. x.0) oldest →
            IfOk result (IsDoneBy n (serves a cs oldest) rs self.new) }
        ensures log { IfOk result (IsLogAfter (log_in self.old) (log_in self.new)) }
        ensures code { code_of self.new ≡ code_of self.old }
        ensures given { IfOk result (IsGivenOf (code_of self.old)) }
    {
        let Request {
            label,
            arguments,
            future,
            sender: _,
        } = self.queue.take(number);
        self.clear = 0;
        self.activity.serves(alloc, label, future, arguments)?;
        Ok(Given::Nothing)
    }

    /// The activity is told whether such a request is pending, and its log notes that it asked.
    pub(crate) fn poll(&mut self, alloc: Global, answer: bool) -> Result<Given, AllocError>
        ensures done { (a : model.Activity) (rs : List RequestShape) (cs : List Context) (r : Redex)
            (found : Option Numbered) (n : Name) → Stands self.old a rs →
            split a.term ≡ Splits cs r → answer ≡ is_some found →
            IfOk result (IsDoneBy n (polls n a cs a.store found) rs self.new) }
        ensures log { IfOk result (IsLogAfter (log_in self.old) (log_in self.new)) }
        ensures code { code_of self.new ≡ code_of self.old }
        ensures given { IfOk result (IsGivenOf (code_of self.old)) }
    {
        self.clear = 0;
        self.activity.polled(alloc, answer)?;
        push_reception(&mut self.log, Reception::Poll)?;
        Ok(Given::Polled)
    }
}

pub(crate) fn shared(
    alloc: Global,
    label: Option<&SharedLabel>,
) -> Result<Option<SharedLabel>, AllocError>
    ensures { IfOk result (λ l. service_text l ≡ lent_text label.entry) }
{
    match label {
        Some(label) => Ok(Some(label.share(alloc)?)),
        None => Ok(None),
    }
}

fn next_number(number: u32) -> Result<u32, AllocError>
    ensures { IfOk result (λ n. n ≡ suc number) }
{
    number.checked_add(1).ok_or(AllocError)
}
