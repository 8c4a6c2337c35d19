//! One reduction of an activity.

ghost use Rattle.std.specs.Prelude.{◌≡◌, ◌<◌, IfOk, List, length};
ghost use Rattle.asp_model.specs.Chase.{chase};
ghost use Rattle.asp_model.specs.Configuration as model;
ghost use Rattle.asp_model.specs.Configuration.{RequestShape};
ghost use Rattle.asp_model.specs.Contraction.{contract};
ghost use Rattle.asp_model.specs.Intent.{contracts, ends_service, intent, newest};
ghost use Rattle.asp_model.specs.Names.{Name};
ghost use Rattle.asp_model.specs.Split as terms;
ghost use Rattle.asp_model.specs.Split.{Context, Redex, Splits, split};
ghost use Rattle.activity_step.specs.Activities.{StandsFor};
ghost use Rattle.future_table.specs.Values.{AreOfCode, values_of};
ghost use Rattle.step_reads.specs.Values.{AreClosedValues};
ghost use Rattle.step_activity.specs.Actors.{HasOperands, IsClosedFor, Stands, code_of, log_in};
ghost use Rattle.step_activity.specs.Asking.{communicates};
ghost use Rattle.step_activity.specs.Effects.{IsDoneBy, IsGivenOf, IsLogAfter};
ghost use Rattle.step_activity.specs.Found.{IsFoundFor};

use crate::actor::Actor;
use crate::asked::Asked;
use crate::communicate::shared;
use activity_step::{Advance, Standing};
use asp_model::ActivityName;
use code_table::{Future, Parcel, Place};
use future_table::FutureTable;
use request_queue::Request;
use std::alloc::{AllocError, Global};
use std::sync::Arc;
use step_reads::{Strict, fetch_all, strict_of};

/// What a reduction gives to others.
#[derive(Drop)]
pub enum Given {
    Nothing,
    /// A new activity.
    Made(ActivityName, Box<Actor>),
    /// A request, to the activity of this name.
    Sent(ActivityName, Request),
    /// The value of a future.
    Filled(Arc<Future>, Parcel),
    /// Nothing, and the activity asked what is pending.
    Polled,
}

impl Actor {
    /// Takes the reduction that the activity intends, and answers what it gives to others. Where it
    /// intends none, no clause says what is left: look at `outlook` first.
    pub fn act(
        &mut self,
        alloc: Global,
        name: &ActivityName,
        futures: &FutureTable,
    ) -> Result<Given, AllocError>
        requires closed { IsClosedFor self.old }
        requires values { AreClosedValues (values_of futures.now) }
        requires code { AreOfCode (code_of self.old) futures.now }
        ensures acts { (a : model.Activity) (rs : List RequestShape) → Stands self.old a rs →
            let intended = intent (chase (values_of futures.now)) rs name.now a in
            IfOk result (IsDoneBy name.now intended rs self.new) }
        ensures log { IfOk result (IsLogAfter (log_in self.old) (log_in self.new)) }
        ensures code { code_of self.new ≡ code_of self.old }
        ensures given { IfOk result (IsGivenOf (code_of self.old)) }
    {
        self.act_found(alloc, name, futures, None)
    }

    /// Takes the reduction as `act` does. A request that it serves is the one of this number, where
    /// `outlook_from` told one: it is not looked for again.
    pub fn act_found(
        &mut self,
        alloc: Global,
        name: &ActivityName,
        futures: &FutureTable,
        found: Option<u64>,
    ) -> Result<Given, AllocError>
        requires closed { IsClosedFor self.old }
        requires values { AreClosedValues (values_of futures.now) }
        requires code { AreOfCode (code_of self.old) futures.now }
        requires found { IsFoundFor self.old found }
        ensures acts { (a : model.Activity) (rs : List RequestShape) → Stands self.old a rs →
            let intended = intent (chase (values_of futures.now)) rs name.now a in
            IfOk result (IsDoneBy name.now intended rs self.new) }
        ensures log { IfOk result (IsLogAfter (log_in self.old) (log_in self.new)) }
        ensures code { code_of self.new ≡ code_of self.old }
        ensures given { IfOk result (IsGivenOf (code_of self.old)) }
    {
        self.settle()?;
        let redex = match self.activity.standing()? {
            Standing::Place(place) => return self.end_service(alloc, place),
            Standing::Redex(redex) => redex,
        };
        match self.asks(redex) {
            Asked::Creates(object, service) => {
                let service = shared(alloc, service)?;
                return self.create(alloc, name, object, service);
            }
            Asked::Sends(to, label, arguments) => {
                let to = to.copy(alloc)?;
                let label = label.share(alloc)?;
                let arguments = self.activity.pack(alloc, arguments)?;
                let at = futures.next_number();
                return self.send(alloc, name, to, label, arguments, at);
            }
            Asked::Serves(labels) => {
                let Some(number) = self.match_known(alloc, labels, found)? else {
                    return Ok(Given::Nothing);
                };
                return self.serve(alloc, number);
            }
            Asked::Polls(labels) => {
                let answer = self.has_match(alloc, labels)?;
                return self.poll(alloc, answer);
            }
            Asked::Nothing => {
                let strict = strict_of(redex);
                return self.reduce(alloc, name, futures, strict);
            }
        }
    }

    /// The service ends: its future gets a copy of what stands at the place.
    fn end_service(&mut self, alloc: Global, place: Place) -> Result<Given, AllocError>
        requires closed { IsClosedFor self.old }
        requires within { place < length self.old.activity.state.store.cells }
        ensures ended { (a : model.Activity) (rs : List RequestShape) (n : Name) →
            Stands self.old a rs → split a.term ≡ terms.Stands place →
            IfOk result (IsDoneBy n (ends_service a place (newest a.services)) rs self.new) }
        ensures log { IfOk result (IsLogAfter (log_in self.old) (log_in self.new)) }
        ensures code { code_of self.new ≡ code_of self.old }
        ensures given { IfOk result (IsGivenOf (code_of self.old)) }
    {
        if !self.activity.is_serving() {
            return Ok(Given::Nothing);
        }
        let value = self.activity.pack(alloc, &[place])?;
        self.clear = 0;
        match self.activity.ended(alloc)? {
            Some(future) => Ok(Given::Filled(future, value)),
            None => Ok(Given::Nothing),
        }
    }

    /// The redex is contracted over the values of its strict operands, if each has one.
    #[inline(never)]
    fn reduce(
        &mut self,
        alloc: Global,
        name: &ActivityName,
        futures: &FutureTable,
        strict: Strict,
    ) -> Result<Given, AllocError>
        requires closed { IsClosedFor self.old }
        requires values { AreClosedValues (values_of futures.now) }
        requires code { AreOfCode (code_of self.old) futures.now }
        requires operands { (a : model.Activity) → StandsFor self.old.activity a →
            HasOperands a strict }
        ensures acts { (a : model.Activity) (rs : List RequestShape) → Stands self.old a rs →
            let intended = intent (chase (values_of futures.now)) rs name.now a in
            IfOk result (IsDoneBy name.now intended rs self.new) }
        ensures log { IfOk result (IsLogAfter (log_in self.old) (log_in self.new)) }
        ensures code { code_of self.new ≡ code_of self.old }
        ensures given { IfOk result (IsGivenOf (code_of self.old)) }
    {
        self.clear = 0;
        if fetch_all(alloc, &mut self.activity, futures, strict)? {
            self.contract(alloc, name, futures.next_number())
        } else {
            Ok(Given::Nothing)
        }
    }

    /// The redex is contracted, or does what it asks of others. The future of a request is the one at
    /// `at` in the table of futures.
    fn contract(&mut self, alloc: Global, name: &ActivityName, at: u32) -> Result<Given, AllocError>
        requires closed { IsClosedFor self.old }
        ensures contracts { (a : model.Activity) (rs : List RequestShape) (cs : List Context)
            (r : Redex) → Stands self.old a rs → split a.term ≡ Splits cs r →
            let intended = contracts rs name.now a cs a.store (contract a.store r) in
            IfOk result (IsDoneBy name.now intended rs self.new) }
        ensures log { IfOk result (IsLogAfter (log_in self.old) (log_in self.new)) }
        ensures code { code_of self.new ≡ code_of self.old }
        ensures given { IfOk result (IsGivenOf (code_of self.old)) }
    {
        self.clear = 0;
        let advance = self.activity.step(alloc, true)?;
        if is_communication(advance) {
            self.communicate(alloc, name, at)
        } else {
            Ok(Given::Nothing)
        }
    }
}

fn is_communication(advance: Advance) -> bool
    ensures { result ≡ communicates advance }
{
    matches!(
        advance,
        Advance::Creates(_) | Advance::Sends | Advance::Serves | Advance::Polls
    )
}
