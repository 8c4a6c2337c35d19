//! Where an activity stands, for whoever lends it and delivers values to it.

ghost use Rattle.std.specs.Prelude.{◌≡◌, IfOk, List, ℕ};
ghost use Rattle.asp_model.specs.Chase.{Chase as ChaseShape, chase};
ghost use Rattle.asp_model.specs.Configuration as model;
ghost use Rattle.asp_model.specs.Configuration.{RequestShape};
ghost use Rattle.asp_model.specs.Names.{FutureShape, Name};
ghost use Rattle.asp_model.specs.Shapes.{future_shape};
ghost use Rattle.asp_model.specs.Split as terms;
ghost use Rattle.asp_model.specs.Split.{split};
ghost use Rattle.activity_step.specs.Activities.{StandsFor};
ghost use Rattle.activity_step.specs.Standings.{IsAt};
ghost use Rattle.future_table.specs.Values.{values_of};
ghost use Rattle.step_reads.specs.Values.{AreClosedValues};
ghost use Rattle.step_activity.specs.Actors.{IsClosedFor, Stands};
ghost use Rattle.step_activity.specs.Stances.{
  asks_others,
  held_stance,
  stance_of,
  stance_shape,
};

use crate::actor::Actor;
use crate::asked::Asked;
use crate::held::{Held, first_held};
use activity_step::Standing;
use code_table::Place;
use future_table::{Chase, FutureTable};
use std::alloc::{AllocError, Global};
use step_parts::{Stance, free_stance};
use step_reads::strict_of;
use step_rows::Redex;

/// By the end of the chase of the first operand that is a future.
fn held_stance<'a>(futures: &'a FutureTable, held: Held<'a>) -> Stance<'a>
    ensures stance { let end = chase (values_of futures.now) (future_shape held.entry.future.now) in
        stance_shape result ≡ held_stance end held.entry.place }
{
    match futures.chase(held.future) {
        Chase::Value(name) => Stance::Needs(held.place, name),
        Chase::Unfilled(name) => Stance::Awaits(name),
        Chase::Cycle(name) => Stance::Awaits(name),
    }
}

/// Whether a redex that sends nothing asks others, where it reduces.
fn asks_others(redex: Redex) -> bool
    ensures { result ≡ asks_others redex.entry }
{
    matches!(
        redex,
        Redex::Active(_, _) | Redex::Serve(_) | Redex::Pending(_)
    )
}

impl Actor {
    /// Where the activity stands, once it has settled. Nothing is changed.
    pub fn stance<'a>(
        &'a self,
        alloc: Global,
        futures: &'a FutureTable,
    ) -> Result<Stance<'a>, AllocError>
        requires closed { IsClosedFor self.now }
        requires values { AreClosedValues (values_of futures.now) }
        ensures stance { (a : model.Activity) (rs : List RequestShape) (n : Name) →
            Stands self.now a rs → let chases = chase (values_of futures.now) in
            IfOk result (λ x. stance_shape x ≡ stance_of chases rs n a) }
    {
        match self.activity.standing()? {
            Standing::Place(_place) => Ok(self.place_stance()),
            Standing::Redex(redex) => self.redex_stance(alloc, futures, redex),
        }
    }

    fn place_stance(&self) -> Stance<'_>
        ensures stance { (a : model.Activity) (rs : List RequestShape) (n : Name)
            (chases : FutureShape → ChaseShape) (place : ℕ) → StandsFor self.now.activity a →
            split a.term ≡ terms.Stands place → stance_shape result ≡ stance_of chases rs n a }
    {
        if self.activity.is_serving() {
            Stance::Communicates
        } else {
            Stance::Done
        }
    }

    fn redex_stance<'a>(
        &'a self,
        alloc: Global,
        futures: &'a FutureTable,
        redex: Redex<'a>,
    ) -> Result<Stance<'a>, AllocError>
        requires closed { IsClosedFor self.now }
        requires values { AreClosedValues (values_of futures.now) }
        requires stands { (a : model.Activity) → StandsFor self.now.activity a → IsAt a redex }
        ensures stance { (a : model.Activity) (rs : List RequestShape) (n : Name) →
            Stands self.now a rs → let chases = chase (values_of futures.now) in
            IfOk result (λ x. stance_shape x ≡ stance_of chases rs n a) }
    {
        match redex {
            Redex::Goes => Ok(Stance::Contracts),
            _ => self.asking_stance(alloc, futures, redex),
        }
    }

    /// Where it stands at a redex that may ask something of others, or read an operand.
    fn asking_stance<'a>(
        &'a self,
        alloc: Global,
        futures: &'a FutureTable,
        redex: Redex<'a>,
    ) -> Result<Stance<'a>, AllocError>
        requires closed { IsClosedFor self.now }
        requires values { AreClosedValues (values_of futures.now) }
        requires stands { (a : model.Activity) → StandsFor self.now.activity a → IsAt a redex }
        ensures stance { (a : model.Activity) (rs : List RequestShape) (n : Name) →
            Stands self.now a rs → let chases = chase (values_of futures.now) in
            IfOk result (λ x. stance_shape x ≡ stance_of chases rs n a) }
    {
        match self.asks(redex) {
            Asked::Creates(_object, _service) => Ok(Stance::Communicates),
            Asked::Sends(_to, _label, _arguments) => Ok(Stance::Communicates),
            Asked::Serves(labels) => match self.match_of(alloc, labels)? {
                Some(_number) => Ok(Stance::Communicates),
                None => Ok(Stance::Serving),
            },
            Asked::Polls(_labels) => Ok(Stance::Communicates),
            Asked::Nothing => self.other_stance(alloc, futures, redex),
        }
    }

    /// Where it stands at a redex that asks nothing of others, or not yet.
    #[inline(never)]
    fn other_stance<'a>(
        &'a self,
        alloc: Global,
        futures: &'a FutureTable,
        redex: Redex<'a>,
    ) -> Result<Stance<'a>, AllocError>
        requires closed { IsClosedFor self.now }
        requires values { AreClosedValues (values_of futures.now) }
        requires stands { (a : model.Activity) → StandsFor self.now.activity a → IsAt a redex }
        ensures stance { (a : model.Activity) (rs : List RequestShape) (n : Name) →
            Stands self.now a rs → let chases = chase (values_of futures.now) in
            IfOk result (λ x. stance_shape x ≡ stance_of chases rs n a) }
    {
        match first_held(self.activity.store(), strict_of(redex), self.clear) {
            Some(held) => Ok(held_stance(futures, held)),
            None => {
                let looked = self.at_redex(alloc, futures, redex, 0)?;
                Ok(free_stance(looked.outlook, asks_others(redex)))
            }
        }
    }
}
