//! Services that begin and end.

ghost use Rattle.std.specs.Prelude.{
  ◌≡◌,
  Err,
  IfOk,
  OnErr,
  OnOk,
  List,
  Some,
  alloc_error,
  is_some,
  true,
  ℕ,
};
ghost use Rattle.std.specs.Arc.{arc_value};
ghost use Rattle.std.specs.Option.{option_map};
ghost use Rattle.asp_model.specs.Configuration.{Activity as ActivityShape, ServiceShape};
ghost use Rattle.asp_model.specs.Intent.{newest};
ghost use Rattle.asp_model.specs.Split.{Context, Redex, Splits, Stands, split};
ghost use Rattle.code_table.specs.Cells.{held_future};
ghost use Rattle.code_table.specs.Shapes.{parcel_shape};
ghost use Rattle.law_steps.specs.Closed.{IsClosedParcel};
ghost use Rattle.activity_step.specs.Activities.{StandsFor};
ghost use Rattle.activity_step.specs.Standings.{code_of, going_on, serving};

use crate::activity::Activity;
use crate::starting::code_is_sound;
use code_table::{EMPTY_NUMBER, Future, Parcel, SharedLabel};
use deep_copy::unpack;
use std::alloc::{AllocError, Global};
use std::mem;
use std::sync::Arc;

impl Activity {
    /// Whether a service is suspended.
    pub fn is_serving(&self) -> bool
        ensures serving { (a : ActivityShape) → StandsFor self.now a →
            result ≡ is_some (newest a.services) }
    {
        !self.state.machine.futures.is_empty()
    }

    /// The term waits for a service, and the call of the service stands alone.
    fn serve(
        &mut self,
        alloc: Global,
        label: SharedLabel,
        future: Arc<Future>,
        arguments: Parcel,
    ) -> Result<(), AllocError>
        requires closed { IsClosedParcel (parcel_shape arguments) }
        requires code { arc_value arguments.code ≡ code_of self.old }
        ensures serves { (a : ActivityShape) (contexts : List Context) (redex : Redex) →
            StandsFor self.old a → split a.term ≡ Splits contexts redex →
            let p = parcel_shape arguments in
            let f = held_future future in
            OnOk result (StandsFor self.new (serving contexts label.text f p a)) }
        ensures still { self.new.spent ≡ self.old.spent }
        ensures code { code_of self.new ≡ code_of self.old }
    {
        let nodes = self.code.nodes();
        let count = self.state.machine.redex(nodes)?;
        self.state.machine.take_off(count);
        let places = unpack(alloc, &mut self.state.store, arguments)?;
        let waiting = mem::replace(&mut self.present, Some(future));
        self.state
            .machine
            .suspend(waiting, label, self.active, places.as_slice())?;
        let reductions = self.count.checked_add(1).ok_or(AllocError)?;
        self.count = reductions;
        Ok(())
    }

    /// Serves a request: its term waits, and the call that is asked for is its term. After `AllocError`
    /// it is spent.
    pub fn serves(
        &mut self,
        alloc: Global,
        label: SharedLabel,
        future: Arc<Future>,
        arguments: Parcel,
    ) -> Result<(), AllocError>
        requires closed { IsClosedParcel (parcel_shape arguments) }
        requires code { arc_value arguments.code ≡ code_of self.old }
        ensures serves { (a : ActivityShape) (contexts : List Context) (redex : Redex) →
            StandsFor self.old a → split a.term ≡ Splits contexts redex →
            let p = parcel_shape arguments in
            let f = held_future future in
            OnOk result (StandsFor self.new (serving contexts label.text f p a)) }
        ensures spent { self.old.spent ≡ true → result ≡ Err alloc_error }
        ensures gives_up { OnErr result (self.new.spent ≡ true) }
        ensures still { OnOk result (self.new.spent ≡ self.old.spent) }
        ensures code { code_of self.new ≡ code_of self.old }
    {
        self.unspent()?;
        let outcome = self.serve(alloc, label, future, arguments);
        self.noted(outcome)
    }

    /// The term that waited goes on with an empty object.
    fn end(&mut self) -> Result<Option<Arc<Future>>, AllocError>
        ensures ended { (a : ActivityShape) (place : ℕ) (v : ServiceShape) →
            StandsFor self.old a → split a.term ≡ Stands place → newest a.services ≡ Some v →
            IfOk result (λ f. (option_map held_future f ≡ a.present)
            × StandsFor self.new (going_on v a)) }
        ensures still { self.new.spent ≡ self.old.spent }
        ensures code { code_of self.new ≡ code_of self.old }
    {
        code_is_sound(&self.code);
        let waiting = self.state.machine.resume(EMPTY_NUMBER)?;
        let reductions = self.count.checked_add(1).ok_or(AllocError)?;
        self.count = reductions;
        Ok(mem::replace(&mut self.present, waiting))
    }

    /// The service ends, and the term that waited goes on. Answers the future that the service had to
    /// answer. After `AllocError` it is spent.
    pub fn ended(&mut self, _alloc: Global) -> Result<Option<Arc<Future>>, AllocError>
        ensures ended { (a : ActivityShape) (place : ℕ) (v : ServiceShape) →
            StandsFor self.old a → split a.term ≡ Stands place → newest a.services ≡ Some v →
            IfOk result (λ f. (option_map held_future f ≡ a.present)
            × StandsFor self.new (going_on v a)) }
        ensures spent { self.old.spent ≡ true → result ≡ Err alloc_error }
        ensures gives_up { OnErr result (self.new.spent ≡ true) }
        ensures still { OnOk result (self.new.spent ≡ self.old.spent) }
        ensures code { code_of self.new ≡ code_of self.old }
    {
        self.unspent()?;
        let outcome = self.end();
        self.noted(outcome)
    }
}
