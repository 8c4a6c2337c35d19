//! How the activities of a population stand.

ghost use Rattle.std.specs.Prelude.{◌≡◌, IfOk, OnOk, Some};
ghost use Rattle.asp_model.specs.Configuration as model;
ghost use Rattle.asp_model.specs.Chase.{chase};
ghost use Rattle.asp_model.specs.Configuration.{Configuration, requests_of};
ghost use Rattle.asp_model.specs.Names.{Name};
ghost use Rattle.asp_model.specs.Shapes.{status_shape};
ghost use Rattle.asp_model.specs.Status.{status_of};
ghost use Rattle.asp_model.specs.Step.{intent_in};
ghost use Rattle.def_journals.specs.Journals.{number_of};
ghost use Rattle.law_steps.specs.Reached.{IsAt};
ghost use Rattle.activity_step.specs.Places.{IsPlaceOf};
ghost use Rattle.step_activity.specs.Outlook.{IsOutlook};
ghost use Rattle.step_activity.specs.Stances.{stance_of, stance_shape};
ghost use Rattle.replay_population.specs.Population.{
  IsClosedBySome,
  IsKnown,
  IsPopulation,
  KeepsPassed,
};

use crate::population::Population;
use asp_model::Status;
use std::alloc::{AllocError, Global};
use step_parts::{Outlook, Stance};

impl Population {
    /// How many reductions an activity took; none where nobody has the number.
    pub fn count(&self, number: u32) -> u64
        ensures count { (c : Configuration) (a : model.Activity) (n : Name) →
            IsPopulation self.now c → number_of n self.now.roster ≡ Some number → IsAt c n a →
            result ≡ a.reductions }
    {
        match self.get(number) {
            Some(actor) => actor.count(),
            None => 0,
        }
    }

    /// The byte of the text where the node stood at which an activity is. There is none where its
    /// term is done, or is the call that a service begins with.
    pub fn mark(&self, number: u32) -> Option<usize>
        ensures place { (c : Configuration) (a : model.Activity) (n : Name) →
            (p : IsPopulation self.now c) → number_of n self.now.roster ≡ Some number →
            IsAt c n a → IsPlaceOf p.code a result }
    {
        match self.get(number) {
            Some(actor) => actor.mark(),
            None => None,
        }
    }

    /// An activity goes on to its next redex, or to the place that its term is. It takes no
    /// reduction, and can be looked at then.
    pub fn settle(&mut self, number: u32) -> Result<(), AllocError>
        ensures same { (c : Configuration) (n : Name) → IsPopulation self.old c →
            number_of n self.old.roster ≡ Some number → OnOk result (IsPopulation self.new c) }
        ensures roster { OnOk result (self.new.roster ≡ self.old.roster) }
        ensures passed { OnOk result (KeepsPassed self.old self.new) }
    {
        let Some(mut boxed) = self.take(number) else {
            return Ok(());
        };
        boxed.as_mut().settle()?;
        self.put(number, boxed)
    }

    /// What an activity does next that has settled: it was run, or settled by itself.
    pub fn outlook(&self, alloc: Global, number: u32) -> Result<Outlook<'_>, AllocError>
        requires closed { IsClosedBySome self.now }
        requires known { IsKnown self.now number }
        ensures outlook { (c : Configuration) (n : Name) → IsPopulation self.now c →
            number_of n self.now.roster ≡ Some number →
            IfOk result (IsOutlook n (intent_in c n)) }
    {
        match self.get(number) {
            Some(actor) => actor.outlook(alloc, &self.futures),
            None => Ok(Outlook::Done),
        }
    }

    /// Where an activity stands that has settled: what is owed to it first, and else what it does.
    pub fn stance(&self, alloc: Global, number: u32) -> Result<Stance<'_>, AllocError>
        requires closed { IsClosedBySome self.now }
        requires known { IsKnown self.now number }
        ensures stance { (c : Configuration) (a : model.Activity) (n : Name) →
            IsPopulation self.now c → number_of n self.now.roster ≡ Some number → IsAt c n a →
            let stands = stance_of (chase c.futures) (requests_of c n) n a in
            IfOk result (λ x. stance_shape x ≡ stands) }
    {
        match self.get(number) {
            Some(actor) => actor.stance(alloc, &self.futures),
            None => Ok(Stance::Done),
        }
    }

    /// The status of an activity that has settled.
    pub fn status(&self, alloc: Global, number: u32) -> Result<Status, AllocError>
        requires closed { IsClosedBySome self.now }
        requires known { IsKnown self.now number }
        ensures status { (c : Configuration) (n : Name) → IsPopulation self.now c →
            number_of n self.now.roster ≡ Some number →
            IfOk result (λ s. status_shape s ≡ status_of c n) }
    {
        match self.outlook(alloc, number)? {
            Outlook::Steps | Outlook::Sends(_) | Outlook::Polls => Ok(Status::Running),
            Outlook::Awaits(future) => Ok(Status::Awaits(future.copy(alloc)?)),
            Outlook::Faulted(fault) => Ok(Status::Faulted(fault)),
            Outlook::Serving => Ok(Status::Serving),
            Outlook::Done => Ok(Status::Done),
        }
    }
}
