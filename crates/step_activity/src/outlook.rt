//! What an activity does next, told without a reduction.

ghost use Rattle.std.specs.Prelude.{◌≡◌, IfOk, List, OnOk, Option, ℕ};
ghost use Rattle.std.specs.Option.{option_map};
ghost use Rattle.asp_model.specs.Chase.{chase};
ghost use Rattle.asp_model.specs.Configuration as model;
ghost use Rattle.asp_model.specs.Configuration.{RequestShape};
ghost use Rattle.asp_model.specs.Intent.{Numbered, ends_service, intent, newest, serves};
ghost use Rattle.asp_model.specs.Names.{Name};
ghost use Rattle.asp_model.specs.Split.{Context};
ghost use Rattle.law_steps.specs.Waking.{labels_wanted};
ghost use Rattle.activity_step.specs.Activities.{StandsFor};
ghost use Rattle.activity_step.specs.Standings.{IsAt};
ghost use Rattle.future_table.specs.Values.{values_of};
ghost use Rattle.step_reads.specs.Values.{AreClosedValues};
ghost use Rattle.step_activity.specs.Actors.{IsClosedFor, Stands, code_of, log_in};
ghost use Rattle.step_activity.specs.Found.{IsFound};
ghost use Rattle.step_activity.specs.Outlook.{IsOutlook};
ghost use Rattle.step_activity.specs.Passing.{HasPassed, IsPassedFor};

use crate::actor::Actor;
use crate::asked::served_labels;
use activity_step::Standing;
use future_table::FutureTable;
use std::alloc::{AllocError, Global};
use step_parts::Outlook;
use step_reads::{Prospect, prospect_from};
use step_rows::Redex;

/// What an activity does next, how many members of a group that it waits for have values, and the
/// number of the request that it serves, where it does.
#[derive(Clone, Copy)]
pub struct Looked<'a> {
    pub outlook: Outlook<'a>,
    pub passed: usize,
    pub found: Option<u64>,
}

impl Actor {
    /// Goes on to the next redex, or to the place that the term is. It takes no reduction.
    pub fn settle(&mut self) -> Result<(), AllocError>
        ensures stands { (a : model.Activity) (rs : List RequestShape) → Stands self.old a rs →
            OnOk result (Stands self.new a rs) }
        ensures log { log_in self.new ≡ log_in self.old }
        ensures code { code_of self.new ≡ code_of self.old }
    {
        self.clear = 0;
        self.activity.settle()?;
        Ok(())
    }

    /// What the activity does next, once it has settled. Nothing is changed, and no value is
    /// unpacked.
    pub fn outlook<'a>(
        &'a self,
        alloc: Global,
        futures: &'a FutureTable,
    ) -> Result<Outlook<'a>, AllocError>
        requires closed { IsClosedFor self.now }
        requires values { AreClosedValues (values_of futures.now) }
        ensures outlook { (a : model.Activity) (rs : List RequestShape) (n : Name) →
            Stands self.now a rs →
            let intended = intent (chase (values_of futures.now)) rs n a in
            IfOk result (IsOutlook n intended) }
    {
        Ok(self.outlook_from(alloc, futures, 0)?.outlook)
    }

    /// What the activity does next, once it has settled, where the first so many members of a group
    /// that it waits for are known to have values: these are not looked at.
    pub fn outlook_from<'a>(
        &'a self,
        alloc: Global,
        futures: &'a FutureTable,
        from: usize,
    ) -> Result<Looked<'a>, AllocError>
        requires closed { IsClosedFor self.now }
        requires values { AreClosedValues (values_of futures.now) }
        requires passed { IsPassedFor (chase (values_of futures.now)) self.now from }
        ensures outlook { (a : model.Activity) (rs : List RequestShape) (n : Name) →
            Stands self.now a rs → let intended = intent (chase (values_of futures.now)) rs n a in
            IfOk result (λ x. IsOutlook n intended x.outlook) }
        ensures passed { (a : model.Activity) (rs : List RequestShape) → Stands self.now a rs →
            IfOk result (λ x. HasPassed (chase (values_of futures.now)) a x.passed) }
        ensures found { (a : model.Activity) (rs : List RequestShape) → Stands self.now a rs →
            IfOk result (λ x. IsFound (labels_wanted a) a rs x.found) }
    {
        match self.activity.standing()? {
            Standing::Place(_place) => Ok(Looked {
                outlook: self.at_place(),
                passed: 0,
                found: None,
            }),
            Standing::Redex(redex) => self.at_redex(alloc, futures, redex, from),
        }
    }

    fn at_place(&self) -> Outlook<'_>
        ensures outlook { (a : model.Activity) (place : ℕ) (n : Name) →
            StandsFor self.now.activity a →
            IsOutlook n (ends_service a place (newest a.services)) result }
    {
        if self.activity.is_serving() {
            Outlook::Steps
        } else {
            Outlook::Done
        }
    }

    pub(crate) fn at_redex<'a>(
        &'a self,
        alloc: Global,
        futures: &'a FutureTable,
        redex: Redex<'a>,
        from: usize,
    ) -> Result<Looked<'a>, AllocError>
        requires closed { IsClosedFor self.now }
        requires values { AreClosedValues (values_of futures.now) }
        requires stands { (a : model.Activity) → StandsFor self.now.activity a → IsAt a redex }
        requires passed { IsPassedFor (chase (values_of futures.now)) self.now from }
        ensures outlook { (a : model.Activity) (rs : List RequestShape) (n : Name) →
            Stands self.now a rs → let intended = intent (chase (values_of futures.now)) rs n a in
            IfOk result (λ x. IsOutlook n intended x.outlook) }
        ensures passed { (a : model.Activity) (rs : List RequestShape) → Stands self.now a rs →
            IfOk result (λ x. HasPassed (chase (values_of futures.now)) a x.passed) }
        ensures found { (a : model.Activity) (rs : List RequestShape) → Stands self.now a rs →
            IfOk result (λ x. IsFound (labels_wanted a) a rs x.found) }
    {
        let code = self.activity.code();
        let reading = prospect_from(code, self.activity.store(), futures, redex, from);
        let passed = reading.passed;
        match reading.prospect {
            Prospect::Goes => Ok(Looked {
                outlook: Outlook::Steps,
                passed,
                found: None,
            }),
            Prospect::GoesTo(name) => Ok(Looked {
                outlook: Outlook::Sends(name),
                passed,
                found: None,
            }),
            Prospect::Stops(fault) => Ok(Looked {
                outlook: Outlook::Faulted(fault),
                passed,
                found: None,
            }),
            Prospect::Asks => {
                let found = self.match_of(alloc, served_labels(redex))?;
                Ok(Looked {
                    outlook: at_serve(found),
                    passed,
                    found,
                })
            }
            Prospect::Polls => Ok(Looked {
                outlook: Outlook::Polls,
                passed,
                found: None,
            }),
            Prospect::Awaits(future) => Ok(Looked {
                outlook: Outlook::Awaits(future),
                passed,
                found: None,
            }),
            Prospect::Still => Ok(Looked {
                outlook: Outlook::Done,
                passed,
                found: None,
            }),
        }
    }
}

/// What an activity does at a `serve`, by the number of the request that it serves.
fn at_serve<'a>(found: Option<u64>) -> Outlook<'a>
    ensures outlook { (n : Name) (a : model.Activity) (cs : List Context) (o : Option Numbered) →
        found ≡ option_map (λ x. x.0) o → IsOutlook n (serves a cs o) result }
{
    match found {
        Some(_number) => Outlook::Steps,
        None => Outlook::Serving,
    }
}
