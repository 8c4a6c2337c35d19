//! What a step gives to others is handed on.

ghost use Rattle.std.specs.Prelude.{◌≡◌, OnOk, Some};
ghost use Rattle.asp_model.specs.Configuration.{Configuration};
ghost use Rattle.asp_model.specs.Intent.{Acts, Effect};
ghost use Rattle.asp_model.specs.Names.{Name};
ghost use Rattle.asp_model.specs.Step.{intent_in, with_effect};
ghost use Rattle.def_journals.specs.Journals.{number_of};
ghost use Rattle.replay_population.specs.Giving.{CanHandOn, CanStepNow, IsGiving, IsGivingSome};
ghost use Rattle.replay_population.specs.Population.{IsPopulation};
ghost use Rattle.replay_parts.specs.Roster.{Leads};

use crate::population::Population;
use std::alloc::{AllocError, Global};
use step_activity::Given;

/// It is given to nobody: who calls this need not prove its drop.
pub fn discard_given(given: Given) {
    drop(given);
}

impl Population {
    /// What a reduction gives to others is handed on.
    pub fn give(&mut self, alloc: Global, given: Given) -> Result<(), AllocError>
        requires giving { IsGivingSome self.old given }
        ensures given { (c : Configuration) (e : Effect) (n : Name) →
            IsGiving self.old n given c e →
            OnOk result (IsPopulation self.new (with_effect n e c)) }
        ensures leads { OnOk result (Leads self.old.roster self.new.roster) }
    {
        match given {
            Given::Nothing | Given::Polled => Ok(()),
            Given::Made(name, actor) => {
                self.insert(name, actor)?;
                Ok(())
            }
            Given::Sent(name, request) => {
                let Some(to) = self.roster.number(&name) else {
                    unreachable!()
                };
                self.send(alloc, to, request)
            }
            Given::Filled(future, value) => self.fill(future, value),
        }
    }

    /// An activity takes its reduction, and what that gives to others is handed on.
    pub fn step(&mut self, alloc: Global, number: u32) -> Result<(), AllocError>
        requires steps { CanStepNow self.old number }
        ensures steps { (c : Configuration) (e : Effect) (n : Name) → IsPopulation self.old c →
            number_of n self.old.roster ≡ Some number → intent_in c n ≡ Acts e → CanHandOn c e →
            OnOk result (IsPopulation self.new (with_effect n e c)) }
        ensures leads { OnOk result (Leads self.old.roster self.new.roster) }
    {
        let given = self.act(alloc, number)?;
        self.give(alloc, given)
    }
}
