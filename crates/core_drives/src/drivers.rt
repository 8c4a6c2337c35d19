//! A core with the leases that are out.

ghost use Rattle.std.specs.Prelude.{◌≡◌, Bool, OnOk, map, ℕ};
ghost use Rattle.asp_model.specs.Shapes.{delivery_shape};
ghost use Rattle.asp_core.specs.Cores.{code_of, history_of};
ghost use Rattle.asp_core.specs.Plans.{StayByPlan};
ghost use Rattle.core_drives.specs.Driving.{HaveRun, IsDriving};
ghost use Rattle.core_drives.specs.Steps.{
  Commits,
  Delivers,
  IsStepped,
  Lead,
  Lends,
  Runs,
  ran_after,
  step_shape,
};

use crate::steps::Step;
use asp_core::Core;
use asp_model::Delivery;
use core_state::Lease;
use std::alloc::AllocError;
use std::collections::BTreeMap;
use update_policy::UpdatePolicy;

/// A core, and each lease that is out, by its number.
#[derive(Drop)]
pub struct Driver<P> {
    pub core: Core<P>,
    pub leases: BTreeMap<u32, Lease>,
}

impl<P: UpdatePolicy> Driver<P> {
    fn lend(&mut self, number: u32) -> Result<(), AllocError>
        requires driving { IsDriving self.old }
        ensures driving { OnOk result (IsDriving self.new) }
        ensures by_plan { OnOk result
            (StayByPlan P.answer P.asked self.old.core.edges self.new.core.edges) }
        ensures stepped { (ran : ℕ → Bool) → let step = Lends number in
            let old = history_of self.old.core in
            OnOk result (IsStepped step ran old (history_of self.new.core)) }
        ensures ran { (ran : ℕ → Bool) → HaveRun ran self.old → let step = Lends number in
            OnOk result (HaveRun (ran_after step ran) self.new) }
    {
        if number as usize >= self.core.activities() {
            return Ok(());
        }
        if let Some(lease) = self.core.lend(number) {
            self.leases.insert(number, lease)?;
        }
        Ok(())
    }

    fn work(&mut self, number: u32) -> Result<(), AllocError>
        requires driving { IsDriving self.old }
        ensures driving { OnOk result (IsDriving self.new) }
        ensures by_plan { OnOk result
            (StayByPlan P.answer P.asked self.old.core.edges self.new.core.edges) }
        ensures same { OnOk result (self.new.core ≡ self.old.core) }
        ensures ran { (ran : ℕ → Bool) → HaveRun ran self.old → let step = Runs number in
            OnOk result (HaveRun (ran_after step ran) self.new) }
    {
        if let Some(mut lease) = self.leases.remove(&number) {
            lease.run()?;
            self.leases.insert(number, lease)?;
        }
        Ok(())
    }

    fn commit(&mut self, number: u32) -> Result<(), AllocError>
        requires driving { IsDriving self.old }
        ensures driving { OnOk result (IsDriving self.new) }
        ensures by_plan { OnOk result
            (StayByPlan P.answer P.asked self.old.core.edges self.new.core.edges) }
        ensures stepped { (ran : ℕ → Bool) → HaveRun ran self.old →
            let step = Commits number in
            let old = history_of self.old.core in
            OnOk result (IsStepped step ran old (history_of self.new.core)) }
        ensures ran { (ran : ℕ → Bool) → HaveRun ran self.old → let step = Commits number in
            OnOk result (HaveRun (ran_after step ran) self.new) }
    {
        match self.leases.remove(&number) {
            Some(lease) => self.core.commit(lease),
            None => Ok(()),
        }
    }

    fn deliver(&mut self, delivery: &Delivery) -> Result<(), AllocError>
        requires driving { IsDriving self.old }
        ensures driving { OnOk result (IsDriving self.new) }
        ensures by_plan { OnOk result
            (StayByPlan P.answer P.asked self.old.core.edges self.new.core.edges) }
        ensures stepped { (ran : ℕ → Bool) → let step = Delivers (delivery_shape delivery.now) in
            let old = history_of self.old.core in
            OnOk result (IsStepped step ran old (history_of self.new.core)) }
        ensures ran { (ran : ℕ → Bool) → HaveRun ran self.old →
            let step = Delivers (delivery_shape delivery.now) in
            OnOk result (HaveRun (ran_after step ran) self.new) }
    {
        if self.core.may_deliver(delivery) {
            self.core.deliver(delivery)
        } else {
            Ok(())
        }
    }

    /// Takes a step whose condition holds. Any other step changes nothing.
    pub fn step(&mut self, step: &Step) -> Result<(), AllocError>
        requires driving { IsDriving self.old }
        ensures driving { OnOk result (IsDriving self.new) }
        ensures by_plan { OnOk result
            (StayByPlan P.answer P.asked self.old.core.edges self.new.core.edges) }
        ensures stepped { (ran : ℕ → Bool) → HaveRun ran self.old →
            let step = step_shape step.now in
            let old = history_of self.old.core in
            OnOk result (IsStepped step ran old (history_of self.new.core)) }
        ensures ran { (ran : ℕ → Bool) → HaveRun ran self.old →
            let step = step_shape step.now in
            OnOk result (HaveRun (ran_after step ran) self.new) }
    {
        match step {
            Step::Lend(number) => self.lend(*number),
            Step::Local(number) => self.work(*number),
            Step::Commit(number) => self.commit(*number),
            Step::Deliver(delivery) => self.deliver(delivery),
        }
    }

    /// Takes steps in their order.
    pub fn take(&mut self, steps: &[Step]) -> Result<(), AllocError>
        requires driving { IsDriving self.old }
        ensures driving { OnOk result (IsDriving self.new) }
        ensures by_plan { OnOk result
            (StayByPlan P.answer P.asked self.old.core.edges self.new.core.edges) }
        ensures leads { (ran : ℕ → Bool) → HaveRun ran self.old →
            let steps = map step_shape steps.now in
            let old = history_of self.old.core in
            OnOk result (Lead steps ran old (history_of self.new.core)) }
    {
        for step in steps {
            self.step(step)?;
        }
        Ok(())
    }
}
