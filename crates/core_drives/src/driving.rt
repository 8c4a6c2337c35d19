//! The core to which steps lead.

ghost use Rattle.std.specs.Prelude.{IfOk, map};
ghost use Rattle.asp_model.specs.Shapes.{tree_of};
ghost use Rattle.asp_core.specs.Plans.{AreByPlan};
ghost use Rattle.core_drives.specs.Driven.{IsDriven};
ghost use Rattle.core_drives.specs.Steps.{step_shape};

use crate::drivers::Driver;
use crate::steps::Step;
use asp_check::Checked;
use asp_core::Core;
use std::alloc::{AllocError, Global};
use std::collections::BTreeMap;
use update_policy::{Plan, Policies, UpdatePolicy};

/// The core to which these steps lead from the start of a program, in their order. A step whose
/// condition does not hold changes nothing.
pub fn drive<P: UpdatePolicy + Drop>(
    alloc: Global,
    program: &Checked,
    budget: u64,
    plan: Plan,
    policies: Policies<P>,
    steps: &[Step],
) -> Result<Core<P>, AllocError>
    ensures driven { let program = tree_of program.now.program.root in
        IfOk result (IsDriven program budget (map step_shape steps.now)) }
    ensures by_plan { IfOk result (λ x. AreByPlan P.answer P.asked plan policies x.edges) }
{
    let core = Core::new(alloc, program, budget, plan, policies)?;
    let leases = BTreeMap::new(alloc);
    let mut driver = Driver { core, leases };
    match driver.take(steps) {
        Ok(()) => {
            let Driver { core, leases } = driver;
            drop(leases);
            Ok(core)
        }
        Err(error) => {
            drop(driver);
            Err(error)
        }
    }
}
