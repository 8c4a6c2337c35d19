//! The check of a program.

ghost use Rattle.std.specs.Prelude.{◌≡◌, IfOk, IfErr, None};
ghost use Rattle.asp_model.specs.Readable.{IsReadable};
ghost use Rattle.asp_model.specs.Shapes.{marked_of, tree_of};
ghost use Rattle.asp_check.specs.Faults.{faults_of, IsChecked, IsFirstFault};
ghost use Rattle.asp_check.specs.Least.{least_of};
ghost use Rattle.asp_check.specs.declared.fault.CheckFault.{CheckFault};
ghost use Rattle.asp_check.specs.declared.fault.CheckError.TheVariants as errors;

use crate::arity::{first_arities, note_arities};
use crate::checked::Checked;
use crate::fault::{CheckError, CheckFault};
use crate::walk::Walk;
use asp_model::Program;
use std::alloc::{AllocError, Global};

/// Checks a program that was read. One that is refused is dropped.
pub fn check(alloc: Global, program: Program) -> Result<Checked, CheckError>
    requires readable { IsReadable (tree_of program.root) }
    ensures checked { IfOk result (λ c. c.program ≡ program × IsChecked (marked_of program.root)) }
    ensures fault { let text = marked_of program.root in
        IfErr result (λ e. (f : CheckFault) → e ≡ errors.Fault f → IsFirstFault text f) }
    ensures only { IfErr result (λ e. IsChecked (marked_of program.root) → e ≡ errors.Memory) }
{
    match first_fault(alloc, &program) {
        Ok(None) => Ok(Checked::new(program)),
        Ok(Some(fault)) => {
            drop(program);
            Err(CheckError::Fault(fault))
        }
        Err(AllocError) => {
            drop(program);
            Err(CheckError::Memory)
        }
    }
}

fn first_fault(alloc: Global, program: &Program) -> Result<Option<CheckFault>, AllocError>
    ensures { IfOk result (λ f. f ≡ least_of None (faults_of (marked_of program.now.root))) }
{
    let mut walk = Walk::new(alloc);
    walk.visit(&program.root)?;
    let Walk {
        arities,
        mut least,
        ..
    } = walk;
    let known = first_arities(alloc, &arities)?;
    note_arities(&mut least, &known, &arities);
    Ok(least)
}
