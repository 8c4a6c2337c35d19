//! Checked programs.

ghost use Rattle.std.specs.Prelude.{◌≡◌, IfOk, IfErr};
ghost use Rattle.asp_model.specs.Readable.{IsReadable};
ghost use Rattle.asp_model.specs.Shapes.{marked_of, tree_of};
ghost use Rattle.asp_check.specs.Faults.{IsChecked};
ghost use Rattle.asp_check.specs.ReadableProp.{readable_prop as one_proof};

use asp_model::Program;

/// A program that was read, and has no fault.
pub struct Checked {
    program: Program,
    ghost readable: { IsReadable (tree_of program.root) } by { one_proof (tree_of program.root) },
    ghost checked: { IsChecked (marked_of program.root) },
}

// Written out, so that crates above drop it by one call.
impl Drop for Checked {
    fn drop(self) {
        let Checked { program: _ } = self;
    }
}

impl Checked {
    pub(crate) fn new(program: Program) -> Checked
        requires readable { IsReadable (tree_of program.root) }
        requires checked { IsChecked (marked_of program.root) }
        ensures { result.program ≡ program }
    {
        Checked { program }
    }

    /// The program.
    pub fn program(&self) -> &Program
        ensures program { result.now ≡ self.now.program }
        ensures readable { IsReadable (tree_of result.now.root) }
        ensures checked { IsChecked (marked_of result.now.root) }
    {
        &self.program
    }
}
