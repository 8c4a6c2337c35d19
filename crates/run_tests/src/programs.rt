//! Programs that are checked.

use asp_check::{Checked, check};
use asp_syntax::read_program;
use std::alloc::Global;
use std::test::Fail;

/// The program of a text.
pub fn checked(alloc: Global, text: &str) -> Result<Checked, Fail> {
    let program = read_program(alloc, text.as_bytes())?;
    Ok(check(alloc, program)?)
}

/// Gives a program up. Whoever calls this proves nothing of its parts.
pub fn let_go(program: Checked) {
    drop(program);
}
