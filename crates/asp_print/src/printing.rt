//! The text of a program.

ghost use Rattle.std.specs.Prelude.{◌≡◌, IfOk, string_bytes};
ghost use Rattle.asp_model.specs.Shapes.{marked_of};
ghost use Rattle.syntax_tokens.specs.Texts.{text_of};
ghost use Rattle.asp_print.specs.Tokens.{tokens_of};
ghost use Rattle.asp_print.specs.Correct.{IsPrintOf};

use crate::terms::print_term;
use asp_model::Program;
use std::alloc::{AllocError, Global};

/// The text of a program: its tokens, with one blank between two. Time and memory are linear in the
/// text, and only its levels are nested.
pub fn print_program(alloc: Global, program: &Program) -> Result<String, AllocError>
    ensures text { let tokens = tokens_of (marked_of program.now.root) in
        IfOk result (λ s. string_bytes s ≡ text_of tokens) }
    ensures same { IfOk result (λ s. IsPrintOf (marked_of program.now.root) (string_bytes s)) }
{
    let mut text = String::new(alloc);
    print_term(alloc, &mut text, &program.root)?;
    text.pop();
    Ok(text)
}
