//! Texts cut at a byte.

ghost use Rattle.std.specs.Prelude.{◌≡◌, map, IfOk};
ghost use Rattle.asp_model.specs.ReportLines.{parts};

use std::alloc::{AllocError, Global};

/// What stands before, between and behind the bytes of this value.
pub fn cut(alloc: Global, byte: u8, text: &[u8]) -> Result<Vec<&[u8]>, AllocError>
    ensures parts { IfOk result (λ v. map (λ p. p.now) v.items ≡ parts byte text.now) }
{
    text.split(|b| *b == byte).collect(alloc)
}
