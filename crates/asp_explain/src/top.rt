//! The call.

ghost use Rattle.asp_explain.specs.Endings.{Ends};
ghost use Rattle.asp_explain.specs.Seen.{saw};

use crate::answer::answer_of;
use crate::writing::{refuse, write_answer};
use asp_edge::{Sink, Source};
use std::alloc::Global;

/// Tells what the words ask for, by one write: what is wrong with the program in a file, or why the
/// run stands as it does that a report of it shows. Status 0 says that the program has no fault, and
/// 3 that it has one.
pub fn run_explain<S: Source, O: Sink, E: Sink>(
    alloc: Global,
    words: &[String],
    source: &mut S,
    out: &mut O,
    err: &mut E,
) -> u8
    ensures ends { Ends (saw S.told O.told E.told words.now source out err) result }
{
    match answer_of(alloc, words, source) {
        Ok(answer) => write_answer(&answer, out, err),
        Err(stop) => refuse(alloc, &stop, err),
    }
}
