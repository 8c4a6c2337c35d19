//! The call.

ghost use Rattle.asp_top.specs.Seen.{bytes_of, outside, saw};
ghost use Rattle.outcomes_top.specs.Correct.{Completes};
ghost use Rattle.outcomes_top.specs.Endings.{Ends, ReadsFiles};

use crate::answer::answer_of;
use crate::writing::halt;
use asp_edge::{Sink, Source};
use asp_top::write_prepared;
use end_search::ProgressBox;
use std::alloc::Global;

/// Tells the outcomes of the program in the file that the words name: of its ends, found one by
/// one until they are all or the search is cut off, what a user sees, and how many look so. Ends are
/// found by classes of labels; by whole orders with `--whole-orders`, and if a run polls. With
/// `--check-ends FILE ..` it looks for none: the ends are those whose reports are in these files,
/// and it checks whether they are all. With `--report K` it writes the report of the first end of
/// that outcome. The words come first, then the program's file, its reading and its check, each
/// given report's file and its replay, and the ends; the first refusal in this order ends the call.
/// A search tells `progress` how far it is.
pub fn run_outcomes<S: Source, O: Sink, E: Sink>(
    alloc: Global,
    words: &[String],
    source: &mut S,
    out: &mut O,
    err: &mut E,
    progress: &ProgressBox,
) -> u8
    // How the call ends: the status, what the source handed out, and what `out` and `err` took.
    ensures ends { Ends (saw S.told O.told E.told words.now source out err) result }

    // Which files are read.
    ensures reads { ReadsFiles (bytes_of words.now) (outside S.told source) }

    // The main theorem: with 0, 1 or 4 the ends that are told are all that the program has.
    ensures complete { Completes (saw S.told O.told E.told words.now source out err) result }
{
    match answer_of(alloc, words, source, progress) {
        Ok(prepared) => write_prepared(&prepared, out, err),
        Err(stop) => halt(alloc, &stop, err),
    }
}
