//! Why a run stands as it does.

ghost use Rattle.std.specs.Prelude.{IfErr, IfOk};
ghost use Rattle.asp_model.specs.Shapes.{counts_shape, lists_shape, tree_of};
ghost use Rattle.replay_one.specs.Listed.{AreReplayable};
ghost use Rattle.asp_explain.specs.Refusals.{refusal_of};
ghost use Rattle.asp_explain.specs.Seen.{outside};
ghost use Rattle.asp_explain.specs.Given.{StopsReplay};
ghost use Rattle.asp_explain.specs.OfRun.{IsRunTold, StopsRun, TellsOfRun};
ghost use Rattle.asp_explain.specs.declared.stop.Which.TheVariants.{First};

use crate::answer::{Answer, answer_with};
use crate::loading::{Given, Loaded, load};
use crate::stop::{Stop, Which};
use asp_edge::Source;
use explain::tell_run;
use run_waits::explain_run;
use std::alloc::Global;

/// What there is to tell of the run that a report shows.
pub fn of_run<'a, S: Source>(
    alloc: Global,
    file: &'a str,
    report: &'a str,
    source: &mut S,
) -> Result<Answer, Stop<'a>>
    ensures answer { IfOk result (λ a. TellsOfRun (outside S.told source)
        file.entry.now report.entry.now a.text.items a.status) }
    ensures stop { IfErr result (λ s. StopsRun (outside S.told source)
        file.entry.now report.entry.now (refusal_of s)) }
{
    match load(alloc, file, report, source)? {
        Loaded::Faulty(answer) => Ok(answer),
        Loaded::Given(given) => {
            let told = told(alloc, &given);
            given.discard();
            told
        }
    }
}

// What there is to tell of it.
fn told<'a>(alloc: Global, given: &Given<'_>) -> Result<Answer, Stop<'a>>
    requires replayable { AreReplayable (lists_shape given.now.lists)
        (counts_shape given.now.counts) }
    ensures told { let tree = tree_of given.now.program.program.root in IfOk result
        (λ a. IsRunTold tree (lists_shape given.now.lists) (counts_shape given.now.counts) a.status) }
    ensures stop { let tree = tree_of given.now.program.program.root in
        let lists = lists_shape given.now.lists in let counts = counts_shape given.now.counts in
        IfErr result (λ s. StopsReplay tree lists counts First (refusal_of s)) }
{
    match explain_run(alloc, &given.program, &given.lists, &given.counts) {
        Ok(run) => {
            let text = tell_run(alloc, given.file, &given.bytes, &run);
            run.discard();
            Ok(answer_with(text?))
        }
        Err(stop) => Err(Stop::of_replay(Which::First, stop)),
    }
}
