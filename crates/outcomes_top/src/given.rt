//! The given reports, which are checked to be all ends.

ghost use Rattle.std.specs.Prelude.{◌≡◌, ◌≤◌, [], ◌∷◌, ◌++◌, IfOk, IfErr, OnOk, map, true, false};
ghost use Rattle.asp_model.specs.Shapes.{counts_shape, lists_shape, tree_of, verdict_shape};
ghost use Rattle.asp_model.specs.Status.{Budget};
ghost use Rattle.asp_model.specs.Term.{Tree};
ghost use Rattle.asp_top.specs.Programs.{AsksInTurn};
ghost use Rattle.asp_top.specs.Replayed.{IsReplayable};
ghost use Rattle.asp_top.specs.Seen.{outside};
ghost use Rattle.asp_top.specs.Stops.{AsksOnce};
ghost use Rattle.outcome_search.specs.Ends.{AreReplayableEnds, IsReplayableEnd, run_logs};
ghost use Rattle.outcomes_top.specs.Given.{ShowEnds, ShowsEnd};
ghost use Rattle.outcomes_top.specs.Surveys.{HaltsAmong, HaltsIn, HaltsReplay};
ghost use Rattle.outcomes_words.specs.Shapes.{texts_behind};
ghost use Rattle.replay_one.specs.Listed.{AreReplayable};

use crate::halt::{Fault, Halt};
use asp_check::Checked;
use asp_edge::{ReadError, Source};
use asp_model::{Counts, Lists, MOST_REPORT_BYTES, Verdict};
use asp_top::Stop;
use outcome_search::EndedRun;
use replay_one::{ReplayStop, replay};
use sender_log::{LogError, read_report};
use std::alloc::{AllocError, Global};

// The logs and counts that the report in the file of this name shows.
fn logs_in<'a, S: Source>(
    alloc: Global,
    name: &'a str,
    source: &mut S,
) -> Result<(Lists, Counts), Halt<'a>>
    ensures log { IfOk result (IsReplayable (outside S.told source) name.entry.now) }
    ensures halt { (program : Tree) →
        IfErr result (HaltsIn (outside S.told source) 0 program name.entry.now) }
    ensures asked { AsksOnce (outside S.told source) name.entry.now }
    ensures same { (S.told source.new).content ≡ (S.told source.old).content }
    ensures later { (S.told source.old).faults ≤ (S.told source.new).faults }
{
    match source.read(name, MOST_REPORT_BYTES) {
        Ok(bytes) => match read_report(alloc, &bytes) {
            Ok(log) => Ok(log),
            Err(LogError::BadLine { line }) => Err(Halt::Given(name, Fault::Line(line))),
            Err(LogError::Memory) => Err(Halt::Stop(Stop::Memory)),
        },
        Err(ReadError::Failed) => Err(Halt::Given(name, Fault::Unread)),
        Err(ReadError::TooLong { taken: _ }) => Err(Halt::Given(name, Fault::Long)),
        Err(ReadError::Memory) => Err(Halt::Stop(Stop::Memory)),
    }
}

fn goes_on(verdict: Verdict) -> bool
    ensures on { result ≡ true → verdict_shape verdict ≡ Budget }
    ensures ended { result ≡ false → verdict_shape verdict ≡ Budget → ⊥ }
{
    match verdict {
        Verdict::End | Verdict::Blocked => false,
        Verdict::Budget => true,
    }
}

// These logs and counts are an end, or the file of this name has none.
fn ended_run<'a>(
    alloc: Global,
    program: &Checked,
    name: &'a str,
    lists: Lists,
    counts: Counts,
) -> Result<EndedRun, Halt<'a>>
    requires replayable { AreReplayable (lists_shape lists) (counts_shape counts) }
    ensures same { IfOk result (λ e. run_logs e ≡ (lists_shape lists, counts_shape counts)) }
    ensures end { let tree = tree_of program.now.program.root in
        IfOk result (λ e. IsReplayableEnd tree (run_logs e)) }
    ensures halt { let tree = tree_of program.now.program.root in IfErr result
        (HaltsReplay tree (lists_shape lists) (counts_shape counts) name.entry.now) }
{
    match replay(alloc, program, &lists, &counts) {
        Ok(end) => {
            if goes_on(end.outcome.verdict) {
                return Err(Halt::Given(name, Fault::GoesOn));
            }
            Ok(EndedRun { lists, counts })
        }
        Err(ReplayStop::Diverged { activity }) => {
            Err(Halt::Given(name, Fault::Diverges(activity)))
        }
        Err(ReplayStop::Memory) => Err(Halt::Stop(Stop::Memory)),
    }
}

// The ended run that the report in the file of this name shows.
fn end_in<'a, S: Source>(
    alloc: Global,
    program: &Checked,
    name: &'a str,
    source: &mut S,
) -> Result<EndedRun, Halt<'a>>
    ensures shown { let tree = tree_of program.now.program.root in IfOk result
        (λ e. ShowsEnd (outside S.told source) 0 tree name.entry.now (run_logs e)) }
    ensures end { let tree = tree_of program.now.program.root in
        IfOk result (λ e. IsReplayableEnd tree (run_logs e)) }
    ensures halt { let tree = tree_of program.now.program.root in
        IfErr result (HaltsIn (outside S.told source) 0 tree name.entry.now) }
    ensures asked { AsksOnce (outside S.told source) name.entry.now }
    ensures same { (S.told source.new).content ≡ (S.told source.old).content }
    ensures later { (S.told source.old).faults ≤ (S.told source.new).faults }
{
    let (lists, counts) = logs_in(alloc, name, source)?;
    ended_run(alloc, program, name, lists, counts)
}

fn keep(ends: &mut Vec<EndedRun>, end: EndedRun) -> Result<(), AllocError>
    ensures { OnOk result (ends.new.items ≡ ends.old.items ++ end ∷ []) }
{
    ends.push(end)?;
    Ok(())
}

/// The ended runs that the reports in the files of these names show.
pub fn ends_in<'a, S: Source>(
    alloc: Global,
    program: &Checked,
    names: &[&'a str],
    source: &mut S,
) -> Result<Vec<EndedRun>, Halt<'a>>
    ensures shown { let tree = tree_of program.now.program.root in IfOk result (λ v. ShowEnds
        (outside S.told source) 0 tree (texts_behind names.entry.now) (map run_logs v.items)) }
    ensures ends { let tree = tree_of program.now.program.root in
        IfOk result (λ v. AreReplayableEnds tree (map run_logs v.items)) }
    ensures halt { let tree = tree_of program.now.program.root in IfErr result
        (HaltsAmong (outside S.told source) 0 tree (texts_behind names.entry.now)) }
    ensures reads { AsksInTurn (outside S.told source) (texts_behind names.entry.now) }
    ensures same { (S.told source.new).content ≡ (S.told source.old).content }
    ensures later { (S.told source.old).faults ≤ (S.told source.new).faults }
{
    let mut ends = Vec::new(alloc);
    for number in 0..names.len() {
        let end = end_in(alloc, program, names[number], source)?;
        keep(&mut ends, end)?;
    }
    Ok(ends)
}
