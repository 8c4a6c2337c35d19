//! The top call.

ghost use Rattle.std.specs.Prelude.{◌≡◌, ◌⊎◌, None};
ghost use Rattle.command_line.specs.Task.{task_of};
ghost use Rattle.asp_top.specs.Seen.{Fails, SomeReadFails, bytes_of, outside, saw, sight};
ghost use Rattle.asp_top.specs.Programs.{ReadsFiles};
ghost use Rattle.asp_top.specs.Correct.{Reports};
ghost use Rattle.asp_top.specs.Endings.{Ends};
ghost use Rattle.asp_top.specs.Statuses.{IsNotReplayed, IsNotResumed, IsNotTraced, IsUnfit, SaysBlocked, SaysBudget, SaysEnd};
ghost use Rattle.asp_top.specs.Expected.{Completes, IsUsageEnd, RefusesCheckpoints, RefusesPrograms, RefusesReports, RefusesTraces};

use crate::prepare::prepare;
use crate::writing::{refuse, write_prepared};
use asp_edge::{Sink, Source};
use std::alloc::Global;
use std::sync::Wait;
use std::thread::Threads;
use update_policy::Policies;
use worker_pool::Gate;

// The call, of which the public one says what follows.
fn run_words<R: Threads + Wait + Sync, S: Source, O: Sink, E: Sink, G: Gate>(
    rt: &R,
    alloc: Global,
    words: &[String],
    source: &mut S,
    out: &mut O,
    err: &mut E,
    policies: Policies,
    gate: &G,
) -> u8
    ensures ends { Ends (saw S.told O.told E.told words.now source out err) result }
    ensures reads { ReadsFiles (bytes_of words.now) (outside S.told source) }
{
    match prepare(rt, alloc, words, source, policies, gate) {
        Ok(prepared) => write_prepared(&prepared, out, err),
        Err(stop) => refuse(alloc, &stop, err),
    }
}

/// Runs the command that the words give, and writes its text, one write for each line. `asp FILE`
/// runs the program in a file and writes its report, `asp FILE --replay REPORT` replays a report of
/// it, with `--same OTHER` it replays two and says what services could tell, `asp FILE --check`
/// reads and checks it, `asp FILE --determinate` runs it and says behind the report whether there
/// is another, `asp FILE --journal` runs it and writes the trace of what its core did, in pieces,
/// `asp FILE --save` runs it and writes its checkpoint in place of the report where the budget runs
/// out, `asp FILE --resume C` goes on from such a checkpoint, with `--save` to the next one,
/// `asp FILE --trace T` checks such a trace and writes the report of its run, and `asp --make N`
/// runs the generated program of N pairs and writes a summary. With `--state D` a report shows the
/// states of its activities. A run asks the policy of each future's strategy, which `--strategy`
/// and `--update` name, how the future's value is to come to the activities that it was passed to;
/// the policies are dropped when the call ends, if not before. Workers race for the run, 4 or as
/// many as `--workers` says, and each passes the gate between its work and the turn in which that
/// is committed. The words come first, then the program's file, the reading, the check, the run, or
/// each report's file and its replay, or the trace's or the checkpoint's file and its run, and the
/// writing; the first refusal in this order ends the call. All lines are made before the first is
/// written.
pub fn run_asp<R: AllocGlobal + Threads + Wait + Sync, S: Source, O: Sink, E: Sink, G: Gate>(
    rt: &R,
    words: &[String],
    source: &mut S,
    out: &mut O,
    err: &mut E,
    policies: Policies,
    gate: &G,
) -> u8
    // How the call ends: the status, what the source handed out, and what `out` and `err` took.
    ensures ends { Ends (saw S.told O.told E.told words.now source out err) result }

    // Which files are read.
    ensures reads { ReadsFiles (bytes_of words.now) (outside S.told source) }

    // The main theorem.
    ensures report { Reports (saw S.told O.told E.told words.now source out err) result }

    // What each status says.
    ensures ended_only { (result ≡ 0) ⊎ (result ≡ 1)
        → SaysEnd (saw S.told O.told E.told words.now source out err) result }
    ensures blocked_only { result ≡ 4
        → SaysBlocked (saw S.told O.told E.told words.now source out err) result }
    ensures budget_only { result ≡ 5
        → SaysBudget (saw S.told O.told E.told words.now source out err) result }
    ensures usage_only { result ≡ 2 → task_of (bytes_of words.now) ≡ None }
    ensures program_only { result ≡ 3
        → IsUnfit (saw S.told O.told E.told words.now source out err) }
    ensures read_fault_only { result ≡ 6 → SomeReadFails (outside S.told source) }
    ensures write_fault_only { result ≡ 7
        → Fails (sight O.told out) ⊎ Fails (sight E.told err) }
    ensures replay_only { result ≡ 9
        → IsNotReplayed (saw S.told O.told E.told words.now source out err) }
    ensures trace_only { result ≡ 10
        → IsNotTraced (saw S.told O.told E.told words.now source out err) }
    ensures resume_only { result ≡ 11
        → IsNotResumed (saw S.told O.told E.told words.now source out err) }

    // Which status comes.
    ensures usage { task_of (bytes_of words.now) ≡ None → IsUsageEnd result }
    ensures unfit { RefusesPrograms (saw S.told O.told E.told words.now source out err) result }
    ensures no_replay { RefusesReports (saw S.told O.told E.told words.now source out err) result }
    ensures no_trace { RefusesTraces (saw S.told O.told E.told words.now source out err) result }
    ensures no_resume { let call = saw S.told O.told E.told words.now source out err in
        RefusesCheckpoints call result }
    ensures complete { Completes (saw S.told O.told E.told words.now source out err) result }
{
    run_words(rt, rt.alloc(), words, source, out, err, policies, gate)
}
