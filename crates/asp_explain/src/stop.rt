//! Why there is nothing to tell.

ghost use Rattle.std.specs.Prelude.{◌≡◌};
ghost use Rattle.asp_explain.specs.Refusals.{cut_refusal, log_stop, refusal_of, replay_stop};
ghost use Rattle.asp_explain.specs.declared.stop.Stop.TheVariants as stops;

use asp_model::ActivityName;
use replay_one::ReplayStop;
use run_waits::{CutReportStop, CutStop};
use sender_log::LogError;
use std::alloc::AllocError;

/// Which of the reports.
#[derive(Clone, Copy)]
pub enum Which {
    /// REPORT.
    First,
    /// That of `--other`.
    Second,
}

/// Why there is nothing to tell.
#[derive(Drop)]
pub enum Stop<'a> {
    /// The words are refused.
    Usage,
    /// The source failed at the file of this name.
    Unread(&'a str),
    /// There are more bytes than a program may have.
    TooLong,
    /// There are more bytes than a report may have.
    LongReport(Which),
    /// The line of this number is the first one of a report that cannot stand in its place.
    BadLine(Which, u64),
    /// The report does not fit the program, and this is the least activity that shows it.
    Diverged(Which, ActivityName),
    /// The run has no activity of this name.
    NoActivity(&'a str),
    /// The report has no activity of this name, or it has made fewer reductions than these.
    NoCount(&'a str, u64),
    /// The run is larger than what is drawn.
    LargePicture,
    Memory,
}

impl Stop<'_> {
    /// What an error in one of the reports stops at.
    pub fn of_log(which: Which, error: LogError) -> Self
        ensures { result ≡ log_stop which error }
    {
        match error {
            LogError::BadLine { line } => Stop::BadLine(which, line),
            LogError::Memory => Stop::Memory,
        }
    }

    /// What a stop of its replay stops at.
    pub fn of_replay(which: Which, stop: ReplayStop) -> Self
        ensures { result ≡ replay_stop which stop }
    {
        match stop {
            ReplayStop::Diverged { activity } => Stop::Diverged(which, activity),
            ReplayStop::Memory => Stop::Memory,
        }
    }
}

impl<'a> Stop<'a> {
    /// What a report that is not cut back stops at.
    pub fn of_cut(activity: &'a str, count: u64, stop: CutReportStop) -> Self
        ensures { refusal_of result ≡ cut_refusal activity.entry.now count stop }
    {
        match stop {
            CutReportStop::NoName => Stop::NoCount(activity, count),
            CutReportStop::NoCut(CutStop::Beyond) => Stop::NoCount(activity, count),
            CutReportStop::NoCut(CutStop::Diverged { activity }) => {
                Stop::Diverged(Which::First, activity)
            }
            CutReportStop::NoCut(CutStop::Memory) => Stop::Memory,
            CutReportStop::Memory => Stop::Memory,
        }
    }
}

impl From<AllocError> for Stop<'_> {
    ghost from_gives = { λ _ s. s ≡ stops.Memory };

    fn from(_error: AllocError) -> Self {
        Stop::Memory
    }
}
