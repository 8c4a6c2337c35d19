//! Why there is nothing to write.

ghost use Rattle.std.specs.Prelude.{◌≡◌};
ghost use Rattle.asp_top.specs.Stops.{words_stop, syntax_stop, check_stop, checked_stop, file_stop, log_stop, replay_stop, trace_stop};
ghost use Rattle.asp_top.specs.declared.stop.Stop.TheVariants as stops;

use asp_check::{CheckError, CheckFault};
use asp_model::ActivityName;
use asp_syntax::{SyntaxError, SyntaxFault};
use code_reading::DecodeError;
use command_line::WordsError;
use replay_one::ReplayStop;
use run_files::FileStop;
use sender_log::LogError;
use std::alloc::AllocError;
use trace_check::TraceStop;
use trace_text::TraceError;

/// Which of the reports that are replayed.
#[derive(Clone, Copy)]
pub enum Which {
    /// That of `--replay`.
    First,
    /// That of `--same`.
    Second,
}

/// Why there is nothing to write.
#[derive(Drop)]
pub enum Stop<'a> {
    /// The words are refused.
    Usage,
    /// The source failed at the file of this name.
    Unread(&'a str),
    /// There are more bytes than a program may have.
    LongProgram,
    /// The bytes are no program, and this is their first fault.
    Syntax(SyntaxFault),
    /// The program is not checked, and this is its first fault.
    Check(CheckFault),
    /// There are more bytes than a report may have.
    LongReport(Which),
    /// The line of this number is the first one of a report that cannot stand in its place.
    BadLine(Which, u64),
    /// The report does not fit the program, and this is the least activity that shows it.
    Diverged(Which, ActivityName),
    /// There are more bytes than a trace may have.
    LongTrace,
    /// The line of this number is the first one of a trace that cannot stand in its place.
    NoTrace(u64),
    /// The entry of this number, from 1, is the first one of a trace that is not lawful.
    Unlawful(u64),
    /// The run of a trace has not ended.
    Unfinished,
    /// There are more bytes than a checkpoint may have.
    LongCheckpoint,
    /// The checkpoint is one of another program.
    OtherCheckpoint,
    /// The bytes are no checkpoint, or none from which a run can go on.
    NoCheckpoint,
    /// What a checkpoint has counted and the budget are more than may be counted.
    Overspent,
    Memory,
}

impl Stop<'_> {
    /// What an error in one of the reports stops at.
    pub fn of_log(which: Which, error: LogError) -> Self
        ensures { result ≡ log_stop which error }
    {
        match error {
            LogError::BadLine { line } => Stop::BadLine(which, line),
            LogError::Memory => Stop::Memory,
        }
    }

    /// What a stop of its replay stops at.
    pub fn of_replay(which: Which, stop: ReplayStop) -> Self
        ensures { result ≡ replay_stop which stop }
    {
        match stop {
            ReplayStop::Diverged { activity } => Stop::Diverged(which, activity),
            ReplayStop::Memory => Stop::Memory,
        }
    }
}

impl From<AllocError> for Stop<'_> {
    ghost from_gives = { λ _ s. s ≡ stops.Memory };

    fn from(_error: AllocError) -> Self {
        Stop::Memory
    }
}

// A core's activities have settled and run its code, so this is for want of memory.
impl From<DecodeError> for Stop<'_> {
    ghost from_gives = { λ _ s. s ≡ stops.Memory };

    fn from(_error: DecodeError) -> Self {
        Stop::Memory
    }
}

impl From<WordsError> for Stop<'_> {
    ghost from_gives = { λ e s. s ≡ words_stop e };

    fn from(error: WordsError) -> Self {
        match error {
            WordsError::Usage => Stop::Usage,
            WordsError::Memory => Stop::Memory,
        }
    }
}

impl From<SyntaxError> for Stop<'_> {
    ghost from_gives = { λ e s. s ≡ syntax_stop e };

    fn from(error: SyntaxError) -> Self {
        match error {
            SyntaxError::Fault(fault) => Stop::Syntax(fault),
            SyntaxError::Memory => Stop::Memory,
        }
    }
}

impl From<CheckError> for Stop<'_> {
    ghost from_gives = { λ e s. s ≡ check_stop e };

    fn from(error: CheckError) -> Self {
        match error {
            CheckError::Fault(fault) => Stop::Check(fault),
            CheckError::Memory => Stop::Memory,
        }
    }
}

impl From<TraceError> for Stop<'_> {
    ghost from_gives = { λ e s. s ≡ trace_stop e };

    fn from(error: TraceError) -> Self {
        match error {
            TraceError::BadLine { line } => Stop::NoTrace(line),
            TraceError::Memory => Stop::Memory,
        }
    }
}

impl From<TraceStop> for Stop<'_> {
    ghost from_gives = { λ e s. s ≡ checked_stop e };

    fn from(stop: TraceStop) -> Self {
        match stop {
            TraceStop::Unlawful { entry } => Stop::Unlawful(entry),
            TraceStop::Unfinished => Stop::Unfinished,
            TraceStop::Memory => Stop::Memory,
        }
    }
}

impl From<FileStop> for Stop<'_> {
    ghost from_gives = { λ e s. s ≡ file_stop e };

    fn from(stop: FileStop) -> Self {
        match stop {
            FileStop::OtherProgram => Stop::OtherCheckpoint,
            FileStop::Malformed => Stop::NoCheckpoint,
            FileStop::TooMany => Stop::Overspent,
            FileStop::Memory => Stop::Memory,
        }
    }
}
