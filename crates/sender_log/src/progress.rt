//! How far a report has been read.

ghost use Rattle.std.specs.Prelude.{◌≡◌, ◌≤◌};
ghost use Rattle.asp_model.specs.declared.limits.TheConstants.{MOST_REDUCTIONS};
ghost use Rattle.asp_model.specs.Replay.{total as sum_of};

use asp_model::{ActivityName, Reception};
use std::alloc::Global;

/// What may stand in the next line.
#[derive(Drop)]
pub enum Next {
    Title,
    Verdict,
    /// The activity line of main.
    Main,
    /// The senders line of this activity.
    Senders(ActivityName),
    /// An output, the line of an activity with a greater name, or the end.
    Later(ActivityName),
}

/// What was read so far.
#[derive(Drop)]
pub struct Progress {
    pub next: Next,
    pub lists: Vec<(ActivityName, Vec<Reception>)>,
    pub counts: Vec<(ActivityName, u64)>,
    /// The sum of the counts.
    pub total: u64,
    /// A log may have polls.
    pub polls: bool,
    pub ghost sum: { total ≡ sum_of counts.items },
    pub ghost within: { total ≤ MOST_REDUCTIONS },
}

impl Progress {
    ghost use Rattle.sender_log.specs.Progress.{before_lines, progress_shape};

    /// Before the first line.
    pub fn new(alloc: Global) -> Progress
        ensures before { progress_shape result ≡ before_lines }
    {
        Progress {
            next: Next::Title,
            lists: Vec::new(alloc),
            counts: Vec::new(alloc),
            total: 0,
            polls: false,
        }
    }
}
