//! How far a trace has been read.

ghost use Rattle.std.specs.Prelude.{◌≡◌};
ghost use Rattle.trace_text.specs.Traces.{before_lines};

use asp_model::Entry;
use std::alloc::Global;

/// What may stand in the next line.
#[derive(Drop)]
pub enum Next {
    Title,
    /// An entry, or `end`.
    Entries,
    /// Nothing.
    Over,
}

/// What was read so far.
#[derive(Drop)]
pub struct Progress {
    pub next: Next,
    pub entries: Vec<Entry>,
}

impl Progress {
    ghost use Rattle.trace_text.specs.Progress.{progress_shape};

    /// Before the first line.
    pub fn new(alloc: Global) -> Progress
        ensures before { progress_shape result ≡ before_lines }
    {
        Progress {
            next: Next::Title,
            entries: Vec::new(alloc),
        }
    }
}
