//! Why nothing is told.

ghost use Rattle.std.specs.Prelude.{◌≡◌};
ghost use Rattle.asp_top.specs.declared.stop.Stop.TheVariants as stops;
ghost use Rattle.outcomes_top.specs.declared.halt.Halt.TheVariants as halts;

use asp_model::ActivityName;
use asp_top::Stop;
use outcomes_words::Choice;
use std::alloc::AllocError;

/// Why the file of a given report is refused.
#[derive(Drop)]
pub enum Fault {
    /// The source failed at it.
    Unread,
    /// There are more bytes than a report may have.
    Long,
    /// The line of this number is the first one of a report that cannot stand in its place.
    Line(u64),
    /// The report does not fit the program, and this is the least activity that shows it.
    Diverges(ActivityName),
    /// The replay can go on.
    GoesOn,
}

/// Why nothing is told.
#[derive(Drop)]
pub enum Halt<'a> {
    /// The words ask for nothing.
    Usage,
    /// There is no checked program in the file, or memory ran out.
    Stop(Stop<'a>),
    /// The given report in the file of this name is refused.
    Given(&'a str, Fault),
    /// There is no outcome, or no end, of this number.
    Missing(Choice),
}

impl<'a> From<Stop<'a>> for Halt<'a> {
    ghost from_gives = { λ s h. h ≡ halts.Stop s };

    fn from(stop: Stop<'a>) -> Self {
        Halt::Stop(stop)
    }
}

impl From<AllocError> for Halt<'_> {
    ghost from_gives = { λ _ h. h ≡ halts.Stop stops.Memory };

    fn from(_error: AllocError) -> Self {
        Halt::Stop(Stop::Memory)
    }
}
