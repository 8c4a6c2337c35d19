//! A value that is put where it is needed.

ghost use Rattle.law_peeks.specs.Needs.{NeedsKeepIntents, NeedsKeepReadings, NeedsKeepSteps};

/// The redex is read as before, with one value less to unpack.
pub fn needs_keep_readings()
    ensures { NeedsKeepReadings }
{}

/// So its activity intends the same.
pub fn needs_keep_intents()
    ensures { NeedsKeepIntents }
{}

/// And where the value is delivered, the next step leads where it would have led without.
pub fn needs_keep_steps()
    ensures { NeedsKeepSteps }
{}
