//! A history with one entry more.

ghost use Rattle.law_journals.specs.Growing.{EntriesGoOn, HoldersGoOn};

/// Its run is that of the entry.
pub fn entries_go_on()
    ensures { EntriesGoOn }
{}

/// Its holders are those after the events of the entry.
pub fn holders_go_on()
    ensures { HoldersGoOn }
{}
