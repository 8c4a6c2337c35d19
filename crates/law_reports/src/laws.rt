//! The laws between writing a report and reading it.

ghost use Rattle.law_reports.specs.Depths.{ReportsToDepthsAreRead};
ghost use Rattle.law_reports.specs.Laws.{ReportsAreRead};

/// The report of a well-formed outcome is read as its logs and counts.
pub fn reports_are_read()
    ensures read { ReportsAreRead }
{}

/// So is one that shows states, at every depth.
pub fn reports_to_depths_are_read()
    ensures read { ReportsToDepthsAreRead }
{}
