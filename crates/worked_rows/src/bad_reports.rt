//! Reports with a bad line, and reports that are read all the same.

ghost use Rattle.worked_rows.specs.BadReports.{Versions, WholeReports, WrongForms, WrongNumbers, WrongOrders, CutReports};

/// Outputs and statuses that a reader does not look at.
pub fn whole_reports()
    ensures read { WholeReports }
{}

/// Logs with polls, and without them in version 1.
pub fn versions()
    ensures read { Versions }
{}

/// Lines that have not their form.
pub fn line_forms()
    ensures bad_lines { WrongForms }
{}

/// Counts, numbers and indexes out of their range.
pub fn numbers_in_lines()
    ensures bad_lines { WrongNumbers }
{}

/// Names that do not begin with main, or do not rise.
pub fn orders_of_names()
    ensures bad_lines { WrongOrders }
{}

/// Reports that end too early.
pub fn cut_reports()
    ensures bad_lines { CutReports }
{}
