//! Numbers, texts, branches and budgets of main.

ghost use Rattle.worked_rows.specs.Numbers.{SumReports, CutSumReports, OverflowReports, ZeroDivisorReports, SignsReport, LeastQuotientReports, LeastRemainderReports, EndlessReports, LiteralReports, ChoosingReports};

/// Literals, a sum and a print, whole and cut short by a budget.
pub fn sums()
    ensures report { SumReports }
    ensures cut { CutSumReports }
{}

/// A sum out of range, and a divisor 0.
pub fn number_faults()
    ensures overflow { OverflowReports }
    ensures zero_divisor { ZeroDivisorReports }
{}

/// Quotients cut toward zero, remainders with the dividend's sign, comparisons, and the least number by -1.
pub fn signs()
    ensures report { SignsReport }
    ensures quotient { LeastQuotientReports }
    ensures remainder { LeastRemainderReports }
{}

/// A run that a budget ends, and one that ends just within its budget.
pub fn budgets()
    ensures endless { EndlessReports }
    ensures literal { LiteralReports }
{}

/// A text, a comparison, a branch and a remainder.
pub fn choices()
    ensures report { ChoosingReports }
{}
