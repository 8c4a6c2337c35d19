//! Activities that wait for good.

ghost use Rattle.worked_rows.specs.Circles.{CirclingReports, HasItselfAsValue, ChasesItself, CirclingTwiceReports, SelfAskingReports};

/// A future becomes its own value, and main awaits it for good.
pub fn circle()
    ensures report { CirclingReports }
    ensures value { HasItselfAsValue }
    ensures chase { ChasesItself }
{}

/// Each of two futures becomes the other's value.
pub fn two_circles()
    ensures report { CirclingTwiceReports }
{}

/// An activity awaits its own answer.
pub fn own_answer()
    ensures report { SelfAskingReports }
{}
