//! Where a replay leaves something else than its lists and counts say.

ghost use Rattle.law_schedules.specs.Divergence.{DivergesWhereFirst, FitsWhereNoneDiffers, ReportsAreInOrder, RowsAreShown};

/// Where nothing differs, lists and counts fit.
pub fn fits_where_none_differs()
    ensures { FitsWhereNoneDiffers }
{}

/// Where they first differ is the least-named activity at which the replay diverges.
pub fn diverges_where_first()
    ensures { DivergesWhereFirst }
{}

/// The lists and counts of an outcome have the rows that it shows.
pub fn rows_are_shown()
    ensures { RowsAreShown }
{}

/// What is read of a report is in order.
pub fn reports_are_in_order()
    ensures { ReportsAreInOrder }
{}
