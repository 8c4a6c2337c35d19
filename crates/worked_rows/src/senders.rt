//! Two senders to one receiver.

ghost use Rattle.worked_rows.specs.Senders.{RacingReports, TurnedReports, CountDiverges, ListDiverges, OrderingReports, OrderingTurnedReports};

/// The plain run and the run under the other list, and a count and a list that do not fit.
pub fn race()
    ensures report { RacingReports }
    ensures turned { TurnedReports }
    ensures count { CountDiverges }
    ensures list { ListDiverges }
{}

/// Services by label, in one order under both lists.
pub fn ordered_services()
    ensures report { OrderingReports }
    ensures turned { OrderingTurnedReports }
{}
