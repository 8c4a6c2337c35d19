//! Groups of activities and of passive objects.

ghost use Rattle.worked_rows.specs.Groups.{EmptyGroupReports, NoMemberReports, PassiveGroupReports, WorkersReport};

/// A group may be empty.
pub fn empty_group()
    ensures report { EmptyGroupReports }
{}

/// Members are counted from 0.
pub fn no_member()
    ensures report { NoMemberReports }
{}

/// One passive object stands twice in a group.
pub fn passive_group()
    ensures report { PassiveGroupReports }
{}

/// A master with three workers.
pub fn three_workers()
    ensures report { WorkersReport }
{}
