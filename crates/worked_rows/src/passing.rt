//! Arguments and futures that pass from one activity to another.

ghost use Rattle.worked_rows.specs.Passing.{HandingReports, KeepingReports, SendingReports, SharesArgument};

/// A future passes three activities unread.
pub fn unread_future()
    ensures report { HandingReports }
{}

/// A value is received by two messages, and one copy of it changes.
pub fn two_copies()
    ensures report { KeepingReports }
{}

/// Two fields of an argument share one object, in the request too.
pub fn shared_argument()
    ensures report { SendingReports }
    ensures parcel { SharesArgument }
{}
