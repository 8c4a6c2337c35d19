//! What becomes of who is out.

ghost use Rattle.law_journals.specs.Leases.{
  BurstsAreCounted,
  LeasesAreOne,
  LeasesBegin,
  LeasesGoOn,
  LeasesLast,
  LeasesStay,
};

/// While an activity is out, it stays as it was lent, and only receives.
pub fn leases_stay()
    ensures { LeasesStay }
{}

/// An activity is out with one burst, and was lent in one run.
pub fn leases_are_one()
    ensures { LeasesAreOne }
{}

/// A lease is one of each later history by which its burst is out still.
pub fn leases_go_on()
    ensures { LeasesGoOn }
{}

/// Who is lent is out with the next burst.
pub fn leases_begin()
    ensures { LeasesBegin }
{}

/// A lease lasts where an entry does not concern its number.
pub fn leases_last()
    ensures { LeasesLast }
{}

/// Leases are counted one by one.
pub fn bursts_are_counted()
    ensures { BurstsAreCounted }
{}
