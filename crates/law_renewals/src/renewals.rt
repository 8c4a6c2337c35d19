//! A lease that has used its grant comes back and goes out again at once.

ghost use Rattle.law_renewals.specs.Renewals.{LongLeasesAreLawful, RenewalsAreLawful, RenewalsAreSilent};

/// The commit of the whole grant and the next lend are lawful, and the activity goes on from there.
pub fn renewals_are_lawful()
    ensures { RenewalsAreLawful }
{}

/// These entries have no events.
pub fn renewals_are_silent()
    ensures { RenewalsAreSilent }
{}

/// What a lease of several grants took is lends and commits of single grants, one after another.
pub fn long_leases_are_lawful()
    ensures { LongLeasesAreLawful }
{}
