//! Leases with further grants: one that took more than its grant comes back and goes out again at
//! once, as often as it has to.
#![tactic(auto)]

mod long_lease;
mod renewing;

pub use long_lease::{LongLease, contractions};
pub use renewing::renew;
