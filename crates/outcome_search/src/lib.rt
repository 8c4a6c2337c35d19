//! The search for all ends of a program's runs, over whatever replays them: each log of each end is
//! cut at each place, whatever else could be entered there is run to its end, and when nothing is
//! left the ends are all.
#![tactic(auto)]

mod copies;
mod logs;
mod places;
mod runs;
mod search;

pub use copies::{copy_log, copy_reception, copy_run};
pub use logs::begin_with;
pub use runs::{EndedRun, Found, Runs, Stop};
pub use search::{all_ends, check_ends};
