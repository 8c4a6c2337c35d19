//! What the waits at the end of a replay lead to: where each request went, for whom each activity
//! waits, the circles of waiting, and why each activity rests. And a run that is cut back to an
//! earlier point, the least one at which an activity has made so many reductions: a search on demand
//! follows the waits, and takes no step that is not needed.
#![tactic(auto)]

mod book;
mod books;
mod cuts;
mod explained;
mod kept;
mod receipts;
mod waits;

pub use book::{Asked, Book};
pub use books::Books;
pub use cuts::{CutReportStop, CutStop, cut_back, cut_report};
pub use explained::{Explained, explain_run};
pub use receipts::Receipts;
