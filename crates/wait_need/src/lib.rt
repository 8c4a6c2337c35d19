//! What a cell needs before its value is read: nothing, the value of a future, or that a future is
//! filled.
#![tactic(auto)]

mod kinds;
mod operands;
mod peeks;
mod places;

pub use kinds::Need;
pub use operands::needs_are_of_operands;
pub use peeks::{PeekNeed, Seen, peek_need};
pub use places::need;
