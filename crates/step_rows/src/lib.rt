//! The rows of the table of reductions that read cells: what a redex comes to.
#![tactic(auto)]

mod asks;
mod calls;
mod cells;
mod deciding;
mod decision;
mod fields;
mod groups;
mod near;
mod numbers;
mod redex;
mod rows;
mod seen;

pub use asks::{Creation, Test, active_row, test_row};
pub use calls::{Callee, callee_of};
pub use cells::{look, one, two};
pub use deciding::decide;
pub use decision::Decision;
pub use fields::{get, put};
pub use groups::{Scattering, SeenGroup, group_of, member_row, scatter_row, size_row, wait_row};
pub use near::{near_decide, near_get, near_operate, near_test};
pub use numbers::operate;
pub use redex::Redex;
pub use rows::{
    Operand, clone_row, get_row, one_operand, operate_next, operate_row, print_row, put_row,
};
pub use seen::{Seen, sight_of};
