//! Terms while they are read: what tokens make, the operators that wait for a right side, and the
//! steps of a sequence.
#![tactic(auto)]

mod node;
mod object;
mod open;
mod steps;
mod stop;
mod terms;

pub use node::{
    active, active_with, binding, choice, echo, enclose, got, listed, made, member, number,
    scatter, served, variable, with_term, wrapped,
};
pub use object::{
    new_head, new_labels, new_object, with_field, with_label, with_method, with_name,
    with_parameter,
};
pub use open::{
    Access, Binding, Choice, Field, Head, Kind, Labels, Listing, Object, Open, Operator, Part,
    Scatter, Service, Target, Wrap,
};
pub use steps::{mark_at, sequence};
pub use stop::{Stop, refused, stopped};
pub use terms::{add, assign, compare, first_start, fresh, multiply, term_in, value_of};
