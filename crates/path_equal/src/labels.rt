//! Paths as a reader writes them.

use asp_model::Label;

/// Where a path begins.
#[derive(Clone, Copy)]
pub enum Root {
    /// At the active object.
    Active,
    /// At the result, where the activity is done.
    Value,
    /// At a location of the term and the suspended services, by its number from 0.
    TermAt(usize),
}

/// A step of a path.
#[derive(Drop)]
pub enum PathLabel {
    /// To the first field with this label.
    Field(Label),
    /// To a member of a group, by its number from 0.
    Member(usize),
    /// To a place that the body of the first method with this label holds, by its number from 0 in text
    /// order.
    Captured { method: Label, nth: usize },
}
