//! What is told of a place.

/// How bad it is.
#[derive(Clone, Copy)]
pub enum Severity {
    /// The program is refused for it.
    Error,
    /// It is likely a mistake.
    Warning,
    /// It belongs to the remark before.
    Note,
}

/// What is told of a place of the text.
#[derive(Drop)]
pub struct Remark {
    pub at: usize,
    pub severity: Severity,
    pub sentence: String,
    /// How it is mended, where there is a common way.
    pub cure: Option<&'static str>,
}
