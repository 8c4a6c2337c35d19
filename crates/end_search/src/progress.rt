//! How far a search is.

/// Is told how far a search is.
pub trait Progress {
    /// So many ends were found, and of so many of them nothing is left to do.
    fn told(&self, ends: usize, done: usize);
}

/// One of any kind.
pub type ProgressBox = Box<dyn Progress + Drop>;
