//! What a cell may need.

use asp_model::FutureName;

/// What a cell needs before its value is read.
#[derive(Clone, Copy, Debug)]
pub enum Need<'a> {
    /// Nothing: it is no future.
    Ready,
    /// The value of this future is to be unpacked in its place.
    Fill(&'a FutureName),
    /// There is no value before this future is filled; round a cycle there never is one.
    Awaits(&'a FutureName),
}
