//! The seat of one activity.

/// An activity that is here, or what has come for it since somebody took it.
#[derive(Drop)]
pub enum Seat<X, R> {
    In(Box<X>),
    Out(Vec<R>),
}
