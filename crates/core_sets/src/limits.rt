//! How many things can be numbered.

/// Places, and things that are ticked off, have numbers of 32 bits, and the last number is not given:
/// there are at most this many of them.
pub const MOST_NUMBERED: usize = 4_294_967_295;
