//! The generated program.

ghost use Rattle.worked_rows.specs.Pairs.{ThreePairsReport};

/// The summary of three pairs.
pub fn three_pairs()
    ensures summary { ThreePairsReport }
{}
