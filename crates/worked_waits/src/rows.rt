//! The rows.

ghost use Rattle.worked_waits.specs.Rows.{AskingEachOther, AskingItself, Single, Values};

/// Two ask each other, and main waits behind them.
pub fn asking_each_other()
    ensures { AskingEachOther }
{}

/// One asks itself.
pub fn asking_itself()
    ensures { AskingItself }
{}

/// Futures that are values of each other.
pub fn values()
    ensures { Values }
{}

/// One at a `serve`, one with a fault, and one that has ended.
pub fn single()
    ensures { Single }
{}
