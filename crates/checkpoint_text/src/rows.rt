//! Worked checkpoints.

ghost use Rattle.checkpoint_text.specs.Rows.{ItemRows, ReadAtThree, Refused, StoppedAtThree};

/// `print(1 + 2)`, stopped behind three reductions.
pub fn stopped_at_three()
    ensures { StoppedAtThree }
{}

/// Values of each kind, and the numbers that stand for them.
pub fn item_rows()
    ensures { ItemRows }
{}

/// And read again.
pub fn read_at_three()
    ensures { ReadAtThree }
{}

/// Texts that are no checkpoint of the program.
pub fn refused_checkpoints()
    ensures { Refused }
{}
