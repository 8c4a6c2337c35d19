//! A text or a message is written, and a status answered.

ghost use Rattle.std.specs.Prelude.{◌≡◌};
ghost use Rattle.explain_writing.specs.Writing.{IsToldBy, IsWrittenOr, sight, status_told};

use asp_edge::{Sink, WriteFailed};

/// The status of what is told of a program.
pub fn status_of(has_fault: bool) -> u8
    ensures status { result ≡ status_told has_fault }
{
    if has_fault { 3 } else { 0 }
}

/// Writes a message, and answers the status that goes with it, or 7 where the sink failed.
pub fn tell<E: Sink>(err: &mut E, message: &[u8], status: u8) -> u8
    ensures told { IsToldBy (sight E.told err) message.now status result }
{
    match err.write(message) {
        Ok(()) => status,
        Err(WriteFailed) => 7,
    }
}

/// Writes a text that is ready, and answers its status. Where `out` failed that is 7, and `err` is
/// told so by this message.
pub fn write_text<O: Sink, E: Sink>(
    text: &[u8],
    status: u8,
    failure: &[u8],
    out: &mut O,
    err: &mut E,
) -> u8
    ensures written { IsWrittenOr failure.now
        (sight O.told out) (sight E.told err) text.now status result }
{
    match out.write(text) {
        Ok(()) => status,
        Err(WriteFailed) => tell(err, failure, 7),
    }
}
