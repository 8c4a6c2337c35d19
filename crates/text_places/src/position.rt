//! Where a byte of a text stands.

ghost use Rattle.std.specs.Prelude.{◌≡◌, ◌+◌, ◌≤◌, length, min};
ghost use Rattle.text_places.specs.Positions.{indent, line_number, position_at};

/// A place of a text as people count: lines and columns from 1, columns in bytes.
#[derive(Clone, Copy)]
pub struct Position {
    pub line: usize,
    pub column: usize,
}

/// A place of a text, or the end where that is before it: the number of its line, and where that
/// begins.
#[derive(Clone, Copy)]
pub struct Spot {
    pub number: usize,
    pub begin: usize,
    pub at: usize,
}

/// The line and the column of a byte. Those of a place behind the end are those of the end.
pub fn position_of(bytes: &[u8], at: usize) -> Position
    ensures position { result ≡ position_at bytes.now at }
{
    let line = spot_of(bytes, at);
    Position {
        line: line.number,
        column: line.at - line.begin + 1,
    }
}

/// The line of a place.
pub fn spot_of(bytes: &[u8], at: usize) -> Spot
    ensures number { result.number ≡ line_number bytes.now at }
    ensures begin { result.begin + indent bytes.now at ≡ result.at }
    ensures place { result.at ≡ min at (length bytes.now) }
{
    let at = at.min(bytes.len());
    let mut number = 1;
    let mut begin = 0;
    for i in 0..at {
        if bytes[i] == b'\n' {
            number += 1;
            begin = i + 1;
        }
    }
    Spot { number, begin, at }
}
