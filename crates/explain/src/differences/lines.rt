//! The first line that differs.

ghost use Rattle.std.specs.Prelude.{◌≡◌, ◌↔◌, IsTrue, map};
ghost use Rattle.asp_model.specs.Shapes.{line_shape};
ghost use Rattle.explain.specs.Differences.{IsFirstOther};

use asp_model::Line;

/// Whether two lines are the same.
fn is_same_line(a: &Line, b: &Line) -> bool
    ensures { IsTrue result ↔ (line_shape a.now ≡ line_shape b.now) }
{
    match (a, b) {
        (Line::Number(n), Line::Number(m)) => n == m,
        (Line::Text(s), Line::Text(t)) => s == t,
        (Line::Number(_), Line::Text(_)) => false,
        (Line::Text(_), Line::Number(_)) => false,
    }
}

/// The first place at which the lines differ. One side may end there.
pub fn first_other_line(lines: &[Line], others: &[Line]) -> Option<usize>
    ensures { IsFirstOther (map line_shape lines.now) (map line_shape others.now) result }
{
    let both = lines.len().min(others.len());
    for i in 0..both {
        if !is_same_line(&lines[i], &others[i]) {
            return Some(i);
        }
    }
    if lines.len() == others.len() {
        None
    } else {
        Some(both)
    }
}
