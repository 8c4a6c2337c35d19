//! One walk, from each to its next.

ghost use Rattle.std.specs.Prelude.{◌≡◌, ◌<◌, [], ℕ, IfOk, OnOk, length, nat_eq, slice_index, true, false};
ghost use Rattle.law_waits.specs.Courses.{items_after};
ghost use Rattle.wait_circles.specs.Ways.{AreWithin, next_in};
ghost use Rattle.wait_circles.specs.Walks.{IsSettledBy, IsStep, IsStop, IsWalked, has, is_passed, mark_at};
ghost use Rattle.wait_circles.specs.declared.ways.Mark.TheVariants.{Fresh};

use crate::ways::{End, Mark};
use std::alloc::{AllocError, Global};

/// Where a walk stops.
#[derive(Clone, Copy)]
pub enum Stop {
    /// At this one, which has no next.
    Last(usize),
    /// At this one, whose end is known.
    Known(usize, End),
    /// At this one, which it passed before.
    Back(usize),
}

/// What comes after one.
#[derive(Clone, Copy)]
pub enum Step {
    On(usize),
    Last,
    Known(usize, End),
    Back(usize),
}

fn next_of(next: &[Option<usize>], at: usize) -> Option<usize>
    ensures { result ≡ next_in next.now at }
{
    match next.get(at) {
        Some(to) => *to,
        None => None,
    }
}

// What comes after one.
fn step_at(next: &[Option<usize>], at: usize, marks: &[Mark]) -> Step
    requires within { AreWithin next.now }
    requires size { length marks.now ≡ length next.now }
    ensures { IsStep next.now marks.now at result }
{
    let Some(to) = next_of(next, at) else {
        return Step::Last;
    };
    match marks[to] {
        Mark::Fresh => Step::On(to),
        Mark::Passed => Step::Back(to),
        Mark::Ends(end) => Step::Known(to, end),
    }
}

/// Goes on from one that is fresh, until it comes to one that is not or has no next. It marks those
/// that it passes, and keeps them in order.
pub fn walk(
    next: &[Option<usize>],
    from: usize,
    marks: &mut [Mark],
    path: &mut Vec<usize>,
) -> Result<Stop, AllocError>
    requires within { AreWithin next.now }
    requires size { length marks.old ≡ length next.now }
    requires from { from < length next.now }
    requires fresh { mark_at marks.old from ≡ Fresh }
    requires rests { (k : ℕ) → is_passed (mark_at marks.old k) ≡ false }
    requires empty { path.old.items ≡ [] }
    ensures walked { OnOk result (IsWalked next.now marks.old path.new.items marks.new) }
    ensures begins { OnOk result (has from path.new.items ≡ true) }
    ensures stop { IfOk result (IsStop next.now marks.old path.new.items) }
{
    let mut at = from;
    loop {
        path.push(at)?;
        marks[at] = Mark::Passed;
        match step_at(next, at, marks) {
            Step::On(to) => at = to,
            Step::Last => return Ok(Stop::Last(at)),
            Step::Known(to, end) => return Ok(Stop::Known(to, end)),
            Step::Back(to) => return Ok(Stop::Back(to)),
        }
    }
}

/// Those of a path that come after one of them.
pub fn after(alloc: Global, path: &[usize], one: usize) -> Result<Vec<usize>, AllocError>
    ensures { IfOk result (λ v. v.items ≡ items_after nat_eq one path.now) }
{
    for i in 0..path.len() {
        if path[i] == one {
            return path[i + 1..].to_vec(alloc);
        }
    }
    Ok(Vec::new(alloc))
}

/// All of a path have this end.
pub fn settle(marks: &mut [Mark], path: &[usize], end: End)
    requires within { (i : ℕ) → i < length path.now → slice_index path.now i < length marks.old }
    ensures { IsSettledBy end path.now marks.old marks.new }
{
    for k in path {
        marks[*k] = Mark::Ends(end);
    }
}
