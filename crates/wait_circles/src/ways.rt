//! Where the way from each leads.

ghost use Rattle.std.specs.Prelude.{◌≡◌, ◌<◌, ◌+◌, ℕ, List, Option, IfOk, OnOk, length};
ghost use Rattle.wait_circles.specs.Ways.{AreCircles, AreEnds, AreWithin};
ghost use Rattle.wait_circles.specs.declared.ways.Mark.{Mark as MarkShape};
ghost use Rattle.wait_circles.specs.Walks.{AreSettled, AreEndsIn, AreTold, IsFound, IsPathEnd, IsStop, is_settled as is_settled_mark};

use crate::walk::{Stop, after, settle, walk};
use std::alloc::{AllocError, Global};

/// Where a way ends.
#[derive(Clone, Copy)]
pub enum End {
    /// At this one, which has no next.
    Last(usize),
    /// In the circle of this number.
    Round(usize),
}

/// The first is followed by the others, in order, and the last of them by the first.
#[derive(Drop)]
pub struct Circle {
    pub first: usize,
    pub others: Vec<usize>,
}

/// Where all ways end, by numbers, and the circles, each once.
#[derive(Drop)]
pub struct Ways {
    pub ends: Vec<End>,
    pub circles: Vec<Circle>,
}

/// What is known of one.
#[derive(Clone, Copy)]
pub enum Mark {
    Fresh,
    /// A walk that goes on passed it.
    Passed,
    Ends(End),
}

/// What is found so far.
#[derive(Drop)]
pub struct Found {
    marks: Vec<Mark>,
    circles: Vec<Circle>,
}

/// Where the way from each leads, which goes from each to its next.
pub fn ways_of(alloc: Global, next: &[Option<usize>]) -> Result<Ways, AllocError>
    requires within { AreWithin next.now }
    ensures circles { IfOk result (λ w. AreCircles next.now w.circles.items) }
    ensures ends { IfOk result (λ w. AreEnds next.now w.circles.items w.ends.items) }
{
    let mut found = Found::nothing(alloc, next)?;
    for from in 0..next.len() {
        found.lead(alloc, next, from)?;
    }
    Ok(Ways {
        ends: ends_in(alloc, &found.marks)?,
        circles: found.circles,
    })
}

fn is_settled(mark: Mark) -> bool
    ensures { result ≡ is_settled_mark mark }
{
    matches!(mark, Mark::Ends(_))
}

// The ends that marks tell.
fn ends_in(alloc: Global, marks: &[Mark]) -> Result<Vec<End>, AllocError>
    requires settled { AreSettled marks.now }
    ensures ends { IfOk result (λ v. AreTold marks.now v.items) }
{
    let mut ends = Vec::new(alloc);
    for mark in marks {
        match *mark {
            Mark::Ends(end) => ends.push(end)?,
            Mark::Fresh | Mark::Passed => unreachable!(),
        }
    }
    Ok(ends)
}

impl Found {
    fn nothing(alloc: Global, next: &[Option<usize>]) -> Result<Found, AllocError>
        ensures { IfOk result (λ f. IsFound next.now f 0) }
    {
        Ok(Found {
            marks: vec![in alloc; Mark::Fresh; next.len()]?,
            circles: Vec::new(alloc),
        })
    }

    // Finds where the way from one leads, and from those on it.
    fn lead(&mut self, alloc: Global, next: &[Option<usize>], from: usize) -> Result<(), AllocError>
        requires within { AreWithin next.now }
        requires from { from < length next.now }
        requires found { IsFound next.now self.old from }
        ensures { OnOk result (IsFound next.now self.new (from + 1)) }
    {
        if is_settled(self.marks[from]) {
            return Ok(());
        }
        let mut path = Vec::new(alloc);
        let stop = walk(next, from, &mut self.marks, &mut path)?;
        let end = self.end_of(alloc, stop, &path)?;
        settle(&mut self.marks, &path, end);
        Ok(())
    }

    // The end of a path, whose circle is entered where it is a new one.
    fn end_of(&mut self, alloc: Global, stop: Stop, path: &[usize]) -> Result<End, AllocError>
        ensures marks { self.new.marks ≡ self.old.marks }
        ensures end { (ns : List (Option ℕ)) (ms : List MarkShape) → IsStop ns ms path.now stop →
            AreEndsIn ns self.old.circles.items ms →
            IfOk result (IsPathEnd ns self.old.circles.items self.new.circles.items path.now) }
    {
        match stop {
            Stop::Last(last) => Ok(End::Last(last)),
            Stop::Known(_, end) => Ok(end),
            Stop::Back(first) => {
                let number = self.circles.len();
                let others = after(alloc, path, first)?;
                self.circles.push(Circle { first, others })?;
                Ok(End::Round(number))
            }
        }
    }
}
