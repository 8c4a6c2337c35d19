//! The places of a node's labels and names.

ghost use Rattle.std.specs.Prelude.{◌≡◌};
ghost use Rattle.asp_check.specs.Placed.{place_or, later, behind};
ghost use Rattle.asp_check.specs.Walk.{names_of, left_by};

use asp_model::{Mark, Method};

/// The places that a mark has left, for a node at a place of its own.
#[derive(Clone, Copy)]
pub struct Places<'a> {
    pub left: &'a [usize],
    pub node: usize,
}

impl<'a> Places<'a> {
    pub fn of(mark: &'a Mark) -> Places<'a>
        ensures left { result.left.now ≡ mark.entry.now.names.items }
        ensures node { result.node ≡ mark.entry.now.at }
    {
        Places {
            left: &mark.names,
            node: mark.at,
        }
    }

    /// The next place, or the node's own behind the last.
    pub fn next(&mut self) -> usize
        ensures place { result ≡ place_or self.old.node self.old.left.now }
        ensures left { self.new.left.now ≡ later self.old.left.now }
        ensures node { self.new.node ≡ self.old.node }
    {
        match self.left.split_first() {
            Some((first, rest)) => {
                self.left = rest;
                *first
            }
            None => self.node,
        }
    }

    /// Passes over the names of a method's head, self first.
    pub fn skip_head(&mut self, method: &Method)
        ensures left { self.new.left.now ≡ left_by (names_of method.now) self.old }
        ensures node { self.new.node ≡ self.old.node }
    {
        self.next();
        for _ in &method.parameters {
            self.next();
        }
    }
}
