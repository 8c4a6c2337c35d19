//! Programs as trees.

ghost use Rattle.std.specs.Prelude.{◌≡◌, [], IfOk};
ghost use Rattle.asp_model.specs.Marked.{blank_mark};
ghost use Rattle.asp_model.specs.Shapes.{mark_shape};

use crate::{Label, Word};
use std::alloc::{AllocError, Global};

/// The number of a cell in a store.
pub type Place = u128;

/// An operator between two terms.
#[derive(Clone, Copy, Debug, PartialEq, Eq)]
pub enum Sign {
    Add,
    Subtract,
    Multiply,
    Divide,
    Remainder,
    Less,
    Equal,
}

/// Where a node stood in its source text. A mark means nothing in a run.
#[derive(Drop)]
pub struct Mark {
    /// The place of the node's first token, behind the parentheses directly round the node.
    pub at: usize,
    /// How many parentheses stood directly round the node.
    pub parentheses: u32,
    /// How many stood directly round the field access on the left of a `:=`, for that node alone.
    pub left: u32,
    /// The places of the labels and names that stand in the node itself, in text order.
    pub names: Vec<usize>,
}

impl Mark {
    /// The mark of a node that stood in no source text.
    pub fn blank(alloc: Global) -> Mark
        ensures blank { mark_shape result ≡ blank_mark }
    {
        Mark {
            at: 0,
            parentheses: 0,
            left: 0,
            names: Vec::new(alloc),
        }
    }

    /// The same mark.
    pub fn copy(&self, alloc: Global) -> Result<Mark, AllocError>
        ensures mark { IfOk result (λ m. mark_shape m ≡ mark_shape self.now) }
    {
        let mut names = Vec::new(alloc);
        names.extend_from_slice(&self.names)?;
        Ok(Mark { names, ..*self })
    }
}

/// A method of an object.
#[derive(Drop)]
#[cycle(term)]
pub struct Method {
    pub label: Label,
    /// The name by which the body calls its object.
    pub slf: Word,
    pub parameters: Vec<Word>,
    pub body: Term,
}

/// A term, whose values are places of a store.
#[derive(Drop)]
#[cycle(term)]
pub enum Term {
    Loc(Place, Mark),
    Hole(Mark),
    Var(Word, Mark),
    Number(i64, Mark),
    Make {
        fields: Vec<(Label, Term)>,
        methods: Vec<Method>,
        mark: Mark,
    },
    Get(Box<Term>, Label, Mark),
    Put(Box<Term>, Label, Box<Term>, Mark),
    Call(Box<Term>, Label, Vec<Term>, Mark),
    Clone(Box<Term>, Mark),
    /// A new activity round an object. With a label, it begins with a call of that method.
    Active(Box<Term>, Option<Label>, Mark),
    /// Waits for a request with one of the labels; with none, for one of the active object's methods.
    Serve(Vec<Label>, Mark),
    Let(Word, Box<Term>, Box<Term>, Mark),
    Steps(Vec<Term>, Mark),
    If(Box<Term>, Box<Term>, Box<Term>, Mark),
    Repeat(Box<Term>, Mark),
    Operate(Sign, Box<Term>, Box<Term>, Mark),
    Print(Box<Term>, Mark),
    Echo(Word, Mark),
    Group(Vec<Term>, Mark),
    /// A call to each member of a group, each with an argument of its own from another group.
    Scatter(Box<Term>, Label, Box<Term>, Mark),
    Size(Box<Term>, Mark),
    /// The member of a group at a number, from 0.
    Member(Box<Term>, Box<Term>, Mark),
    /// Waits until no member of a group is a future.
    WaitAll(Box<Term>, Mark),
    /// Whether a request with one of the labels is pending; with none, for one of the active
    /// object's methods.
    Pending(Vec<Label>, Mark),
}

/// A program as it was read: it has neither places nor holes.
pub struct Program {
    pub root: Term,
}

// Written out, so that crates above drop it by one call.
impl Drop for Program {
    fn drop(self) {
        let Program { root: _ } = self;
    }
}
