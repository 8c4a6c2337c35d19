//! Frames, and what a machine looks at.

use asp_model::Sign;
use code_table::{KeyedLabel, Node};

/// The arguments of the calls that a call on a group, or a `scatter`, becomes.
#[derive(Clone, Copy)]
pub enum Spread {
    /// Each call has the same.
    Same,
    /// Each call has one of its own.
    Own,
}

/// What a frame waits for.
#[derive(Clone, Copy)]
pub enum Form {
    /// The next term below its node.
    Terms,
    /// The result of a call of one of several members. The node has the label.
    Calls(Spread),
    /// The end of a service, after which the term below it goes on.
    Service,
}

/// A node whose first terms are done. Their places lie on the operands.
#[derive(Clone, Copy)]
pub struct Frame {
    pub form: Form,
    pub node: usize,
    /// How many terms of a sequence are gone; 1 at a `repeat` for the sequence that it becomes. How many
    /// members are called.
    pub from: usize,
    /// How many of the last operands are its own.
    pub done: usize,
    /// Where its environment begins.
    pub base: usize,
    /// Where its environment ends.
    pub height: usize,
}

/// What a machine looks at.
#[derive(Clone, Copy)]
pub enum Focus {
    /// A node whose first terms are gone, and of whose others the first lie on the operands.
    Node {
        number: usize,
        from: usize,
        done: usize,
    },
    /// A place, which the innermost frame takes.
    Place(usize),
    /// The call that a service begins with, of which so many places lie on the operands.
    Asked(usize),
    /// A group of calls, of which the first have their results. What the node was given lies on the
    /// operands, then the members, then the arguments of their own, then the results.
    Calls {
        spread: Spread,
        number: usize,
        members: usize,
        done: usize,
    },
    /// The call of a member, of which so many places lie on the operands. The node has the label.
    Called {
        number: usize,
        count: usize,
    },
}

/// A redex that needs no frame: all terms of its node are variables or numbers.
#[derive(Clone, Copy)]
pub enum Nested<'a> {
    Number(i64),
    /// A field of the object at a place.
    Get(&'a KeyedLabel, usize),
    Operate(Sign, usize, usize),
    /// A sign over a place and a number, which becomes a place first.
    OperateNumber(Sign, usize, i64),
}

/// What the next contraction is, as far as the machine alone tells.
#[derive(Clone, Copy)]
pub enum Site<'a> {
    /// That of the node that it looks at.
    Redex {
        node: &'a Node,
        number: usize,
        from: usize,
        done: usize,
    },
    /// That of the next term below the node that it looks at.
    Nested {
        number: usize,
        from: usize,
        done: usize,
        redex: Nested<'a>,
    },
    Other,
}
