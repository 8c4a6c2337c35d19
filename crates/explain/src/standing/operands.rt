//! What the operands of a node were, where an activity stopped at it.

use crate::text_pieces::Telling;
use asp_model::Sign;
use code_table::{Child, Kind, Leaf, Node, View};
use object_store::Store;
use run_ends::EndState;
use step_machine::{Focus, node_at};

/// An activity that stopped at a node.
#[derive(Clone, Copy)]
pub struct Stopped<'a> {
    pub nodes: &'a [Node],
    pub state: &'a EndState,
    pub node: &'a Node,
}

// How many operands of the node lie on the machine's.
fn lying(state: &EndState, nodes: &[Node], node: &Node) -> usize {
    match state.machine.focus {
        Focus::Node { number, done, .. } => match node_at(nodes, number) {
            Some(outer) if outer.mark == node.mark => done,
            _ => 0,
        },
        _ => 0,
    }
}

impl Stopped<'_> {
    // The place of an operand that is a variable.
    fn place_of(&self, leaf: &Leaf) -> Option<usize> {
        let slot = match leaf {
            Leaf::Own(slot, _) => *slot,
            Leaf::Kept(slot) => *slot,
        };
        let at = self.state.machine.base.checked_add(slot)?;
        self.state.machine.env.get(at).copied()
    }

    // The place of an operand, by its number.
    fn operand(&self, number: usize) -> Option<usize> {
        let lying = lying(self.state, self.nodes, self.node);
        let operands = &self.state.machine.operands;
        if number < lying {
            let begin = operands.len().checked_sub(lying)?;
            return operands.get(begin.checked_add(number)?).copied();
        }
        match self.node.children.get(number)? {
            Child::Leaf(leaf) => self.place_of(leaf),
            Child::Node(_) => None,
        }
    }

    // The number that an operand is in the text.
    fn literal(&self, number: usize) -> Option<i64> {
        match self.node.children.get(number)? {
            Child::Node(inner) => match node_at(self.nodes, *inner)?.kind {
                Kind::Number(value) => Some(value),
                _ => None,
            },
            Child::Leaf(_) => None,
        }
    }

    /// Adds what an operand was to a text.
    pub fn push_operand(&self, text: &mut Telling, number: usize) {
        match self.operand(number) {
            Some(place) => match cell_at(&self.state.store, place) {
                Some(cell) => push_cell(text, cell),
                None => text.push("?"),
            },
            None => match self.literal(number) {
                Some(value) => text.push_number(value),
                None => text.push("?"),
            },
        }
    }
}

// The cell at a place.
fn cell_at(store: &Store, place: usize) -> Option<View<'_>> {
    if place < store.len() {
        Some(store.cell(place))
    } else {
        None
    }
}

// Adds what a cell is to a text.
fn push_cell(text: &mut Telling, cell: View) {
    match cell {
        View::Number(value) => text.push_number(value),
        View::Object(_) => text.push("an object"),
        View::Reference(name) => {
            text.push("the activity ");
            text.push_name(name);
        }
        View::Future(_) => text.push("an answer"),
        View::Group(members) => {
            text.push("a group of ");
            text.push_count(members.len() as u64);
        }
    }
}

/// How a sign is written.
pub fn sign_text(sign: Sign) -> &'static str {
    match sign {
        Sign::Add => "+",
        Sign::Subtract => "-",
        Sign::Multiply => "*",
        Sign::Divide => "/",
        Sign::Remainder => "%",
        Sign::Less => "<",
        Sign::Equal => "==",
    }
}
