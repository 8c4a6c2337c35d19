//! Where an activity stands in the text of its program.

use crate::text_pieces::Telling;
use code_table::{Child, Node};
use run_ends::EndState;
use step_machine::{Focus, in_place_count, next_child, node_at};
use text_places::{Position, position_of};

// The node below a node at which a machine stopped, where its redex needs no frame.
fn inner(nodes: &[Node], number: usize, from: usize, done: usize) -> usize {
    let Some(node) = node_at(nodes, number) else {
        return number;
    };
    if done >= in_place_count(node, from) {
        return number;
    }
    match next_child(node, from, done) {
        Some(Child::Node(inner)) => *inner,
        Some(Child::Leaf(_)) | None => number,
    }
}

/// The node at which an activity stands, by its number. There is none where its term is done, or is
/// the call that a service begins with.
pub fn node_of(nodes: &[Node], state: &EndState) -> Option<usize> {
    match state.machine.focus {
        Focus::Node { number, from, done } => Some(inner(nodes, number, from, done)),
        Focus::Calls { number, .. } | Focus::Called { number, .. } => Some(number),
        Focus::Place(_) | Focus::Asked(_) => None,
    }
}

/// The byte of the text where a node stood.
pub fn byte_of(nodes: &[Node], number: usize) -> Option<usize> {
    let node = node_at(nodes, number)?;
    Some(node.mark)
}

/// Adds a place of a file to a text.
pub fn push_place(text: &mut Telling, file: &str, bytes: &[u8], at: usize) {
    let Position { line, column } = position_of(bytes, at);
    text.push(file);
    text.push(":");
    text.push_count(line as u64);
    text.push(":");
    text.push_count(column as u64);
}
