//! The terms below a node, as the machine comes to them.

ghost use Rattle.std.specs.Prelude.{◌≡◌, ◌<◌, IfSome, List, ℕ};
ghost use Rattle.code_table.specs.Pieces.{Piece};
ghost use Rattle.code_table.specs.Sound.{AllBelow, IsBelow, IsSound};
ghost use Rattle.code_table.specs.Classes.{class_at, class_of};
ghost use Rattle.code_table.specs.Tables.{node_piece, piece_at, piece_of, pieces, pieces_of};
ghost use Rattle.code_laws.specs.Nodes.{in_place, nth, parts};
ghost use Rattle.step_machine.specs.Calls.{called_label};
ghost use Rattle.step_machine.specs.Sequences.{child_number, later};
ghost use Rattle.step_machine.specs.Sites.{IsNumber};

use code_table::{Child, KeyedLabel, Kind, Node};

/// The node with a number.
#[inline(always)]
pub fn node_at<'a>(nodes: &'a [Node], number: usize) -> Option<&'a Node>
    ensures piece { IsSound nodes.now → IfSome result
        (λ n. piece_at (pieces nodes.now) number ≡ node_piece (pieces nodes.now) n.now) }
    ensures class { IfSome result (λ n. class_at nodes.now number ≡ class_of n.now.kind) }
    ensures below { IsSound nodes.now →
        IfSome result (λ n. AllBelow number n.now.children.items) }
{
    match nodes.get(number) {
        Some(node) => Some(node),
        None => None,
    }
}

/// How many terms below a node are reduced in place, where its first ones are gone.
#[inline(always)]
pub fn in_place_count(node: &Node, from: usize) -> usize
    ensures count { (ps : List Piece) → result ≡ in_place (later from (node_piece ps node.now)) }
{
    if from == 0 {
        return node.operands;
    }
    match node.kind {
        Kind::Repeat => 1,
        _ => node.operands,
    }
}

/// Which child stands next below a node.
#[inline(always)]
fn child_number(kind: &Kind, from: usize, done: usize) -> Option<usize>
    ensures number { IfSome result (λ i. i ≡ child_number kind.now from done) }
{
    if from == 0 {
        return Some(done);
    }
    match kind {
        Kind::Steps => from.checked_add(done),
        _ => Some(done),
    }
}

/// The next term below a node, where its first ones are gone and so many of the others are done.
#[inline(always)]
pub fn next_child<'a>(node: &'a Node, from: usize, done: usize) -> Option<&'a Child>
    ensures child { (ps : List Piece) → done < in_place (later from (node_piece ps node.now)) →
        IfSome result
        (λ c. nth done (parts (later from (node_piece ps node.now))) ≡ piece_of ps c.now) }
    ensures below { (m : ℕ) → AllBelow m node.now.children.items →
        IfSome result (λ c. IsBelow m c.now) }
{
    let Some(number) = child_number(&node.kind, from, done) else {
        return None;
    };
    let Some(child) = node.children.get(number) else {
        return None;
    };
    Some(child)
}

/// The term with a number below a node.
#[inline(always)]
pub fn child_at<'a>(node: &'a Node, number: usize) -> Option<&'a Child>
    ensures child { (ps : List Piece) → IfSome result
        (λ c. nth number (pieces_of ps node.now.children.items) ≡ piece_of ps c.now) }
{
    let Some(child) = node.children.get(number) else {
        return None;
    };
    Some(child)
}

/// The number that a node is.
#[inline(always)]
pub fn number_at(nodes: &[Node], number: usize) -> Option<i64>
    ensures number { IsSound nodes.now → IfSome result (IsNumber nodes.now number) }
{
    let Some(node) = node_at(nodes, number) else {
        return None;
    };
    match &node.kind {
        Kind::Number(value) => Some(*value),
        _ => None,
    }
}

/// The label of the calls that a node stands for: of a call, or of a `scatter`.
pub fn call_label<'a>(node: &'a Node) -> Option<&'a KeyedLabel>
    ensures label { (ps : List Piece) → IfSome result
        (λ l. called_label (node_piece ps node.now) ≡ l.now.label.text) }
{
    match &node.kind {
        Kind::Call(label) => Some(label),
        Kind::Scatter(label) => Some(label),
        _ => None,
    }
}
