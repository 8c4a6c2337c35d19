//! The places of a node behind its first terms.

ghost use Rattle.std.specs.Prelude.{◌≡◌, ◌+◌, ◌<◌, ◌≤◌, ◌++◌, drop, length, map};
ghost use Rattle.std.specs.List.{flat_map};
ghost use Rattle.asp_model.specs.Term.{loc, locations, locations_below, more, none};
ghost use Rattle.code_table.specs.Pieces.{count};
ghost use Rattle.code_table.specs.Sound.{AllBelow, KindSound};
ghost use Rattle.code_table.specs.Tables.{piece_at, pieces, pieces_of};
ghost use Rattle.code_laws.specs.Nodes.{later, nth, parts, rest};
ghost use Rattle.code_laws.specs.Shown.{shown, shown_terms};
ghost use Rattle.code_reading.specs.Decoded.{gone};
ghost use Rattle.path_equal.specs.Held.{child_held, methods_behind};
ghost use Rattle.path_equal.specs.Searches.{searched};

use crate::code::{past_child, past_children, past_kind, past_node};
use crate::search::Search;
use code_table::{Child, Code, Kind, Node};

/// Behind the places of the terms that stand behind the first ones of a node: those that are done,
/// and the holes. A sequence may have lost its first terms before, and a `repeat` may have become a
/// sequence: `from` says how many are gone.
pub fn past_behind(
    code: &Code,
    places: &[usize],
    number: usize,
    from: usize,
    done: usize,
    holes: usize,
    search: Search,
) -> Search
    ensures searched { let p = later from (piece_at (pieces code.now) number) in
        let behind = rest (done + holes) (shown_terms (map loc places.now) p) in
        number < length code.now → done + holes ≤ count (parts p) →
        result ≡ searched (locations_below behind) search }
{
    let nodes = code.nodes();
    if number >= nodes.len() {
        return search;
    }
    let node = &nodes[number];
    match gone_in(&node.kind, from) {
        Some(gone) => {
            let left = all_but(all_but(all_but(&node.children, gone), done), holes);
            past_left(code, places, left, node, number, search)
        }
        None => past_rolled(
            code,
            places,
            node,
            number,
            done.saturating_add(holes),
            search,
        ),
    }
}

// How many of a node's terms are gone; none is told of a `repeat` that has become a sequence.
fn gone_in(kind: &Kind, from: usize) -> Option<usize>
    ensures gone { result ≡ gone kind.now from }
{
    match kind {
        Kind::Steps => Some(from),
        Kind::Repeat => { if from == 0 { Some(0) } else { None } }
        _ => Some(0),
    }
}

fn all_but(children: &[Child], count: usize) -> &[Child]
    ensures children { result.now ≡ drop count children.now }
{
    if count < children.len() {
        &children[count..]
    } else {
        &[]
    }
}

// Behind what is left of a node's terms, and its methods.
fn past_left(
    code: &Code,
    places: &[usize],
    left: &[Child],
    node: &Node,
    number: usize,
    start: Search,
) -> Search
    requires below { AllBelow number left.now }
    requires within { number ≤ length code.now }
    requires sound { KindSound (pieces code.now) node.now.kind }
    ensures searched { let ns = places.now in let ps = pieces code.now in
        let methods = locations_below (methods_behind ns ps node.now.kind) in
        result ≡ searched (flat_map (child_held ns ps) left.now ++ methods) start }
{
    let search = past_children(code, places, left, number, start);
    past_kind(places, &node.kind, search)
}

// Behind what is left of a `repeat` that has become a sequence: its term, and then itself.
fn past_rolled(
    code: &Code,
    places: &[usize],
    node: &Node,
    number: usize,
    done: usize,
    start: Search,
) -> Search
    requires children { AllBelow number node.now.children.items }
    requires within { number < length code.now }
    ensures searched { let ts = map loc places.now in
        let first = nth 0 (pieces_of (pieces code.now) node.now.children.items) in
        let itself = piece_at (pieces code.now) number in
        let both = more (shown ts first) (more (shown ts itself) none) in
        done ≤ 2 → result ≡ searched (locations_below (rest done both)) start }
{
    if done == 0 {
        let search = past_first(code, places, &node.children, number, start);
        past_node(code, places, number, search)
    } else if done == 1 {
        past_node(code, places, number, start)
    } else {
        start
    }
}

// Behind the first of a node's terms.
fn past_first(
    code: &Code,
    places: &[usize],
    children: &[Child],
    number: usize,
    search: Search,
) -> Search
    requires below { AllBelow number children.now }
    requires within { number ≤ length code.now }
    ensures searched { let first = nth 0 (pieces_of (pieces code.now) children.now) in
        result ≡ searched (locations (shown (map loc places.now) first)) search }
{
    if children.is_empty() {
        return search;
    }
    past_child(code, places, &children[0], search)
}
