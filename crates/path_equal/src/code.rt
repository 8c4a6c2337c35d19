//! The places that code holds in an environment. The recursion is as deep as the code.

ghost use Rattle.std.specs.Prelude.{◌≡◌, ◌<◌, ◌≤◌, List, length, map};
ghost use Rattle.std.specs.List.{flat_map};
ghost use Rattle.asp_model.specs.Term.{loc, locations, locations_below};
ghost use Rattle.code_table.specs.Pieces.{Piece};
ghost use Rattle.code_table.specs.Sound.{AllBelow, IsBelow, KindSound, MethodsSound};
ghost use Rattle.code_table.specs.Tables.{piece_at, pieces};
ghost use Rattle.code_laws.specs.Shown.{shown};
ghost use Rattle.path_equal.specs.Held.{
  body_held,
  child_held,
  leaf_held,
  methods_behind,
  use_held,
};
ghost use Rattle.path_equal.specs.Searches.{searched};

use crate::search::{Search, past_some};
use code_table::{Capture, Child, Code, Kind, Leaf, MethodCode};

// The place of a variable, if it is bound.
fn place_of(places: &[usize], leaf: &Leaf) -> Option<usize>
    ensures { result ≡ leaf_held places.now leaf.now }
{
    let slot = match leaf {
        Leaf::Own(slot, _) => *slot,
        Leaf::Kept(slot) => *slot,
    };
    places.get(slot).copied()
}

// Behind the place of what a method captures at a slot.
fn past_use(places: &[usize], captured: &[Capture], slot: usize, search: Search) -> Search
    ensures searched { result ≡ searched (use_held places.now captured.now slot) search }
{
    match captured.get(slot) {
        Some(capture) => past_some(search, place_of(places, &capture.leaf)),
        None => search,
    }
}

// Behind the places of a method's body.
fn past_body(places: &[usize], method: &MethodCode, start: Search) -> Search
    ensures searched { let held = use_held places.now method.now.captured.items in
        result ≡ searched (flat_map held method.now.uses.items) start }
{
    let mut search = start;
    for slot in &method.uses {
        search = past_use(places, &method.captured, *slot, search);
    }
    search
}

// Behind those of methods.
fn past_methods(places: &[usize], methods: &[MethodCode], start: Search) -> Search
    ensures searched { (ps : List Piece) → MethodsSound ps methods.now →
        result ≡ searched (flat_map (body_held places.now ps) methods.now) start }
{
    let mut search = start;
    for method in methods {
        search = past_body(places, method, search);
    }
    search
}

/// Behind those of the methods that stand behind the terms of a node.
pub fn past_kind(places: &[usize], kind: &Kind, search: Search) -> Search
    ensures searched { (ps : List Piece) → KindSound ps kind.now →
        result ≡ searched (locations_below (methods_behind places.now ps kind.now)) search }
{
    match kind {
        Kind::Make(class) => past_methods(places, &class.methods, search),
        _ => search,
    }
}

/// Behind the places of a term below a node.
#[cycle(terms)]
pub fn past_child(code: &Code, places: &[usize], child: &Child, search: Search) -> Search
    requires below { IsBelow (length code.now) child.now }
    ensures searched { let held = child_held places.now (pieces code.now) child.now in
        result ≡ searched held search }
{
    match child {
        Child::Leaf(leaf) => past_some(search, place_of(places, leaf)),
        Child::Node(number) => past_node(code, places, *number, search),
    }
}

/// Behind those of a node.
#[cycle(terms)]
pub fn past_node(code: &Code, places: &[usize], number: usize, start: Search) -> Search
    requires within { number < length code.now }
    ensures searched { let p = piece_at (pieces code.now) number in
        result ≡ searched (locations (shown (map loc places.now) p)) start }
{
    let node = &code.nodes()[number];
    let search = past_children(code, places, &node.children, number, start);
    past_kind(places, &node.kind, search)
}

/// Behind those of terms that stand below a number.
#[cycle(terms)]
pub fn past_children(
    code: &Code,
    places: &[usize],
    children: &[Child],
    number: usize,
    start: Search,
) -> Search
    requires below { AllBelow number children.now }
    requires within { number ≤ length code.now }
    ensures searched { let held = child_held places.now (pieces code.now) in
        result ≡ searched (flat_map held children.now) start }
{
    let mut search = start;
    for child in children {
        search = past_child(code, places, child, search);
    }
    search
}
