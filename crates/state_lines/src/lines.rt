//! The lines of a state: depth first, by a stack of what is still to be shown.

ghost use Rattle.std.specs.Prelude.{◌≡◌, ◌++◌, ◌∷◌, [], IfOk, None, OnOk, codes, true};
ghost use Rattle.asp_model.specs.Intent.{StatusShape};
ghost use Rattle.future_table.specs.Values.{values_of};
ghost use Rattle.indexmap.specs.IndexMap.{get};
ghost use Rattle.def_paths.specs.Places.{Side};
ghost use Rattle.def_paths.specs.Snapshots.{SnapshotShape};
ghost use Rattle.def_paths.specs.StateLines.{
  is_compound,
  state_line,
  state_lines as lines_of_state,
  what_text,
};
ghost use Rattle.state_lines.specs.Sights.{Sees, seen_shape};
ghost use Rattle.run_ends.specs.Spots.{
  Grows,
  HasValues,
  IsNumbered,
  IsSpot,
  is_spot,
  place_of,
  size_of,
};
ghost use Rattle.state_lines.specs.States.{IsStateOf, side_in};
ghost use Rattle.state_lines.specs.Texts.{shown_by};
ghost use Rattle.state_lines.specs.Walks.{
  AreSpots,
  IsExpanded,
  IsWalk,
  Shows,
  root_due,
  roots_due,
  shown_after,
  state_seen,
};

use crate::below::{Due, Parent, push_below};
use crate::seen::Seen;
use crate::sights::{Sight, look_at};
use crate::state::State;
use crate::texts::{line, same_line};
use asp_model::Word;
use code_table::Place;
use future_table::FutureTable;
use indexmap::IndexMap;
use run_ends::{Entered, Spot};
use std::alloc::{AllocError, Global};

/// The lines so far, with the path of each object and group that they show, and what is still to be
/// shown, the next one last.
#[derive(Drop)]
pub struct Walk<'a> {
    pub entered: Entered<'a>,
    pub paths: IndexMap<Spot, Word>,
    pub due: Vec<Due>,
    pub lines: Vec<Word>,
}

/// The lines that show the active object and the result down to a depth, without their line feeds.
pub fn state_lines(alloc: Global, state: &State, depth: u32) -> Result<Vec<Word>, AllocError>
    // for what the state stands for
    ensures lines { (s : SnapshotShape) (status : StatusShape) → IsStateOf state.now s status →
        let values = values_of state.now.futures.now in
        IfOk result (λ v. v.items ≡ lines_of_state depth values status s) }
{
    all_lines(alloc, state, depth)
}

fn all_lines(alloc: Global, state: &State, depth: u32) -> Result<Vec<Word>, AllocError>
    ensures lines { IfOk result (λ v. v.items ≡ (state_seen state.now depth).lines) }
{
    let due = roots(alloc, state, depth)?;
    let mut walk = begun(alloc, due);
    let shown = show_all(alloc, state, &mut walk);
    let lines = lines_of(walk);
    shown?;
    Ok(lines)
}

fn lines_of(walk: Walk) -> Vec<Word>
    ensures { result.items ≡ walk.entry.lines.items }
{
    walk.lines
}

// Shows all that is due.
fn show_all<'a>(alloc: Global, state: &State<'a>, walk: &mut Walk<'a>) -> Result<(), AllocError>
    requires walk { IsWalk state.now walk.old }
    ensures lines { let whole = shown_after state.now walk.old walk.old.due.items in
        OnOk result (walk.new.lines.items ≡ whole.lines) }
{
    while let Some(due) = walk.due.pop() {
        show(alloc, state, walk, due)?;
    }
    Ok(())
}

// Nothing is shown yet.
fn begun<'a>(alloc: Global, due: Vec<Due>) -> Walk<'a>
    ensures numbered { IsNumbered result.entered }
    ensures none { result.entered.spots.keys ≡ [] }
    ensures paths { result.paths.entries ≡ [] }
    ensures due { result.due.items ≡ due.items }
    ensures lines { result.lines.items ≡ [] }
{
    Walk {
        entered: Entered::new(alloc),
        paths: IndexMap::new(alloc),
        due,
        lines: Vec::new(alloc),
    }
}

// The result, if there is one, and the active object, which is shown first.
fn roots(alloc: Global, state: &State, depth: u32) -> Result<Vec<Due>, AllocError>
    ensures due { IfOk result (λ v. v.items ≡ roots_due state.now depth) }
{
    let mut due = Vec::new(alloc);
    if let Some(place) = state.result {
        push_root(alloc, &mut due, "value", place, depth)?;
    }
    push_root(alloc, &mut due, "self", state.active, depth)?;
    Ok(due)
}

fn push_root(
    alloc: Global,
    due: &mut Vec<Due>,
    path: &str,
    place: Place,
    depth: u32,
) -> Result<(), AllocError>
    ensures { OnOk result (due.new.items ≡ due.old.items ++ root_due path.now place depth ∷ []) }
{
    let path = Word::new(String::from_str(alloc, path)?);
    let spot = Spot {
        home: 0,
        cell: place,
    };
    due.push(Due { path, spot, depth })?;
    Ok(())
}

// Shows a place, and has what is below it shown next.
fn show<'a>(
    alloc: Global,
    state: &State<'a>,
    walk: &mut Walk<'a>,
    due: Due,
) -> Result<(), AllocError>
    requires walk { IsWalk state.now walk.old }
    requires spot { IsSpot (size_of walk.old.entered) due.spot }
    ensures walk { OnOk result (IsWalk state.now walk.new) }
    ensures shown { OnOk result (Shows state.now due walk.old walk.new) }
{
    let sight = look_at(state, walk.entered.at(due.spot));
    if !sight.seen.is_compound() {
        return push_line(alloc, state.futures, &mut walk.lines, &due.path, sight.seen);
    }
    match walk.paths.get(&due.spot) {
        Some(first) => push_same(alloc, &mut walk.lines, &due.path, first),
        None => show_new(alloc, state, walk, due, sight),
    }
}

// One more line, for a place with what is seen there.
fn push_line(
    alloc: Global,
    futures: &FutureTable,
    lines: &mut Vec<Word>,
    path: &Word,
    seen: Seen,
) -> Result<(), AllocError>
    ensures { let what = what_text (shown_by (values_of futures.now) (seen_shape seen.entry)) in
        OnOk result (lines.new.items ≡ lines.old.items ++ state_line path.now what ∷ []) }
{
    let line = line(alloc, futures, path, seen)?;
    lines.push(line)?;
    Ok(())
}

// One more line, for a place that was shown already, by this path.
fn push_same(
    alloc: Global,
    lines: &mut Vec<Word>,
    path: &Word,
    first: &Word,
) -> Result<(), AllocError>
    ensures { let line = state_line path.now (codes "same " ++ first.now) in
        OnOk result (lines.new.items ≡ lines.old.items ++ line ∷ []) }
{
    let line = same_line(alloc, path, first)?;
    lines.push(line)?;
    Ok(())
}

// An object or a group that was not shown before.
fn show_new<'a>(
    alloc: Global,
    state: &State<'a>,
    walk: &mut Walk<'a>,
    due: Due,
    sight: Sight<'a>,
) -> Result<(), AllocError>
    requires walk { IsWalk state.now walk.old }
    requires spot { IsSpot (size_of walk.old.entered) due.spot }
    requires sees { Sees (side_in state.now) (place_of walk.old.entered due.spot) sight }
    requires compound { is_compound (seen_shape sight.seen) ≡ true }
    requires new { get is_spot walk.old.paths due.spot ≡ None }
    ensures walk { OnOk result (IsWalk state.now walk.new) }
    ensures shown { OnOk result (Shows state.now due walk.old walk.new) }
{
    push_line(alloc, state.futures, &mut walk.lines, &due.path, sight.seen)?;
    expand(alloc, &mut walk.entered, &mut walk.due, &due, sight)?;
    walk.paths.insert(due.spot, due.path)?;
    Ok(())
}

// What is below a place is due, where the depth allows it.
fn expand<'a>(
    alloc: Global,
    entered: &mut Entered<'a>,
    all: &mut Vec<Due>,
    due: &Due,
    sight: Sight<'a>,
) -> Result<(), AllocError>
    requires numbered { IsNumbered entered.old }
    requires spot { IsSpot (size_of entered.old) due.now.spot }
    ensures numbered { OnOk result (IsNumbered entered.new) }
    ensures grows { OnOk result (Grows entered.old entered.new) }
    ensures spots { let spots = AreSpots (size_of entered.old) all.old.items in
        OnOk result (spots → AreSpots (size_of entered.new) all.new.items) }
    ensures below { (a : Side) → HasValues a entered.old
        → Sees a (place_of entered.old due.now.spot) sight.entry
        → OnOk result (HasValues a entered.new
        × IsExpanded a due.now entered.old entered.new all.old.items all.new.items) }
{
    if due.depth == 0 {
        return Ok(());
    }
    let home = entered.home(due.spot, sight.value)?;
    let parent = Parent {
        entered,
        home,
        path: &due.path,
        depth: due.depth - 1,
    };
    push_below(alloc, all, parent, sight.seen)
}
