//! The places of the contexts that frames are, and all places of a machine.

ghost use Rattle.std.specs.Prelude.{◌≡◌, ◌++◌, List, drop, reverse, slice_get, take, ℕ};
ghost use Rattle.std.specs.List.{flat_map};
ghost use Rattle.asp_model.specs.Configuration.{ServiceShape};
ghost use Rattle.asp_model.specs.Split.{Context};
ghost use Rattle.asp_model.specs.Term.{Tree, locations, locations_below};
ghost use Rattle.step_machine.specs.Items.{Item, Waits, contexts_of, services_of};
ghost use Rattle.step_machine.specs.Stacks.{IsItem, IsStack, last};
ghost use Rattle.step_machine.specs.Standing.{Standing, view_of};
ghost use Rattle.def_paths.specs.Agree.{places_in};
ghost use Rattle.path_equal.specs.Contexts.{
  StandsAt,
  next_before,
  next_service,
  part_places,
  parts_places,
  places_before,
};
ghost use Rattle.path_equal.specs.Searches.{searched};

use crate::calls::{laid_out, past_left};
use crate::context::past_behind;
use crate::focus::past_focus;
use crate::search::{Search, past};
use code_reading::{Cursor, all_but, behind, below, last_of, taken_by, up_to, waiting};
use code_table::Code;
use step_machine::{Form, Frame, Machine};

/// Which places of a context are passed.
#[derive(Clone, Copy)]
enum Part {
    /// Those behind the hole.
    Behind,
    /// All.
    Whole,
}

// Behind the places before the hole of the context that a frame is.
fn past_before(code: &Code, frame: Frame, own: &[usize], search: Search) -> Search
    ensures searched { (ns : List ℕ) (c : Context) →
        IsItem code.now ns own.now frame.form frame.node frame.from (Waits c) →
        result ≡ searched c.before search }
{
    match frame.form {
        Form::Terms => past(search, own),
        Form::Calls(spread) => {
            let laid = laid_out(code, spread, frame.node, frame.from, own);
            past(search, laid.results)
        }
        Form::Service => search,
    }
}

// Behind those behind the hole.
fn past_after(code: &Code, places: &[usize], frame: Frame, own: &[usize], search: Search) -> Search
    ensures searched { (c : Context) →
        IsItem code.now places.now own.now frame.form frame.node frame.from (Waits c) →
        result ≡ searched (locations_below c.behind) search }
{
    match frame.form {
        Form::Terms => past_behind(code, places, frame.node, frame.from, own.len(), 1, search),
        Form::Calls(spread) => {
            let laid = laid_out(code, spread, frame.node, frame.from, own);
            past_left(spread, laid, 1, search)
        }
        Form::Service => search,
    }
}

// Behind the places of the context that the innermost frame is.
fn past_context(code: &Code, cursor: &Cursor, frame: Frame, part: Part, search: Search) -> Search
    ensures searched { let ns = drop frame.base (take frame.height cursor.now.env.now) in
        let own = last frame.done cursor.now.operands.now in
        (c : Context) → IsItem code.now ns own frame.form frame.node frame.from (Waits c) →
        result ≡ searched (part_places part c) search }
{
    let places = behind(up_to(cursor.env, frame.height), frame.base);
    let own = last_of(cursor.operands, frame.done);
    match part {
        Part::Behind => past_after(code, places, frame, own, search),
        Part::Whole => {
            let search = past_before(code, frame, own, search);
            past_after(code, places, frame, own, search)
        }
    }
}

// Behind those of the innermost frames, as far as they wait for terms, the innermost first.
fn past_contexts(code: &Code, from: Cursor, part: Part, start: Search) -> Search
    ensures searched { (items : List Item) →
        StandsAt code.now from.entry items →
        result ≡ searched (parts_places part (contexts_of items)) start }
{
    let mut search = start;
    let mut cursor = from;
    while let Some((frame, others)) = waiting(cursor.frames) {
        search = past_context(code, &cursor, frame, part, search);
        cursor = below(&cursor, frame, others);
    }
    search
}

// Behind the places before the holes of the term that runs, the outermost first.
fn past_befores(code: &Code, frames: &[Frame], operands: &[usize], start: Search) -> Search
    ensures searched { (env : List ℕ) (items : List Item) →
        IsStack code.now (reverse frames.now) env operands.now items →
        result ≡ searched (places_before (contexts_of items)) start }
{
    let mut search = start;
    let mut rest = operands;
    for frame in frames {
        search = past_next(code, *frame, up_to(rest, frame.done), start, search);
        rest = behind(rest, frame.done);
    }
    search
}

// With the next frame, which begins anew where it is a service's.
fn past_next(code: &Code, frame: Frame, own: &[usize], start: Search, search: Search) -> Search
    ensures searched { (ns : List ℕ) (x : Item) →
        IsItem code.now ns own.now frame.form frame.node frame.from x →
        result ≡ next_before x start search }
{
    match frame.form {
        Form::Service => start,
        Form::Terms => past_before(code, frame, own, search),
        Form::Calls(_) => past_before(code, frame, own, search),
    }
}

// Behind those of the suspended services, the oldest first.
fn past_services(code: &Code, all: Cursor, start: Search) -> Search
    ensures searched { (items : List Item) →
        StandsAt code.now all.entry items →
        result ≡ searched (flat_map places_in (reverse (services_of items))) start }
{
    let mut search = start;
    let mut rest = all.operands;
    for i in 0..all.frames.len() {
        let frame = all.frames[i];
        let outer = Cursor {
            frames: &all.frames[..i],
            env: up_to(all.env, frame.height),
            operands: all_but(all.operands, rest.len()),
        };
        search = past_service(code, outer, frame.form, search);
        rest = behind(rest, frame.done);
    }
    search
}

// With the next frame. Where it is a service's, the contexts outside it are suspended.
fn past_service(code: &Code, outer: Cursor, form: Form, search: Search) -> Search
    ensures searched { (ns own : List ℕ) (number from : ℕ) (x : Item) (items : List Item) →
        IsItem code.now ns own form number from x →
        StandsAt code.now outer.entry items →
        result ≡ next_service x items search }
{
    match form {
        Form::Service => past_contexts(code, outer, Part::Whole, search),
        Form::Terms => search,
        Form::Calls(_) => search,
    }
}

/// The place with a number among the locations of the term and then of the suspended services, the
/// oldest first, from 0; none where there are not so many.
pub fn nth_place(code: &Code, machine: &Machine, number: usize) -> Option<usize>
    // for the term and the services, newest first, that the machine stands for
    ensures place { (t : Tree) (vs : List ServiceShape) →
        Standing code.now (view_of machine.now) t vs →
        result ≡ slice_get (locations t ++ flat_map places_in (reverse vs)) number }
{
    let all = Cursor {
        frames: &machine.frames,
        env: &machine.env,
        operands: all_but(&machine.operands, taken_by(machine.focus)),
    };
    let before = past_befores(code, all.frames, all.operands, Search::Left(number));
    let term = past_focus(code, machine, before);
    let behind = past_contexts(code, all, Part::Behind, term);
    match past_services(code, all, behind) {
        Search::Found(place) => Some(place),
        Search::Left(_) => None,
    }
}
