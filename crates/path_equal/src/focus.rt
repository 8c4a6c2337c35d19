//! The places of the term that a machine looks at.

ghost use Rattle.std.specs.Prelude.{◌≡◌, List, drop, ℕ};
ghost use Rattle.asp_model.specs.Term.{Tree, locations};
ghost use Rattle.step_machine.specs.Calls.{IsDealt};
ghost use Rattle.step_machine.specs.Stacks.{last};
ghost use Rattle.step_machine.specs.Standing.{IsBegun, IsFocus, taken};
ghost use Rattle.path_equal.specs.Searches.{searched};

use crate::calls::{laid_out, past_left};
use crate::context::past_behind;
use crate::search::{Search, past, past_place};
use code_reading::{behind, last_of};
use code_table::Code;
use step_machine::{Focus, Machine, Spread};

/// Behind the places of the term that the machine looks at.
pub fn past_focus(code: &Code, machine: &Machine, start: Search) -> Search
    ensures searched { let ns = drop machine.now.base machine.now.env.items in
        let own = last (taken machine.now.focus) machine.now.operands.items in
        (t : Tree) → IsFocus code.now machine.now.asked.label.text ns own machine.now.focus t →
        result ≡ searched (locations t) start }
{
    match machine.focus {
        Focus::Node { number, from, done } => {
            let places = behind(&machine.env, machine.base);
            let own = last_of(&machine.operands, done);
            past_begun(code, places, number, from, own, start)
        }
        Focus::Place(place) => past_place(start, place),
        Focus::Asked(count) => past(start, last_of(&machine.operands, count)),
        Focus::Calls {
            spread,
            number,
            members,
            done,
        } => {
            let own = last_of(&machine.operands, done);
            past_dealt(code, spread, number, members, own, start)
        }
        Focus::Called { count, .. } => past(start, last_of(&machine.operands, count)),
    }
}

// Behind those of a node whose first terms are done.
fn past_begun(
    code: &Code,
    places: &[usize],
    number: usize,
    from: usize,
    own: &[usize],
    start: Search,
) -> Search
    ensures searched { (t : Tree) → IsBegun code.now places.now own.now number from t →
        result ≡ searched (locations t) start }
{
    let search = past(start, own);
    past_behind(code, places, number, from, own.len(), 0, search)
}

// Behind those of a group of calls, of which the first have their results.
fn past_dealt(
    code: &Code,
    spread: Spread,
    number: usize,
    members: usize,
    own: &[usize],
    start: Search,
) -> Search
    ensures searched { (t : Tree) → IsDealt code.now spread own.now number members t →
        result ≡ searched (locations t) start }
{
    let laid = laid_out(code, spread, number, members, own);
    let search = past(start, laid.results);
    past_left(spread, laid, 0, search)
}
