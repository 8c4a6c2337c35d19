//! The places of groups of calls, of which the first have their results.

ghost use Rattle.std.specs.Prelude.{◌≡◌, ◌+◌, ◌<◌, drop, length};
ghost use Rattle.code_table.specs.Tables.{piece_at, pieces};
ghost use Rattle.code_laws.specs.Nodes.{in_place};
ghost use Rattle.step_machine.specs.Calls.{IsLaid, beside_count as count_beside, rounds};
ghost use Rattle.path_equal.specs.Contexts.{IsLaidOut, all_of, call_places};
ghost use Rattle.path_equal.specs.Searches.{searched};

use crate::search::{Search, past, past_some};
use code_reading::{behind, up_to};
use code_table::Code;
use step_machine::{Spread, in_place_count};

/// The operands of a group of calls.
#[derive(Clone, Copy)]
pub struct Laid<'a> {
    /// What its node was given.
    pub given: &'a [usize],
    pub members: &'a [usize],
    /// The arguments of their own.
    pub beside: &'a [usize],
    pub results: &'a [usize],
}

fn given_count(code: &Code, number: usize) -> usize
    ensures count { result ≡ in_place (piece_at (pieces code.now) number) }
{
    let nodes = code.nodes();
    if number < nodes.len() {
        in_place_count(&nodes[number], 0)
    } else {
        0
    }
}

fn beside_count(spread: Spread, members: usize) -> usize
    ensures count { result ≡ count_beside spread members }
{
    match spread {
        Spread::Same => 0,
        Spread::Own => members,
    }
}

/// The parts of the operands.
pub fn laid_out<'a>(
    code: &Code,
    spread: Spread,
    number: usize,
    members: usize,
    own: &'a [usize],
) -> Laid<'a>
    ensures laid { (l : IsLaid code.now spread number members own.now) →
        IsLaidOut code.now spread number members own.now l result }
{
    let given = given_count(code, number);
    let called = behind(own, given);
    let beside = beside_count(spread, members);
    let rest = behind(called, members);
    Laid {
        given: up_to(own, given),
        members: up_to(called, members),
        beside: up_to(rest, beside),
        results: behind(rest, beside),
    }
}

/// Behind the places of the calls that have no results yet, but for the first of these.
pub fn past_left(spread: Spread, laid: Laid, holes: usize, start: Search) -> Search
    ensures searched { let ns = laid.entry.members.now in let ks = laid.entry.beside.now in
        let all = rounds spread laid.entry.given.now ns ks in
        let first = length laid.entry.results.now + holes in
        length ks ≡ count_beside spread (length ns) →
        result ≡ searched (all_of (drop first all)) start }
{
    let done = laid.results.len();
    let members = behind(behind(laid.members, done), holes);
    let beside = behind(behind(laid.beside, done), holes);
    past_calls(spread, laid.given, members, beside, start)
}

fn past_calls(
    spread: Spread,
    given: &[usize],
    members: &[usize],
    beside: &[usize],
    start: Search,
) -> Search
    ensures searched { length beside.now ≡ count_beside spread (length members.now) →
        result ≡ searched (all_of (rounds spread given.now members.now beside.now)) start }
{
    let mut search = start;
    for i in 0..members.len() {
        search = past_call(spread, given, members, beside, i, search);
    }
    search
}

fn past_call(
    spread: Spread,
    given: &[usize],
    members: &[usize],
    beside: &[usize],
    number: usize,
    start: Search,
) -> Search
    ensures searched { let round = call_places spread given.now members.now beside.now number in
        number < length members.now →
        length beside.now ≡ count_beside spread (length members.now) →
        result ≡ searched round start }
{
    let search = past_some(start, members.get(number).copied());
    match spread {
        Spread::Same => past(search, behind(given, 1)),
        Spread::Own => past_some(search, beside.get(number).copied()),
    }
}
