//! The steps on the table by which a turn is taken and given up.

ghost use Rattle.std.specs.Prelude.{◌≡◌, ℕ, ◌<◌, [], ◌∷◌, length, Some, None, true, false};
ghost use Rattle.turn_hub.specs.Numbers.{IsSized};
ghost use Rattle.turn_hub.specs.Sharing.{Gets, IsKept, settled};
ghost use Rattle.turn_hub.specs.Seats.{Releases, IsSamePlace};

use crate::lends::Lends;
use crate::rule::{Release, Top, Try};
use crate::seat::Place;
use std::hint;
use std::sync::Wait;

/// The word that says who has the turn, and the slot of the value.
const TURN: usize = 0;

const VALUE: usize = 0;

/// The word while nobody has the turn.
const FREE: u64 = 0;

/// The word while somebody has the turn and nobody sleeps for it.
const TAKEN: u64 = 1;

/// The word while somebody has the turn and others may sleep for it.
const AWAITED: u64 = 2;

/// How often a seat looks at the word before it sleeps: 50 to 200 microseconds, by the processor.
/// That is many turns, and a sleep and its wake cost more than most of them.
const LOOKS: u32 = 4_000;

/// Waits until the turn is got.
pub(crate) fn get_turn<H: Lends, R: Wait>(rt: &R, top: &Top<H>, place: &mut Place<H>)
    requires table { (place.old.table_id ≡ top.now.table_id) × IsSized top.now.table_id }
    requires live { 0 < length place.old.me.0.numbers }
    ensures same { IsSamePlace place.old place.new }
    ensures gets { Gets H.history H.out H.keeps place.old.me place.new.me }
{
    if !try_turn(top, place) && !look_for_turn(top, place) {
        wait_for_turn(rt, top, place);
    }
}

// Gets the turn where it is free.
fn try_turn<H: Lends>(top: &Top<H>, place: &mut Place<H>) -> bool
    requires table { (place.old.table_id ≡ top.now.table_id) × IsSized top.now.table_id }
    requires live { 0 < length place.old.me.0.numbers }
    ensures same { IsSamePlace place.old place.new }
    ensures gets { result ≡ true → Gets H.history H.out H.keeps place.old.me place.new.me }
    ensures kept { result ≡ false → place.new.me ≡ place.old.me }
{
    top.compare_exchange::<Try>(place, TURN, FREE, TAKEN) == FREE
}

// Looks for a while, and gets the turn where it comes free meanwhile.
fn look_for_turn<H: Lends>(top: &Top<H>, place: &mut Place<H>) -> bool
    requires table { (place.old.table_id ≡ top.now.table_id) × IsSized top.now.table_id }
    requires live { 0 < length place.old.me.0.numbers }
    ensures same { IsSamePlace place.old place.new }
    ensures gets { result ≡ true → Gets H.history H.out H.keeps place.old.me place.new.me }
    ensures kept { result ≡ false → place.new.me ≡ place.old.me }
{
    for _look in 0..LOOKS {
        hint::spin_loop();
        if top.peek(TURN) == FREE && try_turn(top, place) {
            return true;
        }
    }
    false
}

// Looks for a while, or until the turn is free.
fn watch<H: Lends>(top: &Top<H>)
    requires table { IsSized top.now.table_id }
{
    for _look in 0..LOOKS {
        if top.peek(TURN) == FREE {
            return;
        }
        hint::spin_loop();
    }
}

// Sleeps until the turn is got. Each who sleeps leaves a word that says so, also with the turn:
// others may sleep too. One who was woken looks for a while before it sleeps again, since others
// who look may be faster.
fn wait_for_turn<H: Lends, R: Wait>(rt: &R, top: &Top<H>, place: &mut Place<H>)
    requires table { (place.old.table_id ≡ top.now.table_id) × IsSized top.now.table_id }
    requires live { 0 < length place.old.me.0.numbers }
    ensures same { IsSamePlace place.old place.new }
    ensures gets { Gets H.history H.out H.keeps place.old.me place.new.me }
{
    for _ in rt.forever() {
        if top.swap::<Try>(place, TURN, AWAITED) == FREE {
            return;
        }
        top.park(rt, TURN, AWAITED as u32);
        watch(top);
    }
    unreachable!()
}

/// The value out of the slot, which is then empty.
pub(crate) fn pick_up<H: Lends>(top: &Top<H>, place: &mut Place<H>) -> H
    requires table { place.old.table_id ≡ top.now.table_id }
    requires full { (h : H) × (place.old.me.1 ≡ (0, Some h) ∷ []) }
    ensures same { IsSamePlace place.old place.new }
    ensures value { place.old.me.1 ≡ (0, Some result) ∷ [] }
    ensures empty { place.new.me ≡ (place.old.me.0, (0, None) ∷ []) }
{
    match top.exchange(place, VALUE, None) {
        Some(value) => value,
        None => unreachable!(),
    }
}

/// The value into the slot, and the turn given up. One of those that may sleep for it is woken.
pub(crate) fn give_up<H: Lends>(top: &Top<H>, place: &mut Place<H>, value: H)
    requires table { (place.old.table_id ≡ top.now.table_id) × IsSized top.now.table_id }
    requires empty { (place.old.me.1 ≡ (0, None) ∷ []) × (0 < length place.old.me.0.numbers) }
    requires later { Releases H.history H.out place.old.me.0 value }
    requires kept { IsKept H.keeps place.old.me.0.opened value }
    ensures same { IsSamePlace place.old place.new }
    ensures settled { place.new.me ≡ (settled H.history H.out place.old.me.0 value, []) }
{
    let None = top.exchange(place, VALUE, Some(value)) else {
        unreachable!()
    };
    if top.swap::<Release>(place, TURN, FREE) == AWAITED {
        top.wake_one(TURN);
    }
}
