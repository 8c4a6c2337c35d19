//! Places as they are read: words, which other stores may share, and where these go.

ghost use Rattle.std.specs.Prelude.{◌≡◌, ◌<◌, ◌≤◌, ◌++◌, [], IfOk, IsTrue, OnErr, OnOk, bytes_eq, drop, get_or, length, map, nat_lt, slice_get, take, ℕ};
ghost use Rattle.std.specs.List.{list_all};
ghost use Rattle.code_table.specs.Moves.{raised_at as raised_place, shift_of};
ghost use Rattle.code_table.specs.Places.{placed, shift_in};

use crate::cells::Place;
use std::alloc::{AllocError, Global};

/// Where the places of cells go that stand in a store behind its own.
#[derive(Clone, Copy)]
pub enum Shift {
    /// Each one up by so many.
    Up(Place),
    /// The place 0 to a root, and each other one up by one less than `size`.
    RootTo { root: Place, size: Place },
}

impl Shift {
    /// Where a place goes. No place goes past the greatest one.
    #[inline(always)]
    pub fn moved(&self, place: Place) -> Place
        ensures place { result ≡ shift_of self.now place }
    {
        match self {
            Shift::Up(size) => place.saturating_add(*size),
            Shift::RootTo { root, size } => raised_at(*size, *root, place),
        }
    }
}

#[inline(always)]
fn raised_at(size: Place, root: Place, place: Place) -> Place
    ensures { result ≡ raised_place size root place }
{
    if place == 0 {
        root
    } else {
        (place - 1).saturating_add(size)
    }
}

/// The places of an object, or the members of a group, in order. A store's own are words as they
/// stand; those that it shares go where a shift says.
#[derive(Clone, Copy)]
pub struct Places<'a> {
    pub words: &'a [Place],
    pub shift: Option<&'a Shift>,
}

impl<'a> Places<'a> {
    /// These words, as they stand.
    #[inline(always)]
    pub fn of(words: &'a [Place]) -> Places<'a>
        ensures places { placed result ≡ words.now }
    {
        Places { words, shift: None }
    }

    #[inline(always)]
    #[tactic(auto, using(crate::proofs::PlacesLemmas::shifted_length))]
    pub fn len(&self) -> usize
        ensures { result ≡ length (placed self.now) }
    {
        self.words.len()
    }

    #[inline(always)]
    #[tactic(auto, using(crate::proofs::PlacesLemmas::shifted_none))]
    pub fn is_empty(&self) -> bool
        ensures none { IsTrue result → placed self.now ≡ [] }
    {
        self.words.is_empty()
    }

    /// The place with a number, where there are that many.
    #[inline(always)]
    #[tactic(auto, using(crate::proofs::PlacesLemmas::shifted_got, crate::proofs::PlacesLemmas::shifted_not_got))]
    pub fn get(&self, at: usize) -> Option<Place>
        ensures place { result ≡ slice_get (placed self.now) at }
    {
        match word_at(self.words, at) {
            Some(word) => Some(shifted(self.shift, word)),
            None => None,
        }
    }

    /// The place with a number.
    #[inline(always)]
    pub fn at(&self, at: usize) -> Place
        requires within { at < length (placed self.now) }
        ensures place { (d : ℕ) → result ≡ get_or (placed self.now) at d }
    {
        shifted(self.shift, self.words[at])
    }

    /// Those behind the first so many.
    #[inline(always)]
    #[tactic(auto, using(crate::proofs::PlacesLemmas::shifted_length, crate::proofs::PlacesLemmas::shifted_drop))]
    pub fn behind(&self, count: usize) -> Places<'a>
        requires within { count ≤ length (placed self.now) }
        ensures places { placed result ≡ drop count (placed self.now) }
    {
        Places {
            words: words_behind(self.words, count),
            shift: self.shift,
        }
    }

    /// The first so many.
    #[inline(always)]
    #[tactic(auto, using(crate::proofs::PlacesLemmas::shifted_length, crate::proofs::PlacesLemmas::shifted_take))]
    pub fn first(&self, count: usize) -> Places<'a>
        requires within { count ≤ length (placed self.now) }
        ensures places { placed result ≡ take count (placed self.now) }
    {
        Places {
            words: &self.words[..count],
            shift: self.shift,
        }
    }

    /// Whether these are the same places.
    pub fn is_same(&self, other: &Places) -> bool
        ensures { result ≡ bytes_eq (placed self.now) (placed other.now) }
    {
        if self.len() != other.len() {
            return false;
        }
        let mut at = 0;
        while at < self.len() {
            let one = self.at(at);
            let two = other.at(at);
            if one != two {
                return false;
            }
            at += 1;
        }
        true
    }

    /// Whether each of the places is below a number.
    pub fn are_under(&self, size: usize) -> bool
        ensures { result ≡ list_all (λ n. nat_lt n size) (placed self.now) }
    {
        match self.shift {
            Some(shift) => are_moved_under(self.words, shift, size),
            None => self.words.iter().all(|word| *word < size),
        }
    }

    /// The places in a vector.
    pub fn listed(&self, alloc: Global) -> Result<Vec<Place>, AllocError>
        ensures places { IfOk result (λ v. v.items ≡ placed self.now) }
    {
        let mut places = Vec::with_capacity(alloc, self.len())?;
        self.push_to(&mut places)?;
        Ok(places)
    }

    /// Appends them to others.
    #[inline(always)]
    pub fn push_to(&self, others: &mut Vec<Place>) -> Result<(), AllocError>
        ensures places { OnOk result (others.new.items ≡ others.old.items ++ placed self.now) }
        ensures err { OnErr result (others.new.items ≡ others.old.items) }
    {
        match self.shift {
            Some(shift) => push_shifted(others, self.words, shift),
            None => push_words(others, self.words),
        }
    }
}

#[inline(always)]
fn word_at(words: &[Place], at: usize) -> Option<Place>
    ensures { result ≡ slice_get words.now at }
{
    words.get(at).copied()
}

#[inline(always)]
fn words_behind(words: &[Place], count: usize) -> &[Place]
    requires within { count ≤ length words.now }
    ensures { result.now ≡ drop count words.now }
{
    &words[count..]
}

/// Where a word goes, if it goes anywhere.
#[inline(always)]
pub(crate) fn shifted(shift: Option<&Shift>, word: Place) -> Place
    ensures place { result ≡ shift_in shift.entry word }
{
    match shift {
        Some(shift) => shift.moved(word),
        None => word,
    }
}

fn are_moved_under(words: &[Place], shift: &Shift, size: usize) -> bool
    ensures { result ≡ list_all (λ n. nat_lt (shift_of shift.now n) size) words.now }
{
    words.iter().all(|word| shift.moved(*word) < size)
}

// Appends words one by one, since most are few.
#[inline(always)]
fn push_words(others: &mut Vec<Place>, words: &[Place]) -> Result<(), AllocError>
    ensures places { OnOk result (others.new.items ≡ others.old.items ++ words.now) }
    ensures err { OnErr result (others.new.items ≡ others.old.items) }
{
    others.reserve(words.len())?;
    for word in words {
        others.push_reserved(*word);
    }
    Ok(())
}

// Appends words, each where it goes.
#[inline(never)]
fn push_shifted(others: &mut Vec<Place>, words: &[Place], shift: &Shift) -> Result<(), AllocError>
    ensures places { let moved = map (shift_of shift.now) words.now in
        OnOk result (others.new.items ≡ others.old.items ++ moved) }
    ensures err { OnErr result (others.new.items ≡ others.old.items) }
{
    others.reserve(words.len())?;
    for word in words {
        others.push_reserved(shift.moved(*word));
    }
    Ok(())
}
