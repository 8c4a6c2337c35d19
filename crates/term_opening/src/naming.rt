//! Names of places: their numbers in decimals, so no name of the language is one of them.

ghost use Rattle.std.specs.Prelude.{◌≡◌, ◌<◌, ◌^◌, [], false, map, IfOk, OnOk};
ghost use Rattle.std.specs.Fmt.{decimal};
ghost use Rattle.asp_model.specs.Shapes.{tree_of};
ghost use Rattle.asp_model.specs.Term.{Var, leaf};
ghost use Rattle.term_opening.specs.Naming.{
  begins_with_digit,
  with_name,
  with_new,
  with_place,
};
ghost use Rattle.term_opening.specs.Named.{AreSmall};

use asp_model::{Mark, Term, Word};
use code_table::Place;
use indexmap::IndexSet;
use std::alloc::{AllocError, Global};
use std::marker::Model;

/// The places of terms, each once, in the order in which they were named; and whether a name of these
/// terms begins with a digit.
#[derive(Drop)]
pub struct Naming {
    alloc: Global,
    places: IndexSet<Place>,
    clash: bool,
}

impl Model for Naming {
    ghost use Rattle.term_opening.specs.Naming.{Seen};

    ghost Value = { Seen };

    ghost use Rattle.term_opening.specs.Named.{AreSmallKeys, seen_of};

    ghost view = { seen_of };

    ghost invariant = { AreSmallKeys };
}

impl Naming {
    /// No place, and no name.
    pub fn new(alloc: Global) -> Naming
        ensures places { result.places ≡ [] }
        ensures clash { result.clash ≡ false }
    {
        Naming {
            alloc,
            places: IndexSet::new(alloc),
            clash: false,
        }
    }

    /// Whether a name begins with a digit.
    pub fn clash(&self) -> bool
        ensures clash { result ≡ self.now.clash }
    {
        self.clash
    }

    /// The variable that stands for a place.
    pub fn variable(&mut self, place: asp_model::Place) -> Result<Term, AllocError>
        ensures place { OnOk result (self.new ≡ with_place place self.old) }
        ensures term { IfOk result (λ t. tree_of t ≡ leaf (Var (decimal place))) }
    {
        let place = enter(&mut self.places, place)?;
        let name = name_of(self.alloc, place)?;
        Ok(Term::Var(name, Mark::blank(self.alloc)))
    }

    /// Notes a name.
    pub fn note(&mut self, name: &Word)
        ensures name { self.new ≡ with_name name.now self.old }
    {
        self.clash = self.clash || begins_with_digit(name);
    }

    /// The names of the places, and the places.
    pub fn into_names(self) -> Result<(Vec<Word>, Vec<Place>), AllocError>
        ensures names { IfOk result (λ r. r.0.items ≡ map decimal self.places) }
        ensures places { IfOk result (λ r. r.1.items ≡ self.places) }
        ensures small { OnOk result (AreSmall self.places) }
    {
        let names = names_of(self.alloc, self.places.as_slice())?;
        let places = copy(self.alloc, self.places.as_slice())?;
        Ok((names, places))
    }
}

// Adds a place, where it is not there.
fn enter(places: &mut IndexSet<Place>, place: asp_model::Place) -> Result<Place, AllocError>
    ensures same { IfOk result (λ p. p ≡ place) }
    ensures places { OnOk result (places.new.keys ≡ with_new place places.old.keys) }
    ensures small { AreSmall places.old.keys → AreSmall places.new.keys }
{
    let number = short(place)?;
    places.insert_full(number)?;
    Ok(number)
}

fn names_of(alloc: Global, places: &[Place]) -> Result<Vec<Word>, AllocError>
    ensures names { IfOk result (λ v. v.items ≡ map decimal places.now) }
{
    let mut names = Vec::with_capacity(alloc, places.len())?;
    for place in places {
        names.push(name_of(alloc, *place)?)?;
    }
    Ok(names)
}

fn copy(alloc: Global, places: &[Place]) -> Result<Vec<Place>, AllocError>
    ensures places { IfOk result (λ v. v.items ≡ places.now) }
{
    let mut copies = Vec::with_capacity(alloc, places.len())?;
    copies.extend_from_slice(places)?;
    Ok(copies)
}

/// A place of a store in memory. `AllocError` is the answer to a greater one.
pub fn short(place: asp_model::Place) -> Result<Place, AllocError>
    ensures same { IfOk result (λ p. p ≡ place) }
    ensures small { OnOk result (place < 2 ^ 64) }
{
    match usize::try_from(place) {
        Ok(place) => Ok(place),
        Err(_) => Err(AllocError),
    }
}

fn name_of(alloc: Global, place: Place) -> Result<Word, AllocError>
    ensures name { IfOk result (λ w. w ≡ decimal place) }
{
    Ok(Word::new(format!(in alloc; "{place}")?))
}

fn begins_with_digit(name: &Word) -> bool
    ensures digit { result ≡ begins_with_digit name.now }
{
    match name.as_str().as_bytes() {
        [first, ..] => first.is_ascii_digit(),
        [] => false,
    }
}
