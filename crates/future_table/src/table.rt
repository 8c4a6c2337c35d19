//! The table of filled futures.

ghost use Rattle.std.specs.Prelude.{
  ◌≡◌,
  ◌↔◌,
  IfOk,
  IfSome,
  IsSome,
  List,
  None,
  OnErr,
  OnOk,
  [],
  length,
  true,
};
ghost use Rattle.std.specs.FinMap.{find, put};
ghost use Rattle.std.specs.List.{Contains};
ghost use Rattle.std.specs.Map.{values_of as parcels};
ghost use Rattle.std.specs.Option.{option_map};
ghost use Rattle.asp_model.specs.Chase.{chase as chase_of};
ghost use Rattle.asp_model.specs.Names.{future_cmp};
ghost use Rattle.asp_model.specs.Shapes.{future_shape};
ghost use Rattle.code_table.specs.Cells.{held_future};
ghost use Rattle.code_table.specs.Seen.{IsOf, seen_by};
ghost use Rattle.code_table.specs.Shapes.{parcel_shape};
ghost use Rattle.code_table.specs.Shown.{answer_items};
ghost use Rattle.code_table.specs.declared.code.Node.{Node as NodeShape};
ghost use Rattle.future_table.specs.Confirmed.{HasSeen, IsSeen, cells_of};
ghost use Rattle.future_table.specs.Values.{
  AreOfCode,
  StayOfCode,
  chase_shape,
  lent_values,
  told,
  values_of,
};

use crate::chase::Chase;
use crate::walks::{self, Walks};
use asp_model::FutureName;
use code_table::{Answer, Future, Parcel, Sighting};
use std::alloc::{AllocError, Global};
use std::collections::BTreeMap;
use std::marker::Model;
use std::sync::Arc;

/// The filled futures with their values, seen as entries in ascending order of names.
pub struct FutureTable {
    walks: Walks,
}

// Written out, so that crates above drop it by one call.
impl Drop for FutureTable {
    fn drop(self) {
        let FutureTable { walks: _ } = self;
    }
}

impl Model for FutureTable {
    ghost use Rattle.std.specs.Prelude.{List};
    ghost use Rattle.asp_model.specs.declared.name.FutureName.{FutureName};
    ghost use Rattle.code_table.specs.declared.cells.Parcel.{Parcel};

    ghost Value = { List (FutureName × Parcel) };

    ghost use Rattle.future_table.specs.Walks.{IsWhole, filled_in};

    ghost view = { λ t. filled_in t.walks };

    ghost invariant = { λ t. IsWhole t.walks };
}

impl FutureTable {
    /// A table with no future.
    pub fn new(alloc: Global) -> FutureTable
        ensures values { values_of result ≡ [] }
    {
        FutureTable {
            walks: walks::none(alloc),
        }
    }

    /// Gives a future its value. Then the value is shown to all who hold the future, where it may be
    /// shown.
    pub fn fill(&mut self, future: Arc<Future>, value: Parcel) -> Result<(), AllocError>
        requires absent { find future_cmp (held_future future) (values_of self.old) ≡ None }
        requires one_root { length value.roots.items ≡ 1 }
        ensures values { let old = values_of self.old in OnOk result
            (values_of self.new ≡ put future_cmp (held_future future) (parcel_shape value) old) }
        ensures code { OnOk result (StayOfCode value self.old self.new) }
        ensures err { OnErr result (self.new ≡ self.old) }
    {
        let name = future.name.copy(self.walks.alloc)?;
        let answer = answer_of(self.walks.alloc, &future, &value)?;
        walks::fill(&mut self.walks, name, value)?;
        if let Some(answer) = answer {
            future.show(answer);
        }
        Ok(())
    }

    /// How many futures were met, which is the number of the next one. It is a hint: no clause says it.
    pub fn next_number(&self) -> u32 {
        u32::try_from(self.walks.links.len()).unwrap_or(u32::MAX)
    }

    /// The value of a future, if it is filled.
    pub fn value(&self, name: &FutureName) -> Option<&Parcel>
        ensures value { option_map (λ p. parcel_shape p.now) result
            ≡ find future_cmp (future_shape name.now) (values_of self.now) }
        ensures held { IfSome result (λ p. Contains (parcels self.now) p.now) }
    {
        walks::value(&self.walks, name)
    }

    /// Whether the value that a holder has seen of a future is the one that it has here. It takes no
    /// memory.
    pub fn confirms(&self, future: &Future, sighting: &mut Sighting) -> bool
        requires of { IsOf future.now sighting.old }
        requires seen { IsSome (seen_by sighting.old) }
        ensures confirms { let seen = option_map answer_items (seen_by sighting.old) in
            (result ≡ true) ↔ (cells_of future.now.name self.now ≡ seen) }
        // whatever code the values are of
        ensures value { (k : List NodeShape) → AreOfCode k self.now → result ≡ true →
            HasSeen k (future_shape future.now.name) (values_of self.now) (seen_by sighting.old) }
        ensures kept { seen_by sighting.new ≡ seen_by sighting.old }
        ensures of { IsOf future.now sighting.new }
    {
        match walks::value(&self.walks, &future.name) {
            Some(value) => is_value(value, future, sighting),
            None => false,
        }
    }

    /// The filled futures in ascending order, with their values.
    pub fn entries(&self) -> Result<BTreeMap<FutureName, &Parcel>, AllocError>
        ensures entries { IfOk result (λ m. lent_values m.entries ≡ values_of self.now) }
    {
        walks::entries(&self.walks)
    }

    /// Where the walk from a future ends.
    pub fn chase<'a>(&'a self, name: &'a FutureName) -> Chase<'a>
        ensures chase { let c = chase_of (values_of self.now) (future_shape name.now) in
            chase_shape result ≡ told c }
    {
        walks::chase(&self.walks, name)
    }
}

// The value as it is shown, where others hold the future and it may be.
fn answer_of(
    alloc: Global,
    future: &Arc<Future>,
    value: &Parcel,
) -> Result<Option<Box<Answer>>, AllocError>
    ensures answer { let cells = value.now.cells.items in
        IfOk result (λ r. IfSome r (λ a. answer_items a.value ≡ cells)) }
{
    if Arc::strong_count(future) == 1 {
        return Ok(None);
    }
    match Answer::of(alloc, &value.cells)? {
        Some(answer) => Ok(Some(Box::new(alloc, answer)?)),
        None => Ok(None),
    }
}

// Whether this is the value that a holder has seen.
fn is_value(value: &Parcel, future: &Future, sighting: &mut Sighting) -> bool
    requires of { IsOf future.now sighting.old }
    requires seen { IsSome (seen_by sighting.old) }
    ensures same { (result ≡ true) ↔ IsSeen value.now.cells.items (seen_by sighting.old) }
    ensures kept { seen_by sighting.new ≡ seen_by sighting.old }
    ensures of { IsOf future.now sighting.new }
{
    match future.peek(sighting) {
        Some(answer) => answer.is_of(&value.cells),
        None => unreachable!(),
    }
}
