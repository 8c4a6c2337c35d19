//! Cells: as a store keeps them, as they are read, and deep copies of cells.

ghost use Rattle.std.specs.Prelude.{◌≡◌, ◌<◌, ◌+◌, ◌≤◌, ◌^◌, [], IfOk, IsOk, List, length, ℕ};
ghost use Rattle.std.specs.Arc.{arc_value};
ghost use Rattle.code_table.specs.Cells.{
  IsBare,
  Object as object_with,
  bare,
  coded,
  coded_in,
  end_of,
  moved_coded,
  read_coded,
  span_of,
  span_places,
  word_at,
};
ghost use Rattle.code_table.specs.Moves.{shift_of};
ghost use Rattle.code_table.specs.Shapes.{parcel_shape};

use crate::carried::Cells;
use crate::future::Future;
use crate::places::{Places, Shift};
use crate::roots::Roots;
use crate::table::Code;
use asp_model::ActivityName;
use std::alloc::{AllocError, Global};
use std::mem::size_of;
use std::sync::Arc;

/// The number of a cell in a store.
pub type Place = usize;

/// A cell as a store keeps it. An object's and a group's places lie among the words beside the cells.
#[derive(Drop)]
pub enum Cell {
    Number(i64),
    Object { class: u32, start: u32, count: u32 },
    Group { start: u32, count: u32 },
    /// An activity, which has a store of its own.
    Reference(Arc<ActivityName>),
    /// The answer of a request, before its value is needed. All who hold it share it.
    Future(Arc<Future>),
}

const _: () = prove!(size_of::<Cell>() == 16);

/// An object as it is read: its class, by the number of the node that makes it, and its places: its
/// fields', then those that its methods captured, each method's behind the one before.
#[derive(Clone, Copy)]
pub struct Object<'a> {
    pub class: usize,
    pub places: Places<'a>,
}

/// A cell as it is read.
#[derive(Clone, Copy)]
pub enum View<'a> {
    Number(i64),
    Object(Object<'a>),
    Reference(&'a Arc<ActivityName>),
    Future(&'a Arc<Future>),
    /// The members of a group, in order.
    Group(Places<'a>),
}

impl Cell {
    /// An object without places.
    pub fn bare_object(class: usize) -> Result<Cell, AllocError>
        ensures bare { IfOk result IsBare }
        ensures cell { IfOk result (λ c. bare c ≡ object_with class []) }
        ensures succeeds { class < 2 ^ 32 → IsOk result }
    {
        Ok(Cell::Object {
            class: short(class)?,
            start: 0,
            count: 0,
        })
    }

    /// An equal cell, whose places are the same words.
    pub(crate) fn copy(&self) -> Result<Cell, AllocError>
        ensures cell { (ws : List ℕ) → IfOk result (λ c. coded_in ws c ≡ coded_in ws self.now) }
        ensures span { IfOk result (λ c. span_of c ≡ span_of self.now) }
    {
        match self {
            Cell::Number(n) => Ok(Cell::Number(*n)),
            Cell::Object {
                class,
                start,
                count,
            } => Ok(Cell::Object {
                class: *class,
                start: *start,
                count: *count,
            }),
            Cell::Group { start, count } => Ok(Cell::Group {
                start: *start,
                count: *count,
            }),
            Cell::Reference(name) => Ok(Cell::Reference(Arc::try_clone(name)?)),
            Cell::Future(future) => Ok(Cell::Future(Arc::try_clone(future)?)),
        }
    }

    /// A cell that has no words, as it is read.
    #[inline(always)]
    pub fn lone(&self) -> View<'_>
        requires bare { IsBare self.now }
        ensures view { coded result ≡ bare self.now }
    {
        self.view(&[])
    }

    /// The word of one of an object's places, where it has that many.
    #[inline(always)]
    pub(crate) fn word(&self, index: usize) -> Option<usize>
        ensures word { result ≡ word_at index self.now }
    {
        match self {
            Cell::Object { start, count, .. } => {
                if index < *count as usize {
                    Some(*start as usize + index)
                } else {
                    None
                }
            }
            _ => None,
        }
    }

    /// The cell as it is read, with its places among these words.
    #[inline(always)]
    pub(crate) fn view<'a>(&'a self, words: &'a [Place]) -> View<'a>
        requires within { end_of self.now ≤ length words.now }
        ensures view { coded result ≡ coded_in words.now self.now }
    {
        self.read(words, None)
    }

    /// The cell as it is read where its places, among these words, go elsewhere.
    pub(crate) fn view_by<'a>(&'a self, words: &'a [Place], shift: &'a Shift) -> View<'a>
        requires within { end_of self.now ≤ length words.now }
        ensures view { let cell = coded_in words.now self.now in
            coded result ≡ moved_coded (shift_of shift.now) cell }
    {
        self.read(words, Some(shift))
    }

    #[inline(always)]
    fn read<'a>(&'a self, words: &'a [Place], shift: Option<&'a Shift>) -> View<'a>
        requires within { end_of self.now ≤ length words.now }
        ensures view { coded result ≡ read_coded shift.entry (coded_in words.now self.now) }
    {
        match self {
            Cell::Number(n) => View::Number(*n),
            Cell::Object {
                class,
                start,
                count,
            } => View::Object(Object {
                class: *class as usize,
                places: Places {
                    words: span(words, *start, *count),
                    shift,
                },
            }),
            Cell::Group { start, count } => View::Group(Places {
                words: span(words, *start, *count),
                shift,
            }),
            Cell::Reference(name) => View::Reference(name),
            Cell::Future(future) => View::Future(future),
        }
    }
}

/// A number that a cell keeps in half of a word: a class, a place among the words, or how many they
/// are. `AllocError` is the answer to a greater one.
#[inline(always)]
pub(crate) fn short(number: usize) -> Result<u32, AllocError>
    ensures number { IfOk result (λ n. n ≡ number) }
    ensures succeeds { number < 2 ^ 32 → IsOk result }
{
    match u32::try_from(number) {
        Ok(short) => Ok(short),
        Err(_) => Err(AllocError),
    }
}

#[inline(always)]
pub(crate) fn span(words: &[Place], start: u32, count: u32) -> &[Place]
    requires within { start + count ≤ length words.now }
    ensures places { result.now ≡ span_places words.now start count }
{
    &words[start as usize..start as usize + count as usize]
}

/// A deep copy: cells that hold each other's numbers, and the numbers of the roots. It passes between
/// two activities, or is the value of a future.
#[derive(Drop)]
pub struct Parcel {
    pub code: Arc<Code>,
    pub cells: Cells,
    pub roots: Roots,
}

impl Parcel {
    /// An equal parcel, of which a large one's cells are the same. `AllocError` is the only error.
    pub fn share(&self, alloc: Global) -> Result<Parcel, AllocError>
        ensures same { IfOk result (λ p. parcel_shape p ≡ parcel_shape self.now) }
        ensures code { IfOk result (λ p. arc_value p.code ≡ arc_value self.now.code) }
    {
        Ok(Parcel {
            code: Arc::try_clone(&self.code)?,
            cells: self.cells.share(alloc)?,
            roots: self.roots.copy(alloc)?,
        })
    }
}
