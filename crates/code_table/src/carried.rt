//! The cells of a parcel.

ghost use Rattle.std.specs.Prelude.{◌≡◌, ◌<◌, ◌∷◌, [], IfOk, IfSome, length};
ghost use Rattle.std.specs.Arc.{arc_value};
ghost use Rattle.code_table.specs.Cells.{ArePlain, IsBare, bare, cell_at, coded};
ghost use Rattle.code_table.specs.Carried.{IsGot};

use crate::cells::{Cell, Place, View};
use crate::columns::Columns;
use std::alloc::{AllocError, Global};
use std::marker::Model;
use std::sync::Arc;

/// From so many cells on, the cells of a parcel are shared by all equal parcels.
pub const SHARED_FROM: usize = 64;

/// Where the cells are.
#[derive(Drop)]
enum Held {
    /// One that has no words.
    One(Cell),
    Few(Columns),
    Shared(Arc<Columns>),
    /// None of them is a future.
    Plain(Arc<Columns>),
}

/// The cells of a parcel. One that has no words needs no memory of its own, and many are shared.
pub struct Cells {
    held: Held,
}

// Written out, so that crates above drop it by one call.
impl Drop for Cells {
    fn drop(self) {
        let Cells { held: _ } = self;
    }
}

impl Model for Cells {
    ghost use Rattle.code_table.specs.Carried.{AreCells, CellsView, cells_view};

    ghost Value = { CellsView };

    ghost view = { λ c. cells_view c.held };

    ghost invariant = { λ c. AreCells c.held };
}

impl Cells {
    /// One cell that has no words.
    pub fn one(cell: Cell) -> Cells
        requires bare { IsBare cell }
        ensures items { result.items ≡ bare cell ∷ [] }
    {
        Cells {
            held: Held::One(cell),
        }
    }

    /// These cells, in order. `AllocError` is the only error.
    pub fn of(alloc: Global, columns: Columns) -> Result<Cells, AllocError>
        ensures items { IfOk result (λ c. c.items ≡ columns.items) }
    {
        if columns.len() < SHARED_FROM {
            return Ok(Cells {
                held: Held::Few(columns),
            });
        }
        let is_plain = columns.are_plain();
        let columns = Arc::new(alloc, columns)?;
        if is_plain {
            return Ok(Cells {
                held: Held::Plain(columns),
            });
        }
        Ok(Cells {
            held: Held::Shared(columns),
        })
    }

    /// The columns in which they are, where they are shared and none of them is a future.
    pub fn plain(&self) -> Option<&Arc<Columns>>
        ensures cells { IfSome result (λ c. (arc_value c.now).items ≡ self.now.items) }
        ensures plain { IfSome result (λ c. ArePlain (arc_value c.now).items) }
    {
        match &self.held {
            Held::One(_) => None,
            Held::Few(_) => None,
            Held::Shared(_) => None,
            Held::Plain(columns) => Some(columns),
        }
    }

    pub fn len(&self) -> usize
        ensures { result ≡ length self.now.items }
    {
        match &self.held {
            Held::One(_) => 1,
            Held::Few(columns) => columns.len(),
            Held::Shared(columns) => columns.len(),
            Held::Plain(columns) => columns.len(),
        }
    }

    /// The cell at a place.
    pub fn view(&self, at: Place) -> View<'_>
        requires within { at < length self.now.items }
        ensures view { coded result ≡ cell_at self.now.items at }
    {
        match &self.held {
            Held::One(cell) => cell.view(&[]),
            Held::Few(columns) => columns.view(at),
            Held::Shared(columns) => columns.view(at),
            Held::Plain(columns) => columns.view(at),
        }
    }

    /// The cell at a place, where there is one.
    pub fn get(&self, at: Place) -> Option<View<'_>>
        ensures got { IsGot self.now.items at result }
    {
        if at < self.len() {
            Some(self.view(at))
        } else {
            None
        }
    }

    /// Equal cells: the same where they are shared, and else a copy. `AllocError` is the only error.
    pub fn share(&self, alloc: Global) -> Result<Cells, AllocError>
        ensures cells { IfOk result (λ c. c.items ≡ self.now.items) }
    {
        match &self.held {
            Held::One(cell) => Ok(Cells {
                held: Held::One(cell.copy()?),
            }),
            Held::Few(columns) => Cells::of(alloc, columns.copy(alloc, 0)?),
            Held::Shared(columns) => Ok(Cells {
                held: Held::Shared(Arc::try_clone(columns)?),
            }),
            Held::Plain(columns) => Ok(Cells {
                held: Held::Plain(Arc::try_clone(columns)?),
            }),
        }
    }

    /// The cells in columns, which have room for so many more where they are made here. Only shared
    /// ones are copied. `AllocError` is the only error.
    pub fn into_columns(self, alloc: Global, room: usize) -> Result<Columns, AllocError>
        ensures cells { IfOk result (λ c. c.items ≡ self.items) }
    {
        let Cells { held } = self;
        match held {
            Held::One(cell) => alone(alloc, cell, room),
            Held::Few(columns) => Ok(columns),
            Held::Shared(columns) => columns.copy(alloc, room),
            Held::Plain(columns) => columns.copy(alloc, room),
        }
    }
}

fn alone(alloc: Global, cell: Cell, room: usize) -> Result<Columns, AllocError>
    requires bare { IsBare cell }
    ensures { IfOk result (λ c. c.items ≡ bare cell ∷ []) }
{
    let mut columns = Columns::with_room(alloc, room.saturating_add(1), 0)?;
    columns.reserve(1)?;
    columns.push_reserved(cell);
    Ok(columns)
}
