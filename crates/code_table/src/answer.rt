//! The values that are shown to all who hold their futures: few cells, of which none is a future.

ghost use Rattle.std.specs.Prelude.{
  ◌≡◌,
  ◌<◌,
  ◌≤◌,
  ◌∷◌,
  ◌↔◌,
  IfNone,
  IfOk,
  IfSome,
  [],
  length,
  true,
};
ghost use Rattle.std.specs.List.{list_all};
ghost use Rattle.code_table.specs.Answers.{answer_view};
ghost use Rattle.code_table.specs.Cells.{IsPlain, cell_at, coded, coded_in, end_of, object_coded};
ghost use Rattle.code_table.specs.Columns.{Grows, IsFresh};
ghost use Rattle.code_table.specs.Shown.{
  AreShownLaid,
  IsAnswer,
  MayBeShown,
  answer_items,
  kept,
  may_hold,
  same_coded,
  shown_items,
};

use crate::carried::Cells;
use crate::cells::{Cell, Object, Place, View, short, span};
use crate::columns::{Columns, span_behind};
use crate::moves::Moves;
use crate::places::Places;
use asp_model::ActivityName;
use std::alloc::{AllocError, Global};
use std::marker::Model;
use std::sync::Arc;

/// No more cells are shown.
pub const MOST_SHOWN: usize = 64;

/// A cell as a store keeps it, but no future.
#[derive(Drop)]
pub(crate) enum Shown {
    Number(i64),
    Object { class: u32, start: u32, count: u32 },
    Group { start: u32, count: u32 },
    Reference(Arc<ActivityName>),
}

/// Cells, and the words in which their places lie.
#[derive(Drop)]
pub(crate) struct Listed {
    pub cells: Vec<Shown>,
    pub words: Vec<Place>,
}

/// Where the cells are.
#[derive(Drop)]
enum Held {
    Number(i64),
    Reference(Arc<ActivityName>),
    Listed(Box<Listed>),
}

/// A value that may be shown: from 1 to 64 cells, none of them a future, whose places are numbers of
/// these cells. A lone number or reference needs no memory of its own.
pub struct Answer {
    held: Held,
}

// Written out, so that crates above drop it by one call.
impl Drop for Answer {
    fn drop(self) {
        let Answer { held: _ } = self;
    }
}

impl Model for Answer {
    ghost use Rattle.code_table.specs.Answers.{AnswerView, answer_view};

    ghost Value = { AnswerView };

    ghost view = { λ a. answer_view a.held };

    ghost use Rattle.code_table.specs.Shown.{IsAnswer};

    ghost invariant = { λ a. IsAnswer a.held };
}

impl Answer {
    /// The value of these cells, where they may be shown. `AllocError` is the only error.
    pub fn of(alloc: Global, cells: &Cells) -> Result<Option<Answer>, AllocError>
        ensures items { IfOk result (λ r. IfSome r (λ a. answer_items a ≡ cells.now.items)) }
        ensures none { IfOk result (λ r. IfNone r (MayBeShown cells.now.items → ⊥)) }
    {
        if !may_be_shown(cells) {
            return Ok(None);
        }
        let held = held_of(alloc, cells)?;
        Ok(Some(Answer { held }))
    }

    /// How many cells there are.
    pub fn len(&self) -> usize
        ensures length { result ≡ length (answer_items self.now) }
        ensures shown { MayBeShown (answer_items self.now) }
    {
        match &self.held {
            Held::Number(_) | Held::Reference(_) => 1,
            Held::Listed(listed) => listed.cells.len(),
        }
    }

    /// The cell at a place.
    pub fn view(&self, at: Place) -> View<'_>
        requires within { at < length (answer_items self.now) }
        ensures view { coded result ≡ cell_at (answer_items self.now) at }
    {
        match &self.held {
            Held::Number(n) => View::Number(*n),
            Held::Reference(name) => View::Reference(name),
            Held::Listed(listed) => listed.cells[at].view(&listed.words),
        }
    }

    /// The cells, as those of a parcel. A lone one takes no memory. `AllocError` is the only error.
    pub fn cells(&self, alloc: Global) -> Result<Cells, AllocError>
        ensures items { IfOk result (λ c. c.items ≡ answer_items self.now) }
    {
        match &self.held {
            Held::Number(n) => Ok(Cells::one(Cell::Number(*n))),
            Held::Reference(name) => Ok(Cells::one(Cell::Reference(Arc::try_clone(name)?))),
            Held::Listed(_) => Cells::of(alloc, columns_of(alloc, self)?),
        }
    }

    /// Whether these are the cells of the value. It takes no memory.
    pub fn is_of(&self, cells: &Cells) -> bool
        ensures same { (result ≡ true) ↔ (answer_items self.now ≡ cells.now.items) }
    {
        self.len() == cells.len() && are_same(self, cells)
    }
}

impl Shown {
    /// The cell as it is read, with its places among these words.
    fn view<'a>(&'a self, words: &'a [Place]) -> View<'a>
        requires within { end_of (kept self.now) ≤ length words.now }
        ensures view { coded result ≡ coded_in words.now (kept self.now) }
    {
        match self {
            Shown::Number(n) => View::Number(*n),
            Shown::Object {
                class,
                start,
                count,
            } => View::Object(Object {
                class: *class as usize,
                places: Places::of(span(words, *start, *count)),
            }),
            Shown::Group { start, count } => View::Group(Places::of(span(words, *start, *count))),
            Shown::Reference(name) => View::Reference(name),
        }
    }
}

fn columns_of(alloc: Global, answer: &Answer) -> Result<Columns, AllocError>
    ensures items { IfOk result (λ c. c.items ≡ answer_items answer.now) }
{
    let mut columns = Columns::with_room(alloc, answer.len(), 0)?;
    let mut at = 0;
    while at < answer.len() {
        columns.push_moved(answer.view(at), &Moves::Stay)?;
        at += 1;
    }
    Ok(columns)
}

// Whether as many cells are the same.
fn are_same(answer: &Answer, cells: &Cells) -> bool
    requires long { length (answer_items answer.now) ≡ length cells.now.items }
    ensures same { (result ≡ true) ↔ (answer_items answer.now ≡ cells.now.items) }
{
    let mut at = 0;
    while at < cells.len() {
        if !is_same(answer.view(at), cells.view(at)) {
            return false;
        }
        at += 1;
    }
    true
}

// Whether two cells are equal.
fn is_same(one: View, other: View) -> bool
    ensures { result ≡ same_coded (coded one.entry) (coded other.entry) }
{
    match (one, other) {
        (View::Number(n), View::Number(m)) => n == m,
        (View::Object(object), View::Object(other)) => is_same_object(object, other),
        (View::Reference(name), View::Reference(other)) => **name == **other,
        (View::Future(future), View::Future(other)) => future.name == other.name,
        (View::Group(members), View::Group(others)) => members.is_same(&others),
        _ => false,
    }
}

fn is_same_object(one: Object, other: Object) -> bool
    ensures { result ≡ same_coded (object_coded one.entry) (object_coded other.entry) }
{
    one.class == other.class && one.places.is_same(&other.places)
}

// Whether cells may be shown.
fn may_be_shown(cells: &Cells) -> bool
    ensures { (result ≡ true) ↔ MayBeShown cells.now.items }
{
    let size = cells.len();
    size > 0 && size <= MOST_SHOWN && may_be_held(cells)
}

// Whether a value may have these cells, however many they are.
fn may_be_held(cells: &Cells) -> bool
    ensures { let s = cells.now.items in result ≡ list_all (may_hold (length s)) s }
{
    let size = cells.len();
    let mut at = 0;
    while at < size {
        if !may_hold(size, cells.view(at)) {
            return false;
        }
        at += 1;
    }
    true
}

// Whether a value of so many cells may have this one.
fn may_hold(size: usize, cell: View) -> bool
    ensures { result ≡ may_hold size (coded cell.entry) }
{
    match cell {
        View::Number(_) | View::Reference(_) => true,
        View::Object(object) => object.places.are_under(size),
        View::Group(members) => members.are_under(size),
        View::Future(_) => false,
    }
}

fn held_of(alloc: Global, cells: &Cells) -> Result<Held, AllocError>
    requires shown { MayBeShown cells.now.items }
    ensures answer { IfOk result IsAnswer }
    ensures items { IfOk result (λ h. answer_items (answer_view h) ≡ cells.now.items) }
{
    match lone(cells) {
        Some(View::Number(n)) => Ok(Held::Number(n)),
        Some(View::Reference(name)) => Ok(Held::Reference(Arc::try_clone(name)?)),
        _ => {
            let listed = list_of(alloc, cells)?;
            Ok(Held::Listed(Box::new(alloc, listed)?))
        }
    }
}

// The cell that is alone.
fn lone(cells: &Cells) -> Option<View<'_>>
    ensures cell { IfSome result (λ v. cells.now.items ≡ coded v ∷ []) }
{
    if cells.len() == 1 {
        Some(cells.view(0))
    } else {
        None
    }
}

fn list_of(alloc: Global, cells: &Cells) -> Result<Listed, AllocError>
    requires shown { MayBeShown cells.now.items }
    ensures laid { IfOk result AreShownLaid }
    ensures items { IfOk result (λ s. shown_items s ≡ cells.now.items) }
{
    let mut shown = Vec::with_capacity(alloc, cells.len())?;
    let mut words = Vec::new(alloc);
    let mut at = 0;
    while at < cells.len() {
        let cell = shown_cell(&mut words, cells.view(at))?;
        shown.push(cell)?;
        at += 1;
    }
    Ok(Listed {
        cells: shown,
        words,
    })
}

// Appends the places of a cell.
fn shown_cell(words: &mut Vec<Place>, cell: View) -> Result<Shown, AllocError>
    requires plain { IsPlain (coded cell) }
    ensures cell { let is = coded cell.entry in
        IfOk result (λ c. IsFresh words.old.items words.new.items is (kept c)) }
    ensures grown { Grows words.old.items words.new.items }
{
    match cell {
        View::Number(n) => Ok(Shown::Number(n)),
        View::Object(object) => shown_object(words, object),
        View::Group(members) => {
            let (start, count) = span_behind(words, members.len())?;
            members.push_to(words)?;
            Ok(Shown::Group { start, count })
        }
        View::Reference(name) => Ok(Shown::Reference(Arc::try_clone(name)?)),
        View::Future(_) => unreachable!(),
    }
}

fn shown_object(words: &mut Vec<Place>, object: Object) -> Result<Shown, AllocError>
    ensures cell { let is = object_coded object.entry in
        IfOk result (λ c. IsFresh words.old.items words.new.items is (kept c)) }
    ensures grown { Grows words.old.items words.new.items }
{
    let class = short(object.class)?;
    let (start, count) = span_behind(words, object.places.len())?;
    object.places.push_to(words)?;
    Ok(Shown::Object {
        class,
        start,
        count,
    })
}
