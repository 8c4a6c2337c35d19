//! Objects and groups that are made.

ghost use Rattle.std.specs.Prelude.{
  ◌≡◌,
  ◌++◌,
  ◌∷◌,
  [],
  IfOk,
  List,
  OnOk,
  Option,
  Some,
  drop,
  length,
  ℕ,
};
ghost use Rattle.asp_model.specs.Configuration.{ServiceShape};
ghost use Rattle.asp_model.specs.Contraction.{LineShape};
ghost use Rattle.asp_model.specs.Store.{Store as StoreShape};
ghost use Rattle.asp_model.specs.Term.{Echo as EchoHead, Group as GroupHead, Tree};
ghost use Rattle.code_table.specs.Cells.{Object as ObjectCoded};
ghost use Rattle.code_table.specs.Classes.{class_at, class_of};
ghost use Rattle.code_table.specs.Sound.{IsSound};
ghost use Rattle.code_table.specs.declared.code.Node.{Node as NodeShape};
ghost use Rattle.code_laws.specs.Places.{captured_places, kept_places};
ghost use Rattle.step_rows.specs.Decisions.{value_redex};
ghost use Rattle.step_machine.specs.Rows.{AtNode, IsAtRedex};
ghost use Rattle.step_machine.specs.Stacks.{last};
ghost use Rattle.step_machine.specs.Standing.{view_of};
ghost use Rattle.activity_step.specs.Advances.{IsAdvance, Stands};

use crate::advance::Advance;
use crate::state::State;
use asp_model::{Line, Word};
use code_table::{Capture, Class, EMPTY_NUMBER, MethodCode, Place};
use object_store::Store;
use smallvec::SmallVec;
use std::alloc::{AllocError, Global};
use step_machine::Machine;

/// The places of an object that is made. A few take no memory of their own.
type Places = SmallVec<Place, 8>;

fn push_captured(
    machine: &Machine,
    captured: &[Capture],
    places: &mut Places,
) -> Result<(), AllocError>
    ensures places { let ns = drop machine.now.base machine.now.env.items in
        OnOk result (places.new.items ≡ places.old.items ++ captured_places ns captured.now) }
{
    for capture in captured {
        let Some(place) = machine.place_of(&capture.leaf) else {
            return Err(AllocError);
        };
        places.push(place)?;
    }
    Ok(())
}

fn push_kept(
    machine: &Machine,
    methods: &[MethodCode],
    places: &mut Places,
) -> Result<(), AllocError>
    ensures places { let ns = drop machine.now.base machine.now.env.items in
        OnOk result (places.new.items ≡ places.old.items ++ kept_places ns methods.now) }
{
    for method in methods {
        push_captured(machine, &method.captured, places)?;
    }
    Ok(())
}

/// The places of an object of a class, whose fields are the last operands.
fn object_places(
    alloc: Global,
    machine: &Machine,
    class: &Class,
    count: usize,
) -> Result<Places, AllocError>
    ensures places { let ns = drop machine.now.base machine.now.env.items in
        IfOk result (λ ps. ps.items
        ≡ last count machine.now.operands.items ++ kept_places ns class.now.methods.items) }
{
    let mut places = SmallVec::from_slice(alloc, machine.last_operands(count))?;
    push_kept(machine, &class.methods, &mut places)?;
    Ok(places)
}

/// Adds an object of a class whose methods captured places.
fn add_kept(
    alloc: Global,
    store: &mut Store,
    machine: &Machine,
    class: &Class,
    number: usize,
    count: usize,
) -> Result<Place, AllocError>
    ensures place { IfOk result (λ place. place ≡ length store.old.cells) }
    ensures cells { let ns = drop machine.now.base machine.now.env.items in
        let kept = kept_places ns class.now.methods.items in
        let places = last count machine.now.operands.items ++ kept in
        OnOk result (store.new.cells ≡ store.old.cells ++ ObjectCoded number places ∷ []) }
{
    let places = object_places(alloc, machine, class, count)?;
    store.add_object(number, places.as_slice())
}

/// Adds an object of a class, whose fields are the last operands.
fn add_made(
    alloc: Global,
    store: &mut Store,
    machine: &Machine,
    class: &Class,
    number: usize,
    count: usize,
) -> Result<Place, AllocError>
    ensures place { IfOk result (λ place. place ≡ length store.old.cells) }
    ensures cells { let ns = drop machine.now.base machine.now.env.items in
        let kept = kept_places ns class.now.methods.items in
        let places = last count machine.now.operands.items ++ kept in
        OnOk result (store.new.cells ≡ store.old.cells ++ ObjectCoded number places ∷ []) }
{
    if class.methods.is_empty() {
        store.add_object(number, machine.last_operands(count))
    } else {
        add_kept(alloc, store, machine, class, number, count)
    }
}

impl State {
    /// An object of the class of a node.
    #[inline(never)]
    pub fn make_advance(
        &mut self,
        alloc: Global,
        class: &Class,
        number: usize,
        count: usize,
        go: bool,
    ) -> Result<Advance, AllocError>
        ensures advance { (k : List NodeShape) (from : ℕ) (n : NodeShape) (t : Tree)
            (vs : List ServiceShape) (s : StoreShape) (ls : List LineShape) →
            Stands k self.old t vs s ls → AtNode k (view_of self.old.machine) number from count n →
            class_at k number ≡ class_of n.kind → class_of n.kind ≡ Some class.now →
            IfOk result (IsAdvance k self.new t vs s ls go) }
    {
        if !go {
            return Ok(Advance::Reduces);
        }
        let place = add_made(alloc, &mut self.store, &self.machine, class, number, count)?;
        self.machine.become_place(count, place);
        Ok(Advance::Reduces)
    }

    /// A group of the last operands, where more of them may be the redex's own.
    #[inline(never)]
    pub fn group_advance(
        &mut self,
        _alloc: Global,
        size: usize,
        count: usize,
        go: bool,
    ) -> Result<Advance, AllocError>
        ensures advance { (k : List NodeShape) (t : Tree) (vs : List ServiceShape) (s : StoreShape)
            (ls : List LineShape) →
            Stands k self.old t vs s ls →
            IsAtRedex k (view_of self.old.machine) t vs count
            (value_redex GroupHead (last size self.old.machine.operands.items)) →
            IfOk result (IsAdvance k self.new t vs s ls go) }
    {
        if !go {
            return Ok(Advance::Reduces);
        }
        let place = self.store.add_group(self.machine.last_operands(size))?;
        self.machine.become_place(count, place);
        Ok(Advance::Reduces)
    }

    /// `echo("t")`.
    #[inline(never)]
    pub fn echo_advance(
        &mut self,
        alloc: Global,
        text: &Word,
        count: usize,
        go: bool,
    ) -> Result<Advance, AllocError>
        ensures advance { (k : List NodeShape) (t : Tree) (vs : List ServiceShape) (s : StoreShape)
            (ls : List LineShape) →
            IsSound k → Stands k self.old t vs s ls →
            IsAtRedex k (view_of self.old.machine) t vs count (value_redex (EchoHead text.now) []) →
            IfOk result (IsAdvance k self.new t vs s ls go) }
    {
        if !go {
            return Ok(Advance::Reduces);
        }
        let line = Line::Text(text.copy(alloc)?);
        let place = self.store.add_object(EMPTY_NUMBER, &[])?;
        self.lines.push(line)?;
        self.machine.become_place(count, place);
        Ok(Advance::Reduces)
    }
}
