//! Activities that begin.

ghost use Rattle.std.specs.Prelude.{◌≡◌, ◌∷◌, [], IfOk, List, false};
ghost use Rattle.std.specs.Arc.{arc_value};
ghost use Rattle.std.specs.Option.{option_map};
ghost use Rattle.asp_model.specs.Configuration.{begun};
ghost use Rattle.asp_model.specs.Intent.{start_term};
ghost use Rattle.asp_model.specs.Parcel.{unpack as unpacked_in};
ghost use Rattle.asp_model.specs.Store.{Object as ObjectCell, Store as StoreShape};
ghost use Rattle.asp_model.specs.Term.{Tree};
ghost use Rattle.code_table.specs.Pieces.{tree};
ghost use Rattle.code_table.specs.Sound.{IsSound, root_of};
ghost use Rattle.code_table.specs.Tables.{piece_at, pieces};
ghost use Rattle.code_table.specs.declared.code.Node.{Node as NodeShape};
ghost use Rattle.step_machine.specs.Services.{asked_view};
ghost use Rattle.step_machine.specs.Standing.{Standing, view_of};
ghost use Rattle.code_table.specs.Cells.{Object as ObjectCoded};
ghost use Rattle.code_table.specs.Shapes.{parcel_shape, store_of};
ghost use Rattle.activity_step.specs.Activities.{StandsFor};
ghost use Rattle.activity_step.specs.Starting.{start_view};
ghost use Rattle.activity_step.specs.Standings.{code_of};

use crate::activity::Activity;
use crate::state::State;
use asp_model::{Label, Word};
use code_table::{Code, EMPTY_NUMBER, KeyedLabel, Parcel, SERVICE_NUMBER, SharedLabel};
use deep_copy::unpack_alone;
use object_store::Store;
use std::alloc::{AllocError, Global};
use std::sync::Arc;
use step_machine::{Focus, Futures, Machine};

/// A machine that looks at a node, in no frames and an empty environment.
fn machine_at(alloc: Global, number: usize) -> Machine
    ensures view { view_of result ≡ start_view number }
{
    Machine {
        frames: Vec::new(alloc),
        env: Vec::new(alloc),
        operands: Vec::new(alloc),
        futures: Futures::new(alloc),
        asked: KeyedLabel::new(SharedLabel::alone(Label {
            text: Word::new(String::new(alloc)),
        })),
        base: 0,
        focus: Focus::Node {
            number,
            from: 0,
            done: 0,
        },
    }
}

/// Code is sound by its type.
pub fn code_is_sound(code: &Code)
    ensures sound { IsSound code.now }
{
    let _nodes = code.nodes();
}

/// A machine that looks at a call of this method of the object at the place 0.
fn calling_machine(alloc: Global, label: SharedLabel) -> Result<Machine, AllocError>
    ensures view { let start = start_view SERVICE_NUMBER in
        IfOk result (λ m. view_of m ≡ asked_view label.text (0 ∷ []) start) }
{
    let mut machine = machine_at(alloc, SERVICE_NUMBER);
    machine.ask(label, 0, &[])?;
    Ok(machine)
}

/// A machine that begins a service for ever, or a call of this method.
fn serving_machine(alloc: Global, service: Option<SharedLabel>) -> Result<Machine, AllocError>
    ensures stands { (k : List NodeShape) → IsSound k →
        let term = start_term (option_map (λ l. l.text) service) 0 in
        IfOk result (λ m. Standing k (view_of m) term []) }
{
    match service {
        Some(label) => calling_machine(alloc, label),
        None => Ok(machine_at(alloc, SERVICE_NUMBER)),
    }
}

/// An activity that begins.
fn begin(alloc: Global, code: Arc<Code>, machine: Machine, store: Store) -> Activity
    ensures stands { (t : Tree) (s : StoreShape) →
        Standing (arc_value code) (view_of machine) t [] →
        store_of (arc_value code) store.cells ≡ s → StandsFor result (begun t s) }
    ensures code { code_of result ≡ arc_value code }
    ensures fresh { result.spent ≡ false }
{
    Activity {
        code,
        state: State {
            machine,
            store,
            lines: Vec::new(alloc),
        },
        active: 0,
        present: None,
        count: 0,
        spent: false,
    }
}

/// A store with the object `[]` alone.
fn empty_store(alloc: Global) -> Result<Store, AllocError>
    ensures cells { IfOk result (λ s. s.cells ≡ ObjectCoded EMPTY_NUMBER [] ∷ []) }
{
    let mut store = Store::new(alloc);
    store.add_object(EMPTY_NUMBER, &[])?;
    Ok(store)
}

impl Activity {
    /// The main activity, with the program as its term and an empty active object.
    pub fn main(alloc: Global, code: Arc<Code>) -> Result<Activity, AllocError>
        ensures stands { let k = arc_value code in
            let program = tree [] (piece_at (pieces k) (root_of k)) in
            IfOk result (λ x. StandsFor x (begun program (ObjectCell [] [] ∷ []))) }
        ensures code { IfOk result (λ x. code_of x ≡ arc_value code) }
        ensures fresh { IfOk result (λ x. x.spent ≡ false) }
    {
        code_is_sound(&code);
        let machine = machine_at(alloc, code.root());
        let store = empty_store(alloc)?;
        Ok(begin(alloc, code, machine, store))
    }

    /// An activity round the object that a parcel has as its root, with its service for ever, or with
    /// a call of this method of the object.
    pub fn made(
        alloc: Global,
        object: Parcel,
        service: Option<SharedLabel>,
    ) -> Result<Activity, AllocError>
        ensures stands { let store = unpacked_in [] (parcel_shape object) in
            let term = start_term (option_map (λ l. l.text) service) 0 in
            IfOk result (λ x. StandsFor x (begun term store)) }
        ensures code { IfOk result (λ x. code_of x ≡ arc_value object.code) }
        ensures fresh { IfOk result (λ x. x.spent ≡ false) }
    {
        code_is_sound(&object.code);
        let machine = serving_machine(alloc, service)?;
        let (code, store) = unpack_alone(alloc, object)?;
        Ok(begin(alloc, code, machine, store))
    }
}
