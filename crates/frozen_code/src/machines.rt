//! Whole machines.

ghost use Rattle.std.specs.Prelude.{◌≡◌, ◌∷◌, IfOk, List, OnOk, reverse};
ghost use Rattle.std.specs.Option.{option_map};
ghost use Rattle.asp_model.specs.Configuration.{ServiceShape};
ghost use Rattle.asp_model.specs.Split.{Context, plug};
ghost use Rattle.asp_model.specs.Term.{Tree};
ghost use Rattle.code_table.specs.Cells.{held_future};
ghost use Rattle.code_table.specs.declared.code.Node.{Node as NodeShape};
ghost use Rattle.step_machine.specs.Items.{contexts_of};
ghost use Rattle.step_machine.specs.Services.{Below};
ghost use Rattle.step_machine.specs.Standing.{Standing, view_of};
ghost use Rattle.frozen_code.specs.Restoring.{
  HoldAll,
  HoldServices,
  HoldsInnermost,
  HoldsService,
  IsBare,
  empty_view,
  waiting_on,
};

use crate::held::Held;
use crate::restoring::{begin_at, hold_all, rest_at, serve};
use asp_model::{Label, Word};
use code_table::{Future, KeyedLabel, Place, SharedLabel};
use std::alloc::{AllocError, Global};
use std::sync::Arc;
use step_machine::{Focus, Futures, Machine};

/// A term that waits for the end of a service.
#[derive(Drop)]
pub struct Suspended {
    /// Its contexts, the outermost first.
    pub contexts: Vec<Held>,
    /// The future that it had to answer.
    pub future: Option<Arc<Future>>,
}

/// What stands inside all contexts.
#[derive(Drop)]
pub enum Innermost {
    At(Place),
    Redex(Held),
}

/// A machine in no frames.
fn empty_machine(alloc: Global) -> Machine
    ensures view { view_of result ≡ empty_view }
{
    Machine {
        frames: Vec::new(alloc),
        env: Vec::new(alloc),
        operands: Vec::new(alloc),
        futures: Futures::new(alloc),
        asked: KeyedLabel::new(SharedLabel::alone(Label {
            text: Word::new(String::new(alloc)),
        })),
        base: 0,
        focus: Focus::Place(0),
    }
}

/// The same future.
fn share(future: &Option<Arc<Future>>) -> Result<Option<Arc<Future>>, AllocError>
    ensures same { let old = option_map held_future future.now in
        IfOk result (λ r. option_map held_future r ≡ old) }
{
    match future {
        None => Ok(None),
        Some(future) => Ok(Some(Arc::try_clone(future)?)),
    }
}

fn suspend(machine: &mut Machine, suspended: &Suspended) -> Result<(), AllocError>
    ensures bare { (k : List NodeShape) (vs : List ServiceShape) (v : ServiceShape) →
        IsBare k (view_of machine.old) vs → HoldsService k suspended.now v →
        OnOk result (IsBare k (view_of machine.new) (v ∷ vs)) }
{
    hold_all(machine, &suspended.contexts)?;
    let future = share(&suspended.future)?;
    serve(machine, future)
}

fn suspend_all(machine: &mut Machine, services: &[Suspended]) -> Result<(), AllocError>
    ensures bare { (k : List NodeShape) (ws vs : List ServiceShape) →
        IsBare k (view_of machine.old) ws → HoldServices k services.now vs →
        OnOk result (IsBare k (view_of machine.new) (waiting_on vs ws)) }
{
    for suspended in services {
        suspend(machine, suspended)?;
    }
    Ok(())
}

fn look_inside(machine: &mut Machine, innermost: &Innermost) -> Result<(), AllocError>
    ensures stands { let old = view_of machine.old in
        (k : List NodeShape) (vs : List ServiceShape) (t : Tree) → (b : Below k old vs) →
        HoldsInnermost k innermost.now t →
        OnOk result (Standing k (view_of machine.new) (plug (contexts_of b.items) t) vs) }
{
    match innermost {
        Innermost::At(place) => {
            rest_at(machine, *place);
            Ok(())
        }
        Innermost::Redex(held) => begin_at(machine, held),
    }
}

/// The contexts of the term that runs, the outermost first, and what stands inside them.
fn look_within(
    machine: &mut Machine,
    contexts: &[Held],
    innermost: &Innermost,
) -> Result<(), AllocError>
    ensures stands { (k : List NodeShape) (vs : List ServiceShape) (cs : List Context) (t : Tree) →
        IsBare k (view_of machine.old) vs → HoldAll k contexts.now (reverse cs) →
        HoldsInnermost k innermost.now t →
        OnOk result (Standing k (view_of machine.new) (plug cs t) vs) }
{
    hold_all(machine, contexts)?;
    look_inside(machine, innermost)
}

/// A machine that stands for a term, which is given by its contexts, the outermost first, and by what
/// stands inside them, and whose suspended services are these, the oldest first.
pub fn restore(
    alloc: Global,
    services: &[Suspended],
    contexts: &[Held],
    innermost: &Innermost,
) -> Result<Machine, AllocError>
    ensures stands { (k : List NodeShape) (vs : List ServiceShape) (cs : List Context) (t : Tree) →
        HoldServices k services.now vs → HoldAll k contexts.now (reverse cs) →
        HoldsInnermost k innermost.now t →
        IfOk result (λ m. Standing k (view_of m) (plug cs t) (reverse vs)) }
{
    let mut machine = empty_machine(alloc);
    suspend_all(&mut machine, services)?;
    look_within(&mut machine, contexts, innermost)?;
    Ok(machine)
}
