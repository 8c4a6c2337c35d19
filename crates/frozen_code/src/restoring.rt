//! Frames are put inside each other, from the outermost context inward.

ghost use Rattle.std.specs.Prelude.{◌≡◌, ◌∷◌, List, OnOk};
ghost use Rattle.std.specs.Option.{option_map};
ghost use Rattle.code_table.specs.Cells.{held_future};
ghost use Rattle.asp_model.specs.Term.{loc};
ghost use Rattle.asp_model.specs.Configuration.{ServiceShape};
ghost use Rattle.asp_model.specs.Split.{Context, Redex, plug};
ghost use Rattle.code_laws.specs.Splitting.{redex_node};
ghost use Rattle.code_table.specs.declared.code.Node.{Node as NodeShape};
ghost use Rattle.step_machine.specs.Items.{Suspends, Waits, contexts_of};
ghost use Rattle.step_machine.specs.Services.{Below};
ghost use Rattle.step_machine.specs.Standing.{Standing, view_of};
ghost use Rattle.frozen_code.specs.Held.{HoldsContext, HoldsRedex};
ghost use Rattle.frozen_code.specs.Restoring.{
  HasItem,
  HasItems,
  HoldAll,
  begun_view,
  held_view,
  rested_view,
  served_view,
};

use crate::held::Held;
use code_table::{Future, Place};
use std::alloc::AllocError;
use std::sync::Arc;
use step_machine::{Focus, Form, Frame, Machine};

fn push_frame(machine: &mut Machine, held: &Held) -> Result<(), AllocError>
    ensures view { let ns = held.now.places.items in
        OnOk result (view_of machine.new
        ≡ held_view held.now.node ns held.now.done.items (view_of machine.old)) }
{
    let base = machine.env.len();
    machine.env.extend_from_slice(&held.places)?;
    machine.operands.extend_from_slice(&held.done)?;
    let height = machine.env.len();
    machine.frames.push(Frame {
        form: Form::Terms,
        node: held.node,
        from: 0,
        done: held.done.len(),
        base,
        height,
    })?;
    Ok(())
}

/// Puts the frame of a context inside the others.
pub fn hold(machine: &mut Machine, held: &Held) -> Result<(), AllocError>
    ensures held { let old = view_of machine.old in
        (k : List NodeShape) (vs : List ServiceShape) (c : Context) → (b : Below k old vs) →
        HoldsContext k held.now.node held.now.places.items held.now.done.items c →
        OnOk result (HasItem k old (view_of machine.new) vs vs b (Waits c)) }
{
    push_frame(machine, held)
}

/// Puts the frames of contexts inside the others, the first of them outermost.
pub fn hold_all(machine: &mut Machine, helds: &[Held]) -> Result<(), AllocError>
    ensures held { let old = view_of machine.old in
        (k : List NodeShape) (vs : List ServiceShape) (cs : List Context) → (b : Below k old vs) →
        HoldAll k helds.now cs → OnOk result (HasItems k old (view_of machine.new) vs b cs) }
{
    for held in helds {
        hold(machine, held)?;
    }
    Ok(())
}

fn push_service(machine: &mut Machine, future: Option<Arc<Future>>) -> Result<(), AllocError>
    ensures view { OnOk result (view_of machine.new
        ≡ served_view (option_map held_future future) (view_of machine.old)) }
{
    let height = machine.env.len();
    machine.frames.push(Frame {
        form: Form::Service,
        node: 0,
        from: 0,
        done: 0,
        base: height,
        height,
    })?;
    machine.futures.push(future)?;
    Ok(())
}

/// Suspends the contexts so far: they wait for the end of a service, and had this future to answer.
pub fn serve(machine: &mut Machine, future: Option<Arc<Future>>) -> Result<(), AllocError>
    ensures served { let old = view_of machine.old in let f = option_map held_future future in
        (k : List NodeShape) (vs : List ServiceShape) → (b : Below k old vs) →
        let service : ServiceShape = record { contexts = contexts_of b.items; future = f } in
        OnOk result (HasItem k old (view_of machine.new) vs (service ∷ vs) b (Suspends f)) }
{
    push_service(machine, future)
}

fn look_at_place(machine: &mut Machine, place: Place)
    ensures view { view_of machine.new ≡ rested_view place (view_of machine.old) }
{
    machine.base = machine.env.len();
    machine.look_at(Focus::Place(place));
}

/// Looks at a place, inside all frames.
pub fn rest_at(machine: &mut Machine, place: Place)
    ensures stands { let old = view_of machine.old in
        (k : List NodeShape) (vs : List ServiceShape) → (b : Below k old vs) →
        Standing k (view_of machine.new) (plug (contexts_of b.items) (loc place)) vs }
{
    look_at_place(machine, place)
}

fn look_at_node(machine: &mut Machine, held: &Held) -> Result<(), AllocError>
    ensures view { let ns = held.now.places.items in
        OnOk result (view_of machine.new
        ≡ begun_view held.now.node ns held.now.done.items (view_of machine.old)) }
{
    machine.base = machine.env.len();
    machine.env.extend_from_slice(&held.places)?;
    machine.operands.extend_from_slice(&held.done)?;
    machine.look_at(Focus::Node {
        number: held.node,
        from: 0,
        done: held.done.len(),
    });
    Ok(())
}

/// Looks at a redex, inside all frames.
pub fn begin_at(machine: &mut Machine, held: &Held) -> Result<(), AllocError>
    ensures stands { let old = view_of machine.old in
        (k : List NodeShape) (vs : List ServiceShape) (r : Redex) → (b : Below k old vs) →
        HoldsRedex k held.now.node held.now.places.items held.now.done.items r →
        let term = plug (contexts_of b.items) (redex_node r) in
        OnOk result (Standing k (view_of machine.new) term vs) }
{
    look_at_node(machine, held)
}
