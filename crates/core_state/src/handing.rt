//! What a reduction gives to others, handed on.

ghost use Rattle.std.specs.Prelude.{◌≡◌, IfOk, List, OnOk, Some};
ghost use Rattle.std.specs.Arc.{arc_value};
ghost use Rattle.asp_model.specs.History.{HistoryShape};
ghost use Rattle.asp_model.specs.Intent.{Effect};
ghost use Rattle.asp_model.specs.Step.{name_at};
ghost use Rattle.asp_model.specs.Names.{Name};
ghost use Rattle.def_journals.specs.Journals.{RunShape};
ghost use Rattle.code_table.specs.declared.code.Node.{Node as NodeShape};
ghost use Rattle.law_journals.specs.Numbered.{AreNumbered};
ghost use Rattle.request_queue.specs.Requests.{request_shape};
ghost use Rattle.core_seats.specs.Seats.{AreSeats};
ghost use Rattle.core_state.specs.Cores.{IsPopulated};
ghost use Rattle.core_state.specs.Changes.{IsChange};
ghost use Rattle.core_state.specs.Handing.{
  IsReceiving,
  IsSomeReceiving,
  IsSomeToHand,
  IsToHand,
  handed,
  with_received,
};

use crate::change::Change;
use crate::state::CoreState;
use asp_model::ActivityName;
use request_queue::Request;
use std::alloc::AllocError;
use std::sync::Arc;
use step_activity::Given;

/// A request comes to whom it is sent: to the activity, or into its box. Its number is answered.
fn hand_over(state: &mut CoreState, to: &ActivityName, request: Request) -> Result<u32, AllocError>
    requires receiving { IsSomeReceiving state.old to.now request }
    ensures populated { (h : HistoryShape) (code : List NodeShape) (u : RunShape) →
        IsReceiving h code state.old u to.now request →
        OnOk result (IsPopulated h code state.new (with_received u to.now (request_shape request))) }
    ensures number { (h : HistoryShape) (code : List NodeShape) (u : RunShape) →
        IsReceiving h code state.old u to.now request →
        IfOk result (λ k. name_at u.names k ≡ Some to.now) }
    ensures journal { state.new.journal ≡ state.old.journal }
    ensures ranks { state.new.ranks ≡ state.old.ranks }
    ensures left { state.new.left ≡ state.old.left }
    ensures bursts { state.new.bursts ≡ state.old.bursts }
{
    let Some(number) = state.seats.number_of(to) else {
        unreachable!()
    };
    match state.seats.take(number) {
        Some(mut actor) => {
            actor.as_mut().receive(state.alloc, request)?;
            let _came = state.seats.put(number, actor);
            Ok(number)
        }
        None => {
            state.seats.post(number, request)?;
            Ok(number)
        }
    }
}

/// Hands on what a reduction gives, and answers what that changed for others.
pub fn hand_on(state: &mut CoreState, given: Given) -> Result<Change, AllocError>
    requires given { IsSomeToHand state.old given }
    ensures populated { (h : HistoryShape) (code : List NodeShape) (u : RunShape) (n : Name)
        (e : Effect) → IsToHand h code state.old u n e given →
        OnOk result (IsPopulated h code state.new (handed u e)) }
    ensures change { (h : HistoryShape) (code : List NodeShape) (u : RunShape) (n : Name)
        (e : Effect) → IsToHand h code state.old u n e given →
        IfOk result (IsChange u.names e) }
    ensures journal { state.new.journal ≡ state.old.journal }
    ensures ranks { state.new.ranks ≡ state.old.ranks }
    ensures left { state.new.left ≡ state.old.left }
    ensures bursts { state.new.bursts ≡ state.old.bursts }
{
    match given {
        Given::Nothing => Ok(Change::Nothing),
        Given::Polled => Ok(Change::Nothing),
        Given::Made(name, actor) => {
            let number = state.seats.add(name, actor)?;
            Ok(Change::Made(number))
        }
        Given::Sent(to, request) => {
            let number = hand_over(state, &to, request)?;
            Ok(Change::Received(number))
        }
        Given::Filled(future, value) => {
            let filled = Arc::try_clone(&future)?;
            state.futures.fill(future, value)?;
            Ok(Change::Filled(filled))
        }
    }
}
