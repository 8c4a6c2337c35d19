//! Any delivery.

ghost use Rattle.std.specs.Prelude.{◌≡◌, List, OnErr, OnOk, is_some, true};
ghost use Rattle.asp_model.specs.History.{HistoryShape};
ghost use Rattle.asp_model.specs.Shapes.{delivery_shape};
ghost use Rattle.def_journals.specs.Journals.{RunShape, delivered};
ghost use Rattle.code_table.specs.declared.code.Node.{Node as NodeShape};
ghost use Rattle.core_state.specs.Journal.{entries_in};
ghost use Rattle.core_state.specs.Cores.{IsCore, IsSomeCore};
ghost use Rattle.core_state.specs.Deliveries.{IsDelivered, IsSomeDelivery};

use crate::edge::deliver_edge;
use crate::need::deliver_need;
use crate::state::CoreState;
use crate::target::{edge_target, need_target};
use asp_model::Delivery;
use std::alloc::AllocError;

/// Whether a delivery may be entered: the definition says so.
pub fn may_deliver(state: &CoreState, delivery: &Delivery) -> bool
    requires core { IsSomeCore state.now }
    ensures may { (h : HistoryShape) (code : List NodeShape) (s : RunShape) →
        IsCore h code state.now s → result ≡ is_some (delivered (delivery_shape delivery.now) s) }
{
    match delivery {
        Delivery::Edge { future, from, to } => edge_target(state, future, from, to).is_some(),
        Delivery::Need { future, to, loc } => need_target(state, future, to, *loc).is_some(),
    }
}

/// Enters a delivery that may be entered.
pub fn deliver(state: &mut CoreState, delivery: &Delivery) -> Result<(), AllocError>
    requires lawful { IsSomeDelivery state.old (delivery_shape delivery.now) }
    ensures delivered { (h : HistoryShape) (code : List NodeShape) (s : RunShape) →
        IsCore h code state.old s → let d = delivery_shape delivery.now in
        is_some (delivered d s) ≡ true → OnOk result (IsDelivered h code s d state.new) }
    ensures entries { OnErr result
        (entries_in state.new.journal ≡ entries_in state.old.journal) }
{
    match delivery {
        Delivery::Edge { future, from, to } => {
            let Some(number) = edge_target(state, future, from, to) else {
                unreachable!()
            };
            deliver_edge(state, number, from, future)
        }
        Delivery::Need { future, to, loc } => {
            let Some(spot) = need_target(state, future, to, *loc) else {
                unreachable!()
            };
            deliver_need(state, spot.number, spot.loc, future)
        }
    }
}
