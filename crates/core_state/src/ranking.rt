//! Where activities stand, once others have what a reduction gave.

ghost use Rattle.std.specs.Prelude.{◌≡◌, IfOk, List, OnOk, ℕ};
ghost use Rattle.asp_model.specs.Chase.{chase};
ghost use Rattle.asp_model.specs.Configuration.{Activity};
ghost use Rattle.asp_model.specs.History.{HistoryShape};
ghost use Rattle.asp_model.specs.Intent.{Effect};
ghost use Rattle.asp_model.specs.Names.{Name};
ghost use Rattle.asp_model.specs.Shapes.{future_shape};
ghost use Rattle.def_journals.specs.Journals.{RunShape};
ghost use Rattle.code_table.specs.declared.code.Node.{Node as NodeShape};
ghost use Rattle.future_table.specs.Values.{values_of};
ghost use Rattle.core_ranks.specs.Ranks.{IsRanked, OthersStay, goes, rank_shape};
ghost use Rattle.law_core.specs.Ranked.{rank_at};
ghost use Rattle.law_core.specs.Runs.{rank_of_number};
ghost use Rattle.core_state.specs.Changes.{
  AreOthersRanked,
  IsChanged,
  IsSomeChanged,
  IsSomeStanding,
  IsSomeWaking,
  IsStanding,
  IsWaking,
  acted,
};

use crate::change::Change;
use crate::come_back::rank_of;
use crate::state::CoreState;
use asp_model::FutureName;
use core_ranks::Rank;
use future_table::{Chase, FutureTable};
use std::alloc::{AllocError, Global};

/// Where an activity stands: one that is out rests.
pub fn look(state: &CoreState, number: u32) -> Result<Rank, AllocError>
    requires standing { IsSomeStanding state.now number }
    ensures rank { (h : HistoryShape) (code : List NodeShape) (t : RunShape) →
        IsStanding h code state.now t number →
        IfOk result (λ r. rank_shape r ≡ rank_of_number t number) }
{
    match state.seats.get(number) {
        Some(actor) => {
            let rank = rank_of(state.alloc, actor, &state.futures)?;
            Ok(rank)
        }
        None => Ok(Rank::Rests),
    }
}

/// Where all stand who waited for a future, by where the walk from it ends now.
fn look_beyond(
    alloc: Global,
    future: &FutureName,
    futures: &FutureTable,
) -> Result<Rank, AllocError>
    ensures rank { let end = chase (values_of futures.now) (future_shape future.now) in
        IfOk result (λ r. rank_shape r ≡ rank_at end) }
{
    match futures.chase(future) {
        Chase::Value(_) => Ok(Rank::HasNeed),
        Chase::Unfilled(name) => Ok(Rank::Waits(name.copy(alloc)?)),
        Chase::Cycle(_) => Ok(Rank::Circles),
    }
}

fn is_going(rank: &Rank) -> bool
    ensures { result ≡ goes (rank_shape rank.now) }
{
    matches!(rank, Rank::Goes)
}

/// Who received may step now, if it rested: who may step already is not looked at.
fn wake(state: &mut CoreState, number: u32) -> Result<(), AllocError>
    requires waking { IsSomeWaking state.old number }
    ensures here { (h : HistoryShape) (code : List NodeShape) (t : RunShape) →
        IsWaking h code state.old t number →
        OnOk result (IsRanked state.new.ranks number (rank_of_number t number)) }
    ensures others { OnOk result (OthersStay number state.old.ranks state.new.ranks) }
    ensures seats { state.new.seats ≡ state.old.seats }
    ensures futures { state.new.futures ≡ state.old.futures }
    ensures journal { state.new.journal ≡ state.old.journal }
    ensures left { state.new.left ≡ state.old.left }
    ensures bursts { state.new.bursts ≡ state.old.bursts }
{
    if state.ranks.goes(number) {
        return Ok(());
    }
    let rank = look(state, number)?;
    if !is_going(&rank) {
        return Ok(());
    }
    state.ranks.rank(number, rank)
}

/// Ranks all but the activity of a number, which comes in, once they have what it gave.
pub fn rank_others(state: &mut CoreState, number: u32, change: Change) -> Result<(), AllocError>
    requires changed { IsSomeChanged state.old number change }
    ensures ranks { (h : HistoryShape) (code : List NodeShape) (s : RunShape) (n : Name)
        (b : Activity) (e : Effect) (left : ℕ) →
        IsChanged h code state.old s number n b e left change →
        OnOk result (AreOthersRanked state.new.ranks number (acted s number n b e left)) }
    ensures seats { state.new.seats ≡ state.old.seats }
    ensures futures { state.new.futures ≡ state.old.futures }
    ensures journal { state.new.journal ≡ state.old.journal }
    ensures left { state.new.left ≡ state.old.left }
    ensures bursts { state.new.bursts ≡ state.old.bursts }
{
    match change {
        Change::Nothing => Ok(()),
        Change::Made(other) => {
            let rank = look(state, other)?;
            state.ranks.rank(other, rank)?;
            Ok(())
        }
        Change::Received(other) => {
            if other == number {
                return Ok(());
            }
            wake(state, other)?;
            Ok(())
        }
        Change::Filled(future) => {
            let rank = look_beyond(state.alloc, &future.name, &state.futures)?;
            state.ranks.shift(&future.name, rank)?;
            Ok(())
        }
    }
}
