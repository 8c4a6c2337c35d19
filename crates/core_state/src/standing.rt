//! Where an activity stands after a value has come.

ghost use Rattle.std.specs.Prelude.{List, OnOk};
ghost use Rattle.asp_model.specs.Configuration as model;
ghost use Rattle.asp_model.specs.Configuration.{RequestShape};
ghost use Rattle.asp_model.specs.Names.{Name};
ghost use Rattle.future_table.specs.Values.{values_of};
ghost use Rattle.step_reads.specs.Values.{AreClosedValues};
ghost use Rattle.core_ranks.specs.Ranks.{IsRanked, OthersStay, RankShape};
ghost use Rattle.law_core.specs.Ranked.{rank_of as rank_told};
ghost use Rattle.step_activity.specs.Actors.{IsClosedFor, Stands};
ghost use Rattle.core_state.specs.Deliveries.{looked_at};

use crate::come_back::rank_of;
use core_ranks::Ranks;
use future_table::FutureTable;
use std::alloc::{AllocError, Global};
use step_activity::Actor;

/// Looks again at an activity, where a value was owed to it.
pub fn rank_again(
    alloc: Global,
    ranks: &mut Ranks,
    futures: &FutureTable,
    number: u32,
    actor: &Actor,
) -> Result<(), AllocError>
    requires closed { IsClosedFor actor.now }
    requires values { AreClosedValues (values_of futures.now) }
    requires ranked { (was : RankShape) × IsRanked ranks.old number was }
    ensures here { (was : RankShape) (a : model.Activity) (rs : List RequestShape) (n : Name) →
        IsRanked ranks.old number was → Stands actor.now a rs →
        let told = rank_told (values_of futures.now) rs n a in
        OnOk result (IsRanked ranks.new number (looked_at was told)) }
    ensures others { OnOk result (OthersStay number ranks.old ranks.new) }
{
    if !ranks.has_need(number) {
        return Ok(());
    }
    let rank = rank_of(alloc, actor, futures)?;
    ranks.leave(number);
    ranks.rank(number, rank)?;
    Ok(())
}
