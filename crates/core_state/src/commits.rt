//! A lease that comes back.

ghost use Rattle.std.specs.Prelude.{
  ◌≡◌,
  ◌-◌,
  IfOk,
  IfSome,
  List,
  OnErr,
  OnOk,
  Option,
  false,
  is_some,
};
ghost use Rattle.std.specs.Option.{option_map};
ghost use Rattle.asp_model.specs.Chase.{chase};
ghost use Rattle.asp_model.specs.Configuration as model;
ghost use Rattle.asp_model.specs.Configuration.{RequestShape};
ghost use Rattle.asp_model.specs.History.{HistoryShape};
ghost use Rattle.asp_model.specs.Intent.{Effect};
ghost use Rattle.asp_model.specs.Names.{Name};
ghost use Rattle.def_journals.specs.Journals.{RunShape};
ghost use Rattle.code_table.specs.declared.code.Node.{Node as NodeShape};
ghost use Rattle.future_table.specs.Values.{values_of};
ghost use Rattle.step_reads.specs.Values.{AreClosedValues};
ghost use Rattle.law_core.specs.Ranked.{rank_of};
ghost use Rattle.step_activity.specs.Actors.{IsClosedFor, Stands};
ghost use Rattle.step_activity.specs.Stances.{stance_shape};
ghost use Rattle.core_state.specs.Journal.{entries_in};
ghost use Rattle.core_state.specs.Returning.{IsSomeLease};
ghost use Rattle.core_state.specs.Cores.{IsCore};
ghost use Rattle.core_state.specs.Leases.{IsLease};
ghost use Rattle.core_state.specs.Arrivals.{IsArrived, IsRankAlone};
ghost use Rattle.core_state.specs.Commits.{act_of, act_within, communicates};

use crate::come_back::rank_at;
use crate::lease::Lease;
use crate::spending::is_used;
use crate::state::CoreState;
use core_ranks::Rank;
use std::alloc::AllocError;
use step_activity::{Actor, Stance};

fn communicates(stance: Stance) -> bool
    ensures { result ≡ communicates (stance_shape stance.entry) }
{
    matches!(stance, Stance::Communicates)
}

/// Whether the communication is done at which a lease stopped: it may be, and one of the grant is
/// left.
fn acts(grant: u64, taken: u64, stance: Stance) -> bool
    ensures acts { (o : Option Effect) →
        communicates (stance_shape stance.entry) ≡ is_some o →
        result ≡ is_some (act_within (grant - taken) o) }
{
    if is_used(grant, taken) {
        return false;
    }
    communicates(stance)
}

/// The rank of an activity that has come back by its contractions alone; none where it does a
/// communication yet. It is looked at once.
fn rank_alone(
    state: &CoreState,
    grant: u64,
    taken: u64,
    actor: &Actor,
) -> Result<Option<Rank>, AllocError>
    requires closed { IsClosedFor actor.now }
    requires values { AreClosedValues (values_of state.now.futures) }
    ensures alone { (a : model.Activity) (rs : List RequestShape) (n : Name) →
        Stands actor.now a rs → let values = values_of state.now.futures in
        let act = act_within (grant - taken) (act_of (chase values) rs n a) in
        IfOk result (IsRankAlone act (rank_of values rs n a)) }
{
    let stance = actor.stance(state.alloc, &state.futures)?;
    if acts(grant, taken, stance) {
        return Ok(None);
    }
    let rank = rank_at(state.alloc, stance, &state.futures)?;
    Ok(Some(rank))
}

/// A lease comes back: its activity has received what came meanwhile. It is in by its contractions
/// alone, and what is left of its grant has gone back; or it stands at a communication that may be
/// done, and one of its grant is left: then it is answered.
pub fn arrive(state: &mut CoreState, lease: Lease) -> Result<Option<Box<Actor>>, AllocError>
    requires lease { IsSomeLease state.old lease }
    ensures arrived { (h : HistoryShape) (code : List NodeShape) (s : RunShape) →
        IsCore h code state.old s → (l : IsLease h code lease) →
        let back = IsArrived h code state.new s lease.number l.name lease.grant lease.taken in
        IfOk result (λ a. back (option_map (λ b. b.value) a)) }
    ensures fresh { OnOk result (lease.spent ≡ false) }
    ensures waits { IfOk result (λ a. IfSome a
        (λ b. entries_in state.new.journal ≡ entries_in state.old.journal)) }
    ensures entries { OnErr result
        (entries_in state.new.journal ≡ entries_in state.old.journal) }
{
    let number = lease.number;
    let grant = lease.grant;
    let taken = lease.taken;
    let actor = state.take_back(lease)?;
    let alone = rank_alone(state, grant, taken, actor.as_ref())?;
    let Some(rank) = alone else {
        return Ok(Some(actor));
    };
    state.come_back(number, grant, taken, actor, rank)?;
    Ok(None)
}
