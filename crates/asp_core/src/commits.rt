//! A lease that comes back.

ghost use Rattle.std.specs.Prelude.{◌≡◌, Err, List, OnErr, OnOk, alloc_error, false, true};
ghost use Rattle.asp_model.specs.History.{BeginsWith, HistoryShape};
ghost use Rattle.asp_model.specs.Intent.{Effect};
ghost use Rattle.asp_model.specs.Names.{FutureShape, Name};
ghost use Rattle.def_journals.specs.Journals.{RunShape};
ghost use Rattle.code_table.specs.declared.code.Node.{Node as NodeShape};
ghost use Rattle.step_activity.specs.Effects.{IsGiven};
ghost use Rattle.core_state.specs.Journal.{entries_in};
ghost use Rattle.core_state.specs.Leases.{IsLease};
ghost use Rattle.core_state.specs.Commits.{IsActing};
ghost use Rattle.core_edges.specs.Answers.{AreAnswered};
ghost use Rattle.core_edges.specs.Given.{IsSomeFresh};
ghost use Rattle.core_edges.specs.Labels.{AreByLabels};
ghost use Rattle.core_edges.specs.Strategies.{strategy_in};
ghost use Rattle.asp_core.specs.Bringing.{
  AreTold,
  HasActed,
  IsBroughtBack,
  IsCome,
  IsSomeActing,
  IsUnmet,
  KeepLabels,
  StandForLease,
};
ghost use Rattle.asp_core.specs.Calls.{IsCommittedBy};
ghost use Rattle.asp_core.specs.Chosen.{StaysChosen};
ghost use Rattle.asp_core.specs.Cores.{IsKept, IsRun, code_of, history_of};
ghost use Rattle.asp_core.specs.Plans.{KeepsStrategies, StayByPlan};
ghost use Rattle.asp_core.specs.Runs.{Stand};
ghost use Rattle.asp_core.specs.Stopping.{HasStoppedOr, StaysStopped};

use crate::cores::Core;
use asp_model::ActivityName;
use core_edges::Edges;
use core_state::{CoreState, Lease, arrive, bring_in, come_in, with_communication};
use std::alloc::{AllocError, Global};
use step_activity::{Actor, Given};
use update_policy::UpdatePolicy;

/// The edges are told what a communication of an activity gives, and whom it makes.
fn tell<P: UpdatePolicy>(
    alloc: Global,
    edges: &mut Edges<P>,
    by: &ActivityName,
    given: &Given,
) -> Result<(), AllocError>
    requires fresh { IsSomeFresh edges.old.holders.holders given.now }
    requires unmet { IsUnmet given.now edges.old.holders.activities }
    ensures told { (e : Effect) → IsGiven by.now e given.now →
        OnOk result (AreTold by.now e edges.old.holders edges.new.holders) }
    ensures answers { let strategies = strategy_in edges.new in
        OnOk result (AreAnswered P.answer P.asked strategies edges.old edges.new) }
    ensures labels { OnOk result (KeepLabels given.now edges.old edges.new) }
    ensures keeps { OnOk result (KeepsStrategies edges.old edges.new) }
{
    edges.given(alloc, by, given)?;
    match given {
        Given::Made(name, _) => {
            edges.met(name)?;
            Ok(())
        }
        Given::Nothing | Given::Sent(_, _) | Given::Filled(_, _) | Given::Polled => Ok(()),
    }
}

/// An activity that has come back does its communication. The edges are told what that gives, and
/// then others get it.
fn act<P: UpdatePolicy>(
    state: &mut CoreState,
    edges: &mut Edges<P>,
    number: u32,
    grant: u64,
    reductions: u64,
    actor: Box<Actor>,
) -> Result<(), AllocError>
    requires acting { IsSomeActing state.old edges.old.holders number grant reductions actor.value }
    ensures acted { (h : HistoryShape) (code : List NodeShape) (s : RunShape) (n : Name)
        (e : Effect) →
        (r : IsActing h code state.old s number n grant reductions actor.value e) →
        let acted = HasActed h code s number n grant reductions r.returning.end e state.new in
        OnOk result (acted edges.old edges.new) }
    ensures answers { let strategies = strategy_in edges.new in
        OnOk result (AreAnswered P.answer P.asked strategies edges.old edges.new) }
    ensures keeps { OnOk result (KeepsStrategies edges.old edges.new) }
    ensures entries { OnErr result
        (entries_in state.new.journal ≡ entries_in state.old.journal) }
{
    let name = state.seats.name(number).copy(state.alloc)?;
    let mut given = Given::Nothing;
    bring_in(state, number, &name, actor, &mut given)?;
    tell(state.alloc, edges, &name, &given)?;
    come_in(state, number, grant, reductions, given)
}

/// An activity comes back to a state, and edges are told what it gives. They take it as out yet.
fn come<P: UpdatePolicy>(
    state: &mut CoreState,
    edges: &mut Edges<P>,
    lease: Lease,
) -> Result<(), AllocError>
    requires lease { StandForLease state.old edges.old.holders lease }
    ensures come { (h : HistoryShape) (code : List NodeShape) (s : RunShape) →
        Stand h code s state.old edges.old.holders → (l : IsLease h code lease) →
        let come = IsCome h code s lease.number l.name lease.grant lease.taken in
        OnOk result (come state.new edges.old edges.new) }
    ensures fresh { OnOk result (lease.spent ≡ false) }
    ensures answers { let strategies = strategy_in edges.new in
        OnOk result (AreAnswered P.answer P.asked strategies edges.old edges.new) }
    ensures keeps { OnOk result (KeepsStrategies edges.old edges.new) }
    ensures entries { OnErr result
        (entries_in state.new.journal ≡ entries_in state.old.journal) }
{
    let number = lease.number;
    let grant = lease.grant;
    let reductions = with_communication(lease.taken);
    match arrive(state, lease)? {
        None => Ok(()),
        Some(actor) => act(state, edges, number, grant, reductions, actor),
    }
}

/// An activity comes back to a state, and edges are told what it gives.
fn bring_back<P: UpdatePolicy>(
    state: &mut CoreState,
    edges: &mut Edges<P>,
    lease: Lease,
) -> Result<(), AllocError>
    requires lease { StandForLease state.old edges.old.holders lease }
    ensures back { (h : HistoryShape) (code : List NodeShape) (s : RunShape) →
        (homes : List (FutureShape × Name)) → Stand h code s state.old edges.old.holders →
        AreByLabels homes s.configuration edges.old → (l : IsLease h code lease) →
        let back = IsBroughtBack homes h code s lease.number l.name lease.grant lease.taken in
        OnOk result (back state.new edges.new) }
    ensures fresh { OnOk result (lease.spent ≡ false) }
    ensures answers { let strategies = strategy_in edges.new in
        OnOk result (AreAnswered P.answer P.asked strategies edges.old edges.new) }
    ensures keeps { OnOk result (KeepsStrategies edges.old edges.new) }
    ensures entries { OnErr result
        (entries_in state.new.journal ≡ entries_in state.old.journal) }
{
    let number = lease.number;
    come(state, edges, lease)?;
    edges.returned(number);
    Ok(())
}

impl<P: UpdatePolicy> Core<P> {
    /// Takes a lease back: its activity is in with the contractions that it took, and with the
    /// communication at which it stands, where that may be done and one of the grant is left. The
    /// policies are asked about the edges that arise. What is left of the grant goes back.
    pub fn commit(&mut self, lease: Lease) -> Result<(), AllocError>
        requires kept { IsKept self.old }
        requires lease { IsLease (history_of self.old) (code_of self.old) lease }
        ensures committed { (s : RunShape) → IsRun self.old s →
            (l : IsLease (history_of self.old) (code_of self.old) lease) →
            OnOk result (IsCommittedBy self.old s lease l.name self.new) }
        ensures answers { let strategies = strategy_in self.new.edges in
            OnOk result (AreAnswered P.answer P.asked strategies self.old.edges self.new.edges) }
        ensures by_plan { OnOk result
            (StayByPlan P.answer P.asked self.old.edges self.new.edges) }
        ensures chosen { OnOk result (StaysChosen self.old self.new) }
        ensures stopped { HasStoppedOr (history_of self.old) (code_of self.old) lease →
            OnOk result (StaysStopped (history_of self.old) (history_of self.new)) }
        ensures spent { self.old.spent ≡ true → result ≡ Err alloc_error }
        ensures gives_up { OnErr result (self.new.spent ≡ true) }
        ensures err { OnErr result (history_of self.new ≡ history_of self.old) }
        ensures kept { IsKept self.new }
        ensures begins { BeginsWith (history_of self.new) (history_of self.old) }
        ensures code { code_of self.new ≡ code_of self.old }
    {
        if self.spent {
            return Err(AllocError);
        }
        self.spent = true;
        bring_back(&mut self.state, &mut self.edges, lease)?;
        self.spent = false;
        Ok(())
    }
}
