//! How a core begins.

ghost use Rattle.std.specs.Prelude.{◌≡◌, ◌∷◌, ◌<◌, ◌^◌, [], IfOk, List, OnOk};
ghost use Rattle.std.specs.Arc.{arc_value};
ghost use Rattle.asp_model.specs.Configuration.{begun as activity_begun};
ghost use Rattle.asp_model.specs.Store.{Object as ObjectCell};
ghost use Rattle.asp_model.specs.Term.{locations};
ghost use Rattle.asp_model.specs.History.{program_history};
ghost use Rattle.def_journals.specs.Journals.{begun};
ghost use Rattle.code_table.specs.declared.code.Node.{Node as NodeShape};
ghost use Rattle.step_activity.specs.Actors.{Stands, code_of, log_in};
ghost use Rattle.core_state.specs.Begin.{IsEmpty, IsMain, IsSomeMain};
ghost use Rattle.core_state.specs.Cores.{IsCore, program_of};

use crate::come_back::rank_of;
use crate::journal::Journal;
use crate::state::CoreState;
use asp_model::ActivityName;
use code_table::Code;
use core_ranks::Ranks;
use core_seats::Seats;
use future_table::FutureTable;
use std::alloc::{AllocError, Global};
use std::sync::Arc;
use step_activity::Actor;

/// The main activity, which has settled.
fn main_actor(alloc: Global, code: Arc<Code>) -> Result<Box<Actor>, AllocError>
    ensures stands { let k = arc_value code in
        let first = activity_begun (program_of k) (ObjectCell [] [] ∷ []) in
        IfOk result (λ b. Stands b.value first []) }
    ensures code { IfOk result (λ b. code_of b.value ≡ arc_value code) }
    ensures log { IfOk result (λ b. log_in b.value ≡ []) }
{
    let mut actor = Actor::main(alloc, code)?;
    match actor.settle() {
        Ok(()) => {
            let boxed = Box::new(alloc, actor)?;
            Ok(boxed)
        }
        Err(error) => {
            drop(actor);
            Err(error)
        }
    }
}

impl CoreState {
    /// Nobody.
    fn empty(alloc: Global, budget: u64) -> CoreState
        ensures empty { IsEmpty result budget }
    {
        CoreState {
            alloc,
            seats: Seats::new(alloc),
            ranks: Ranks::new(alloc),
            futures: FutureTable::new(alloc),
            journal: Journal::new(alloc),
            left: budget,
            bursts: 0,
        }
    }

    /// The main activity comes, where nobody is yet.
    fn come_first(&mut self, actor: Box<Actor>) -> Result<(), AllocError>
        requires empty { IsEmpty self.old self.old.left }
        requires main { IsSomeMain actor.value }
        ensures begun { (code : List NodeShape) → IsMain code actor.value →
            let history = program_history (program_of code) self.old.left [] in
            self.old.left < 2 ^ 64 →
            OnOk result (IsCore history code self.new (begun (program_of code) self.old.left)) }
    {
        self.journal.reserve(1)?;
        let rank = rank_of(self.alloc, actor.as_ref(), &self.futures)?;
        self.ranks.rank(0, rank)?;
        let name = ActivityName::main(self.alloc)?;
        self.seats.add(name, actor)?;
        Ok(())
    }

    /// The main activity alone, with the program of this code as its term, and the whole budget.
    pub fn begin(alloc: Global, code: Arc<Code>, budget: u64) -> Result<CoreState, AllocError>
        requires bare { locations (program_of (arc_value code)) ≡ [] }
        ensures begun { let program = program_of (arc_value code) in
            let history = program_history program budget [] in
            IfOk result (λ x. IsCore history (arc_value code) x (begun program budget)) }
    {
        let actor = main_actor(alloc, code)?;
        let mut state = CoreState::empty(alloc, budget);
        match state.come_first(actor) {
            Ok(()) => Ok(state),
            Err(error) => {
                drop(state);
                Err(error)
            }
        }
    }
}
