//! An activity with the requests that it received, and its log.

ghost use Rattle.std.specs.Prelude.{◌≡◌, ◌∷◌, ◌++◌, [], IfOk, List, OnOk, length, map};
ghost use Rattle.std.specs.Arc.{arc_value};
ghost use Rattle.asp_model.specs.Configuration as model;
ghost use Rattle.asp_model.specs.Configuration.{From, RequestShape, begun};
ghost use Rattle.asp_model.specs.Shapes.{
  activity_shape as report_shape,
  line_shape,
  reception_shape,
  status_shape,
};
ghost use Rattle.asp_model.specs.Store.{Object as ObjectCell};
ghost use Rattle.code_table.specs.Shapes.{store_of};
ghost use Rattle.code_table.specs.Pieces.{tree};
ghost use Rattle.code_table.specs.Sound.{root_of};
ghost use Rattle.code_table.specs.Tables.{piece_at, pieces};
ghost use Rattle.activity_step.specs.Activities.{StandsFor};
ghost use Rattle.activity_step.specs.Places.{IsPlaceOf};
ghost use Rattle.def_paths.specs.Snapshots.{snapshot_of};
ghost use Rattle.request_queue.specs.Requests.{request_shape};
ghost use Rattle.run_ends.specs.Ends.{IsSnapshotOf};
ghost use Rattle.step_activity.specs.Actors.{HoldsQueue, Stands, code_of, log_in};
ghost use Rattle.step_activity.specs.Parts.{ArePartsOf};

use crate::parts::{ActorParts, copy_present};
use activity_step::{Activity, State};
use asp_model::{ActivityName, ActivityReport, Line, Reception, Status};
use code_table::Code;
use object_store::Store;
use request_queue::{Queue, Request};
use run_ends::EndState;
use std::alloc::{AllocError, Global};
use std::sync::Arc;

/// An activity with its pending requests, what it received and asked, how many requests and
/// activities it has made, and how many members of a group that it waits for are known to have come.
pub struct Actor {
    pub(crate) activity: Activity,
    pub(crate) queue: Queue,
    pub(crate) log: Vec<Reception>,
    pub(crate) sends: u32,
    pub(crate) creations: u32,
    pub(crate) clear: usize,
}

// Written out, so that crates above drop it by one call.
impl Drop for Actor {
    fn drop(self) {
        let Actor {
            activity: _,
            queue: _,
            log: _,
            sends: _,
            creations: _,
            clear: _,
        } = self;
    }
}

impl Actor {
    /// An activity that has received nothing.
    pub(crate) fn begin(alloc: Global, activity: Activity) -> Actor
        ensures stands { (a : model.Activity) → StandsFor activity a → a.sends ≡ 0 →
            a.creations ≡ 0 → a.served ≡ [] → Stands result a [] }
        ensures log { log_in result ≡ [] }
        ensures code { code_of result ≡ arc_value activity.code }
    {
        Actor {
            activity,
            queue: Queue::new(alloc),
            log: Vec::new(alloc),
            sends: 0,
            creations: 0,
            clear: 0,
        }
    }

    /// An activity that is made anew, with its pending requests, its log, and how many requests and
    /// activities it has made.
    pub fn restored(
        activity: Activity,
        queue: Queue,
        log: Vec<Reception>,
        sends: u32,
        creations: u32,
    ) -> Actor
        ensures stands { let k = arc_value activity.code in
            (a : model.Activity) (rs : List RequestShape) → StandsFor activity a →
            sends ≡ a.sends → creations ≡ a.creations → HoldsQueue k queue a.served rs →
            Stands result a rs }
        ensures log { log_in result ≡ map reception_shape log.items }
        ensures code { code_of result ≡ arc_value activity.code }
    {
        Actor {
            activity,
            queue,
            log,
            sends,
            creations,
            clear: 0,
        }
    }

    /// The main activity, with the program as its term and an empty active object.
    pub fn main(alloc: Global, code: Arc<Code>) -> Result<Actor, AllocError>
        ensures stands { let k = arc_value code in
            let first = begun (tree [] (piece_at (pieces k) (root_of k))) (ObjectCell [] [] ∷ []) in
            IfOk result (λ x. Stands x first []) }
        ensures log { IfOk result (λ x. log_in x ≡ []) }
        ensures code { IfOk result (λ x. code_of x ≡ arc_value code) }
    {
        Ok(Actor::begin(alloc, Activity::main(alloc, code)?))
    }

    /// A request that comes. It is pending behind the others, and its sender is noted in the log.
    pub fn receive(&mut self, alloc: Global, request: Request) -> Result<(), AllocError>
        requires code { arc_value request.arguments.code ≡ code_of self.old }
        ensures stands { (a : model.Activity) (rs : List RequestShape) → Stands self.old a rs →
            OnOk result (Stands self.new a (rs ++ request_shape request ∷ [])) }
        ensures log { OnOk result (log_in self.new ≡ log_in self.old ++ From request.sender ∷ []) }
        ensures code { code_of self.new ≡ code_of self.old }
    {
        let sender = request.sender.copy(alloc)?;
        push_reception(&mut self.log, Reception::From(sender))?;
        self.queue.push(request)?;
        Ok(())
    }

    /// How many reductions it took.
    pub fn count(&self) -> u64
        ensures count { (a : model.Activity) (rs : List RequestShape) → Stands self.now a rs →
            result ≡ a.reductions }
    {
        self.activity.count()
    }

    /// The byte of the text where the node stood at which it is. There is none where its term is
    /// done, or is the call that a service begins with.
    pub fn mark(&self) -> Option<usize>
        ensures place { (a : model.Activity) (rs : List RequestShape) → Stands self.now a rs →
            IsPlaceOf (code_of self.now) a result }
    {
        self.activity.mark()
    }

    /// How many receptions its log has.
    pub fn logged(&self) -> usize
        ensures logged { result ≡ length (log_in self.now) }
    {
        self.log.len()
    }

    /// The code that it runs.
    pub fn code(&self) -> &Arc<Code>
        ensures code { arc_value result.now ≡ code_of self.now }
    {
        self.activity.code()
    }

    /// Its store.
    pub fn store(&self) -> &Store
        ensures store { (a : model.Activity) (rs : List RequestShape) → Stands self.now a rs →
            store_of (code_of self.now) result.now.cells ≡ a.store }
    {
        self.activity.store()
    }

    /// What it printed, in order.
    pub fn lines(&self) -> &[Line]
        ensures lines { (a : model.Activity) (rs : List RequestShape) → Stands self.now a rs →
            map line_shape result.now ≡ a.lines }
    {
        self.activity.lines()
    }

    /// What a run's end tells of it, and its state.
    pub fn into_end(self, name: ActivityName, status: Status) -> (ActivityReport, EndState)
        ensures report { (a : model.Activity) (rs : List RequestShape) → Stands self a rs →
            report_shape result.0 ≡ record {
              name = name;
              count = a.reductions;
              status = status_shape status;
              senders = log_in self;
              lines = a.lines;
            } }
        ensures state { (a : model.Activity) (rs : List RequestShape) → Stands self a rs →
            IsSnapshotOf (code_of self) result.1 (snapshot_of a) }
    {
        let Actor {
            activity,
            queue: _,
            log,
            sends: _,
            creations: _,
            clear: _,
        } = self;
        let count = activity.count();
        let (state, active) = activity.into_state();
        let State {
            machine,
            store,
            lines,
        } = state;
        let report = ActivityReport {
            name,
            count,
            status,
            senders: log,
            lines,
        };
        let end = EndState {
            machine,
            store,
            active,
        };
        (report, end)
    }

    /// What it consists of, where it is done with.
    pub fn into_parts(self, alloc: Global) -> Result<ActorParts, AllocError>
        ensures parts { (a : model.Activity) (rs : List RequestShape) → Stands self a rs →
            IfOk result (λ x. ArePartsOf x (code_of self) a rs) }
        ensures log { IfOk result (λ x. map reception_shape x.log.items ≡ log_in self) }
    {
        let Actor {
            activity,
            queue,
            log,
            sends,
            creations,
            clear: _,
        } = self;
        let present = copy_present(alloc, &activity)?;
        let count = activity.count();
        let (state, active) = activity.into_state();
        Ok(ActorParts {
            count,
            sends,
            creations,
            log,
            queue,
            present,
            state,
            active,
        })
    }
}

/// A reception more. The first takes no more room than it needs, since most activities receive one
/// request.
pub(crate) fn push_reception(
    log: &mut Vec<Reception>,
    reception: Reception,
) -> Result<(), AllocError>
    ensures items { OnOk result (log.new.items ≡ log.old.items ++ reception ∷ []) }
{
    if log.is_empty() {
        log.reserve_exact(1)?;
    }
    log.push(reception)?;
    Ok(())
}
