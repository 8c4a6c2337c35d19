//! Queues of pending requests.

ghost use Rattle.std.specs.Prelude.{◌≡◌, ◌++◌, IfOk, List, OnOk, length, map};
ghost use Rattle.std.specs.Arc.{arc_value};
ghost use Rattle.asp_model.specs.Configuration.{RequestShape};
ghost use Rattle.checkpoint_makes.specs.Parcels.{request_by};
ghost use Rattle.law_frozen.specs.Frozen.{numbers_to};
ghost use Rattle.step_activity.specs.Actors.{HoldsQueue};
ghost use Rattle.checkpoint_actors.specs.Queues.{IsPushedBy};

use checkpoint_makes::MadeRequest;
use code_table::Code;
use request_queue::{Queue, Request};
use std::alloc::{AllocError, Global};
use std::sync::Arc;

/// A queue of requests, behind so many that were served.
pub fn make_queue(
    alloc: Global,
    code: &Arc<Code>,
    answered: u64,
    requests: Vec<MadeRequest>,
) -> Result<Queue, AllocError>
    ensures holds { let k = arc_value code.now in let qs = map (request_by k) requests.items in
        (rs : List RequestShape) → length rs ≡ answered →
        IfOk result (λ q. HoldsQueue k q (numbers_to answered) (rs ++ qs)) }
{
    let mut queue = Queue::after(alloc, answered);
    for request in requests {
        push(&mut queue, code, request)?;
    }
    Ok(queue)
}

fn push(queue: &mut Queue, code: &Arc<Code>, request: MadeRequest) -> Result<(), AllocError>
    ensures pushed { let k = arc_value code.now in
        OnOk result (IsPushedBy k queue.old queue.new (request_by k request)) }
{
    let MadeRequest {
        label,
        sender,
        future,
        arguments,
    } = request;
    let arguments = arguments.with_code(code)?;
    queue.push(Request {
        label,
        arguments,
        future,
        sender,
    })?;
    Ok(())
}
