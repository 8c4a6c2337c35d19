//! Activities before their code is whole.

ghost use Rattle.std.specs.Prelude.{IfOk, map};
ghost use Rattle.code_compiler.specs.Compiled.{IsTable};
ghost use Rattle.law_steps.specs.Linked.{Each};
ghost use Rattle.checkpoint_parts.specs.Shapes.{activity_shape};
ghost use Rattle.checkpoint_states.specs.Activities.{AreMadeActivities, IsMadeActivity, MayBeMade};

use crate::states::make_state;
use activity_step::State;
use asp_model::{ActivityName, Reception};
use checkpoint_makes::{MadeRequest, make_answer, make_requests};
use checkpoint_parts::{ActivityText, PartsText, StateText, WorkText};
use code_table::{Future, Node, Place};
use std::alloc::{AllocError, Global};
use std::sync::Arc;
use term_opening::short;

/// An activity whose code still grows.
#[derive(Drop)]
pub struct MadeActivity {
    pub name: ActivityName,
    pub state: State,
    pub active: Place,
    /// The future that it has to answer.
    pub present: Option<Arc<Future>>,
    pub reductions: u64,
    pub sends: u32,
    pub creations: u32,
    pub log: Vec<Reception>,
    /// Its pending requests, oldest first.
    pub queue: Vec<MadeRequest>,
}

/// Makes an activity. What is compiled comes behind the other nodes.
pub fn make_activity(
    alloc: Global,
    nodes: &mut Vec<Node>,
    activity: ActivityText,
) -> Result<MadeActivity, AllocError>
    requires table { IsTable nodes.old.items }
    requires proper { MayBeMade (activity_shape activity) }
    ensures made { let x = activity_shape activity in
        IfOk result (λ m. IsMadeActivity nodes.old.items nodes.new.items m x) }
{
    let ActivityText {
        name,
        reductions,
        sends,
        creations,
        parts,
    } = activity;
    let PartsText {
        lines,
        log,
        queue,
        work,
    } = parts;
    let WorkText {
        present,
        services,
        state,
    } = work;
    let StateText {
        terms,
        store,
        active,
    } = state;
    let state = make_state(alloc, nodes, terms, services, store, lines)?;
    let queue = make_requests(alloc, nodes, queue)?;
    let present = make_answer(alloc, present)?;
    let active = short(active)?;
    Ok(MadeActivity {
        name,
        state,
        active,
        present,
        reductions,
        sends,
        creations,
        log,
        queue,
    })
}

/// Makes activities, in order.
pub fn make_activities(
    alloc: Global,
    nodes: &mut Vec<Node>,
    activities: Vec<ActivityText>,
) -> Result<Vec<MadeActivity>, AllocError>
    requires table { IsTable nodes.old.items }
    requires proper { Each MayBeMade (map activity_shape activities.items) }
    ensures made { let xs = map activity_shape activities.items in
        IfOk result (λ v. AreMadeActivities nodes.old.items nodes.new.items v.items xs) }
{
    let mut made = Vec::with_capacity(alloc, activities.len())?;
    for activity in activities {
        made.push(make_activity(alloc, nodes, activity)?)?;
    }
    Ok(made)
}
