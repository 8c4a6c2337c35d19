//! Runs that are led by what was sent in another run.

ghost use Rattle.std.specs.Prelude.{◌≡◌, ℕ, IfOk, OnOk};
ghost use Rattle.asp_model.specs.Configuration.{start as start_of};
ghost use Rattle.asp_model.specs.Names.{Text};
ghost use Rattle.asp_model.specs.Shapes.{tree_of};
ghost use Rattle.replay_classes.specs.Classes.{class_in};
ghost use Rattle.replay_classes.specs.Walks.{GoesOn, IsAtSending, IsSomeWalk, IsWalkSomewhere, IsWalkTo};

use crate::classes::Classes;
use crate::guides::next_place;
use crate::looks::{Look, look_at};
use crate::probes::send;
use asp_check::Checked;
use asp_model::ActivityName;
use class_search::Sending;
use code_compiler::compile;
use replay_population::{Population, Roster};
use std::alloc::{AllocError, Global};
use std::sync::Arc;

/// A run, what was sent in it, and what is to be sent yet.
#[derive(Drop)]
pub struct Walk {
    pub population: Population,
    pub sendings: Vec<Sending>,
    pub guide: Vec<Sending>,
}

/// At the start of a program.
fn start(alloc: Global, program: &Checked, guide: Vec<Sending>) -> Result<Walk, AllocError>
    ensures start { (K : Text → ℕ) → let tree = tree_of program.now.program.root in
        IfOk result (λ w. IsWalkTo K tree w (start_of tree)) }
{
    let code = Arc::new(alloc, compile(alloc, program)?)?;
    let (population, _) = Population::start(alloc, code, Roster::new(alloc))?;
    Ok(Walk {
        population,
        sendings: Vec::new(alloc),
        guide,
    })
}

/// An activity sends to this one, if the guide says so. Whether it does is answered.
fn send_next(
    alloc: Global,
    classes: &Classes,
    walk: &mut Walk,
    number: u32,
    to: &ActivityName,
) -> Result<bool, AllocError>
    requires walk { IsSomeWalk (class_in classes.now) walk.old }
    requires sends { IsAtSending (class_in classes.now) walk.old number }
    ensures goes { OnOk result (GoesOn (class_in classes.now) walk.old walk.new) }
{
    let by = walk.population.roster.name(number).copy(alloc)?;
    let Some(place) = next_place(&walk.guide, &by, to) else {
        return Ok(false);
    };
    walk.guide.remove(place);
    let sending = send(alloc, classes, &mut walk.population, number)?;
    walk.sendings.push(sending)?;
    Ok(true)
}

/// An activity takes a reduction, unless it is to send nothing now. Whether it does is answered.
fn try_step(
    alloc: Global,
    classes: &Classes,
    walk: &mut Walk,
    number: u32,
) -> Result<bool, AllocError>
    requires walk { IsSomeWalk (class_in classes.now) walk.old }
    ensures goes { OnOk result (GoesOn (class_in classes.now) walk.old walk.new) }
{
    if number as usize >= walk.population.roster.len() {
        return Ok(false);
    }
    walk.population.settle(number)?;
    match look_at(alloc, &walk.population, number)? {
        Look::Steps => {
            walk.population.step(alloc, number)?;
            Ok(true)
        }
        Look::Sends(to) => send_next(alloc, classes, walk, number, &to),
        Look::Polls | Look::Rests => Ok(false),
    }
}

/// An activity goes as far as it can, at most so many reductions. Whether it goes is answered.
fn go(
    alloc: Global,
    classes: &Classes,
    walk: &mut Walk,
    number: u32,
    most: u64,
) -> Result<bool, AllocError>
    requires walk { IsSomeWalk (class_in classes.now) walk.old }
    ensures goes { OnOk result (GoesOn (class_in classes.now) walk.old walk.new) }
{
    for taken in 0..most {
        if !try_step(alloc, classes, walk, number)? {
            return Ok(taken > 0);
        }
    }
    Ok(true)
}

/// Each activity goes as far as it can, one after another.
fn round(alloc: Global, classes: &Classes, walk: &mut Walk, most: u64) -> Result<bool, AllocError>
    requires walk { IsSomeWalk (class_in classes.now) walk.old }
    ensures goes { OnOk result (GoesOn (class_in classes.now) walk.old walk.new) }
{
    let mut goes = false;
    for number in 0..walk.population.roster.len() as u32 {
        if go(alloc, classes, walk, number, most)? {
            goes = true;
        }
    }
    Ok(goes)
}

/// Rounds until nobody goes, at most so many.
fn walk_on(alloc: Global, classes: &Classes, walk: &mut Walk, most: u64) -> Result<(), AllocError>
    requires walk { IsSomeWalk (class_in classes.now) walk.old }
    ensures goes { OnOk result (GoesOn (class_in classes.now) walk.old walk.new) }
{
    for _round in 0..most {
        if !round(alloc, classes, walk, most)? {
            return Ok(());
        }
    }
    Ok(())
}

/// A run from the start, as far as the guide leads it.
pub fn walk_by(
    alloc: Global,
    program: &Checked,
    classes: &Classes,
    guide: Vec<Sending>,
    most: u64,
) -> Result<Walk, AllocError>
    ensures walk { let tree = tree_of program.now.program.root in
        IfOk result (IsWalkSomewhere (class_in classes.now) tree) }
{
    let mut walk = start(alloc, program, guide)?;
    walk_on(alloc, classes, &mut walk, most)?;
    Ok(walk)
}
