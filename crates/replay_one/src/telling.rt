//! A listener is told of a step, and where the activities stand in the end.

ghost use Rattle.std.specs.Prelude.{◌≡◌, ◌++◌, ◌⊎◌, IfOk, List, None, OnOk, Some, map};
ghost use Rattle.asp_model.specs.Configuration as model;
ghost use Rattle.asp_model.specs.Configuration.{Configuration};
ghost use Rattle.asp_model.specs.Intent.{Effect};
ghost use Rattle.asp_model.specs.Names.{Name};
ghost use Rattle.def_journals.specs.Journals.{number_of};
ghost use Rattle.activity_step.specs.Places.{IsPlaceOf};
ghost use Rattle.law_steps.specs.Reached.{IsAt};
ghost use Rattle.step_activity.specs.Effects.{IsGiven};
ghost use Rattle.replay_population.specs.Population.{IsClosedBySome, IsKnown, IsPopulation};
ghost use Rattle.law_steps.specs.Waking.{labels_wanted};
ghost use Rattle.replay_population.specs.Reached.{IsReachedPopulation};
ghost use Rattle.replay_parts.specs.Listening.{AreToldPlaces, IsKnownBefore};
ghost use Rattle.asp_model.specs.Shapes.{line_shape};
ghost use Rattle.replay_parts.specs.Notes.{NoteShape, given_by, noted_as, place_of, printed_by, served_by};
ghost use Rattle.asp_model.specs.Term.{Tree};

use asp_model::Line;
use replay_parts::{
    Known, Notes, behind, tell_fault, tell_given, tell_lines, tell_serve, tell_service,
};
use replay_population::Population;
use std::alloc::{AllocError, Global};
use step_activity::Given;

/// What an activity printed, in order; nothing where nobody has the number.
fn lines_of(population: &Population, number: u32) -> &[Line]
    ensures lines { (c : Configuration) (a : model.Activity) (n : Name) →
        IsPopulation population.now c → number_of n population.now.roster ≡ Some number →
        IsAt c n a → map line_shape result.now ≡ a.lines }
{
    match population.get(number) {
        Some(actor) => actor.lines(),
        None => &[],
    }
}

/// Where an activity stands in the text, if the listener hears of places.
fn heard_place<N: Notes>(population: &Population, number: u32, notes: &N) -> Option<usize>
    ensures place { (c : Configuration) (a : model.Activity) (n : Name) →
        (p : IsPopulation population.now c) → number_of n population.now.roster ≡ Some number →
        IsAt c n a → (result ≡ None) ⊎ IsPlaceOf p.code a result }
{
    if notes.hears_places() {
        population.mark(number)
    } else {
        None
    }
}

/// What is known of an activity before its step, where somebody listens. It is told of the service
/// that the step begins.
pub fn before<N: Notes>(
    population: &Population,
    number: u32,
    notes: &mut N,
) -> Result<Option<Known>, AllocError>
    requires closed { IsClosedBySome population.now }
    requires known { IsKnown population.now number }
    ensures known { (c : Configuration) (a : model.Activity) (n : Name) →
        IsPopulation population.now c → number_of n population.now.roster ≡ Some number →
        IsAt c n a → IfOk result (IsKnownBefore (N.tells notes.new) a) }
    ensures told { (xs : List NoteShape) (c : Configuration) (a : model.Activity) (n : Name) →
        N.tells notes.old xs → IsPopulation population.now c →
        number_of n population.now.roster ≡ Some number → IsAt c n a →
        let events = served_by (labels_wanted a) in
        OnOk result (N.tells notes.new (xs ++ map (noted_as n a.reductions) events)) }
{
    if !notes.listens() {
        return Ok(None);
    }
    let count = population.count(number);
    let lines = lines_of(population, number).len();
    let wanted = population.wanted(number)?;
    let at = heard_place(population, number, notes);
    let by = population.roster.name(number);
    tell_service(by, count, at, wanted, notes)?;
    Ok(Some(Known { count, at, lines }))
}

/// It is told of what a step of the activity of a number gave to others and printed, where somebody
/// listens.
pub fn tell<N: Notes>(
    population: &Population,
    number: u32,
    before: Option<Known>,
    given: &Given,
    notes: &mut N,
) -> Result<(), AllocError>
    requires known { IsKnown population.now number }
    ensures told { (xs : List NoteShape) (c : Configuration) (n : Name) (a : model.Activity)
        (e : Effect) → N.tells notes.old xs → IsKnownBefore (N.tells notes.old) a before →
        IsPopulation population.now c → number_of n population.now.roster ≡ Some number →
        IsAt c n e.own → IsGiven n e given.now →
        let events = given_by e ++ printed_by a e.own in
        OnOk result (N.tells notes.new (xs ++ map (noted_as n a.reductions) events)) }
{
    let Some(before) = before else {
        return Ok(());
    };
    let by = population.roster.name(number);
    tell_given(by, before.count, before.at, given, notes)?;
    let lines = behind(lines_of(population, number), before.lines);
    tell_lines(by, before.count, before.at, lines, notes)
}

/// It is told where an activity stands, if it is there and asks for labels or has stopped at a
/// fault.
fn tell_place<N: Notes>(
    alloc: Global,
    population: &mut Population,
    number: u32,
    notes: &mut N,
) -> Result<(), AllocError>
    requires closed { IsClosedBySome population.old }
    requires known { IsKnown population.old number }
    ensures population { (c : Configuration) → IsPopulation population.old c →
        OnOk result (IsPopulation population.new c) }
    ensures roster { OnOk result (population.new.roster ≡ population.old.roster) }
    ensures told { (xs : List NoteShape) (c : Configuration) (n : Name) →
        IsPopulation population.old c → number_of n population.old.roster ≡ Some number →
        N.tells notes.old xs → OnOk result (N.tells notes.new (xs ++ place_of c n)) }
{
    let Some(_actor) = population.get(number) else {
        return Ok(());
    };
    population.settle(number)?;
    let count = population.count(number);
    let at = heard_place(population, number, notes);
    let wanted = population.wanted(number)?;
    let status = population.status(alloc, number)?;
    let by = population.roster.name(number);
    tell_serve(by, count, at, wanted, notes)?;
    tell_fault(by, count, at, &status, notes)
}

/// It is told where all activities stand, where somebody listens.
pub fn tell_places<N: Notes>(
    alloc: Global,
    population: &mut Population,
    notes: &mut N,
) -> Result<(), AllocError>
    requires closed { IsClosedBySome population.old }
    ensures population { (c : Configuration) → IsPopulation population.old c →
        OnOk result (IsPopulation population.new c) }
    ensures told { (xs : List NoteShape) (program : Tree) (c : Configuration) →
        IsReachedPopulation population.old program c → N.tells notes.old xs →
        OnOk result (AreToldPlaces (N.tells notes.new) xs c) }
{
    if !notes.listens() {
        return Ok(());
    }
    for number in 0..population.roster.len() as u32 {
        tell_place(alloc, population, number, notes)?;
    }
    Ok(())
}
