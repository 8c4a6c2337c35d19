//! What the edges of a core that goes on are told.

ghost use Rattle.std.specs.Prelude.{◌≡◌, ◌++◌, ◌∷◌, [], List, None, OnOk, map};
ghost use Rattle.asp_model.specs.Configuration.{Configuration};
ghost use Rattle.asp_model.specs.Names.{FutureShape, Name};
ghost use Rattle.asp_model.specs.Shapes.{future_shape};
ghost use Rattle.def_journals.specs.Edges.{home_of, no_holders};
ghost use Rattle.future_table.specs.Values.{values_of};
ghost use Rattle.future_update.specs.Holders.{home_shape};
ghost use Rattle.core_edges.specs.Strategies.{KeepsEdges};
ghost use Rattle.core_thaws.specs.Telling.{
  AreApart,
  AreHomesOf,
  AreHomesSomewhere,
  AreTold,
  BeginWith,
  KeepsRest,
  all_met,
};

use asp_model::{ActivityName, FutureName};
use core_edges::Edges;
use future_table::FutureTable;
use std::alloc::AllocError;
use step_activity::Actor;
use update_policy::UpdatePolicy;

/// The edges meet all activities, in this order.
fn meet_all<P: UpdatePolicy>(
    edges: &mut Edges<P>,
    activities: &[(ActivityName, Box<Actor>)],
) -> Result<(), AllocError>
    requires none { edges.old.holders.activities ≡ [] }
    requires apart { AreApart activities.now }
    ensures met { OnOk result (edges.new.holders.activities ≡ all_met activities.now) }
    ensures edges { OnOk result (KeepsEdges edges.old edges.new) }
{
    for place in 0..activities.len() {
        edges.met(&activities[place].0)?;
    }
    Ok(())
}

/// The edges know the home of a future, and whether that is filled.
fn begin<P: UpdatePolicy>(
    edges: &mut Edges<P>,
    home: &(FutureName, ActivityName),
    futures: &FutureTable,
) -> Result<(), AllocError>
    requires new { let homes = edges.old.holders.holders.homes in
        home_of (future_shape home.now.0) homes ≡ None }
    ensures told { (homes : List (FutureShape × Name)) → let values = values_of futures.now in
        AreTold homes values edges.old.holders.holders →
        let now = homes ++ home_shape home.now ∷ [] in
        OnOk result (AreTold now values edges.new.holders.holders) }
    ensures rest { OnOk result (KeepsRest edges.old edges.new) }
{
    edges.begun(&home.0, &home.1)?;
    match futures.value(&home.0) {
        Some(_) => edges.filled(&home.0),
        None => {}
    }
    Ok(())
}

/// The edges know the homes of all futures, and which are filled.
fn begin_all<P: UpdatePolicy>(
    edges: &mut Edges<P>,
    homes: &[(FutureName, ActivityName)],
    futures: &FutureTable,
) -> Result<(), AllocError>
    requires none { edges.old.holders.holders ≡ no_holders }
    requires homes { AreHomesSomewhere homes.now futures.now }
    ensures told { let told = AreTold (map home_shape homes.now) (values_of futures.now) in
        OnOk result (told edges.new.holders.holders) }
    ensures rest { OnOk result (KeepsRest edges.old edges.new) }
{
    for place in 0..homes.len() {
        begin(edges, &homes[place], futures)?;
    }
    Ok(())
}

/// Tells edges that know nothing who is there, the home of each future, and which futures are
/// filled: what a run that goes on begins with.
pub fn tell<P: UpdatePolicy>(
    edges: &mut Edges<P>,
    activities: &[(ActivityName, Box<Actor>)],
    homes: &[(FutureName, ActivityName)],
    futures: &FutureTable,
) -> Result<(), AllocError>
    requires none { edges.old.holders.holders ≡ no_holders }
    requires unanswered { edges.old.holders.answers ≡ [] }
    requires nobody { edges.old.holders.activities ≡ [] }
    requires apart { AreApart activities.now }
    requires homes { AreHomesSomewhere homes.now futures.now }
    ensures begin { (c : Configuration) → AreHomesOf c homes.now futures.now →
        OnOk result (BeginWith c activities.now edges.old edges.new) }
{
    meet_all(edges, activities)?;
    begin_all(edges, homes, futures)
}
