//! The entries of logs by the numbers of their activities.

ghost use Rattle.std.specs.Prelude.{◌≡◌, IfOk, List, Some, T, length, map};
ghost use Rattle.std.specs.FinMap.{is_sorted};
ghost use Rattle.asp_model.specs.Configuration.{Configuration, log_of};
ghost use Rattle.asp_model.specs.Names.{Name, name_cmp};
ghost use Rattle.asp_model.specs.Replay.{log_in};
ghost use Rattle.asp_model.specs.Shapes.{lists_shape, reception_shape};
ghost use Rattle.asp_model.specs.Step.{reception_at};
ghost use Rattle.def_journals.specs.Journals.{number_of};
ghost use Rattle.law_cuts.specs.Wants.{creator_of};
ghost use Rattle.law_steps.specs.Reached.{IsThere};
ghost use Rattle.replay_population.specs.Population.{IsPopulation};
ghost use Rattle.replay_parts.specs.Roster.{IsRoster, Leads};
ghost use Rattle.wait_circles.specs.Entries.{entry_lent};
ghost use Rattle.run_waits.specs.Entries.{names_in};

use asp_model::{ActivityName, Lists, Reception};
use replay_population::Population;
use std::alloc::{AllocError, Global};

fn entry_among(log: &[Reception], place: usize) -> Option<&Reception>
    ensures entry { entry_lent result ≡ reception_at (map reception_shape log.now) place }
{
    match log.get(place) {
        Some(reception) => Some(reception),
        None => None,
    }
}

/// The entry at a place of the log of an activity.
fn entry_at(lists: &Lists, to: u32, place: usize) -> Option<&Reception>
    requires ascending { T (is_sorted name_cmp lists.now.entries.items) }
    ensures entry { (ns : List Name) (n : Name) → IsRoster ns → Leads (names_in lists.now) ns →
        number_of n ns ≡ Some to →
        entry_lent result ≡ reception_at (log_in (lists_shape lists.now) n) place }
{
    match lists.entries.get(to as usize) {
        Some(list) => entry_among(&list.1, place),
        None => None,
    }
}

/// The entry that is next in the log of an activity.
pub fn next_entry<'a>(population: &Population, lists: &'a Lists, to: u32) -> Option<&'a Reception>
    requires ascending { T (is_sorted name_cmp lists.now.entries.items) }
    requires numbered { Leads (names_in lists.now) population.now.roster }
    ensures next { (c : Configuration) (n : Name) → IsPopulation population.now c →
        number_of n population.now.roster ≡ Some to → IsThere c n →
        entry_lent result ≡ reception_at (log_in (lists_shape lists.now) n) (length (log_of c n)) }
{
    entry_at(lists, to, population.logged(to))
}

/// The name without its last number: that of the creator.
pub fn creator_of(alloc: Global, name: &ActivityName) -> Result<ActivityName, AllocError>
    ensures creator { IfOk result (λ n. n ≡ creator_of name.now) }
{
    let path = name.path();
    let last = path.len().saturating_sub(1);
    Ok(ActivityName::of_path(path[..last].to_vec(alloc)?))
}
