//! The states of activities at the end of a run, by their names.

ghost use Rattle.std.specs.Prelude.{IfNone, IfSome, true};
ghost use Rattle.def_paths.specs.Outcomes.{WholeOutcome};
ghost use Rattle.run_ends.specs.Ends.{IsEndOf};
ghost use Rattle.path_equal.specs.Views.{
  AreAscending,
  IsNamed,
  IsNamedAt,
  IsNowhere,
  NamesAscend,
  NoneNamed,
};

use asp_model::{ActivityName, ActivityReport};
use run_ends::RunEnd;
use state_lines::{State, state_at};

// The number of the activity of a name, where the names ascend.
fn number_of(activities: &[ActivityReport], name: &ActivityName) -> Option<usize>
    ensures found { IfSome result (IsNamedAt activities.now name.now) }
    ensures none { NamesAscend activities.now → IfNone result (IsNowhere activities.now name.now) }
{
    match activities.binary_search_by(|activity| activity.name.cmp(name)) {
        Ok(number) => Some(number),
        Err(_) => None,
    }
}

/// What is read of the activity of a name; none exactly where there is none, since the names of a
/// run's activities ascend.
pub fn view<'a>(end: &'a RunEnd, name: &ActivityName) -> Option<State<'a>>
    // for what the end of the run stands for
    ensures found { (o : WholeOutcome) → IsEndOf end.now o →
        IfSome result (IsNamed o name.now) }
    ensures none { (o : WholeOutcome) → IsEndOf end.now o → AreAscending o →
        IfNone result (NoneNamed o name.now) }
{
    let number = number_of(&end.outcome.activities, name)?;
    state_at(end, number)
}
