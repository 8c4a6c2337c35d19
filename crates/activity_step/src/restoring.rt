//! Activities that are made anew.

ghost use Rattle.std.specs.Prelude.{◌≡◌, false, reverse};
ghost use Rattle.std.specs.Arc.{arc_value};
ghost use Rattle.std.specs.Option.{option_map};
ghost use Rattle.asp_model.specs.Configuration.{Activity as ActivityShape};
ghost use Rattle.code_table.specs.Cells.{held_future};
ghost use Rattle.activity_step.specs.Activities.{StandsFor};
ghost use Rattle.activity_step.specs.Advances.{Stands};
ghost use Rattle.activity_step.specs.Standings.{code_of};

use crate::activity::Activity;
use crate::state::State;
use code_table::{Code, Future, Place};
use std::sync::Arc;

impl Activity {
    /// An activity whose term, store and output stand already: its active object has this place, its
    /// service has this future, and it took so many reductions.
    pub fn restored(
        code: Arc<Code>,
        state: State,
        active: Place,
        present: Option<Arc<Future>>,
        count: u64,
    ) -> Activity
        ensures stands { let k = arc_value code in (a : ActivityShape) →
            Stands k state a.term (reverse a.services) a.store a.lines →
            option_map held_future present ≡ a.present → active ≡ a.active →
            count ≡ a.reductions → StandsFor result a }
        ensures code { code_of result ≡ arc_value code }
        ensures fresh { result.spent ≡ false }
    {
        Activity {
            code,
            state,
            active,
            present,
            count,
            spent: false,
        }
    }
}
