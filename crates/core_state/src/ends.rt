//! How a run ends.

ghost use Rattle.asp_model.specs.Shapes.{verdict_shape};
ghost use Rattle.core_state.specs.Verdicts.{IsVerdictOf};

use asp_model::Verdict;
use core_ranks::Ranks;

/// The verdict where nobody goes on: who may step then lacks a budget.
pub fn verdict_at_rest(ranks: &Ranks) -> Verdict
    ensures verdict { IsVerdictOf ranks.now (verdict_shape result) }
{
    match ranks.first_going() {
        Some(_) => Verdict::Budget,
        None => {
            if ranks.someone_awaits() {
                Verdict::Blocked
            } else {
                Verdict::End
            }
        }
    }
}
