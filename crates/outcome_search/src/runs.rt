//! What replays the runs of a program, and what a search over it finds.

ghost use Rattle.std.specs.Prelude.{◌≡◌, map, IfOk};
ghost use Rattle.asp_model.specs.Shapes.{lists_shape};
ghost use Rattle.asp_model.specs.Term.{Tree};
ghost use Rattle.outcome_search.specs.Ends.{IsEnd, IsEndFrom, IsReplayableEnd, run_logs};
ghost use Rattle.outcome_search.specs.Found.{HasOffers, HasOffersTo};

use asp_model::{ActivityName, Counts, Lists};
use std::alloc::{AllocError, Global};

/// A run after which nobody can step, as its report shows it.
#[derive(Drop)]
pub struct EndedRun {
    /// For each activity its log.
    pub lists: Lists,
    /// For each activity its reductions.
    pub counts: Counts,
}

/// How a search ended.
#[derive(Drop)]
pub enum Stop {
    /// Nothing is left: the ends are all.
    Complete,
    /// There is another end, and no room for it.
    Most,
    /// A run that begins with these logs did not end within the budget.
    Unended(Lists),
}

/// The ends that were found, and how the search ended.
#[derive(Drop)]
pub struct Found {
    pub ends: Vec<EndedRun>,
    pub stop: Stop,
}

/// Replays the runs of one program.
pub trait Runs {
    /// The program.
    ghost program: { Self → Tree };

    /// The logs to which they lead who could enter something else at this place of an activity's
    /// log. It may leave out what does not stand later in the log, or stands at the place.
    fn offers(
        &self,
        alloc: Global,
        run: &EndedRun,
        to: &ActivityName,
        place: usize,
    ) -> Result<Vec<Lists>, AllocError>
        requires run { IsReplayableEnd (program self.now) (run_logs run.now) }
        ensures all { IfOk result (λ v. HasOffers
            (program self.now) (run_logs run.now) to.now place (map lists_shape v.items)) };

    /// The same for the first places of the log, so many of them.
    fn offers_at_all(
        &self,
        alloc: Global,
        run: &EndedRun,
        to: &ActivityName,
        places: usize,
    ) -> Result<Vec<Lists>, AllocError>
        requires run { IsReplayableEnd (program self.now) (run_logs run.now) }
        ensures all { IfOk result (λ v. HasOffersTo
            (program self.now) (run_logs run.now) to.now places (map lists_shape v.items)) }
    {
        let mut all = Vec::new(alloc);
        for place in 0..places {
            let mut offers = self.offers(alloc, run, to, place)?;
            all.append(&mut offers)?;
        }
        Ok(all)
    }

    /// A run that begins with these logs and has ended; none where the budget runs out.
    fn ended(&self, alloc: Global, lists: &Lists) -> Result<Option<EndedRun>, AllocError>
        ensures end { IfOk result (IsEndFrom (program self.now) (lists_shape lists.now)) };

    /// A run that has ended; none where the budget runs out.
    fn first(&self, alloc: Global) -> Result<Option<EndedRun>, AllocError>
        ensures end { IfOk result (IsEnd (program self.now)) };

    /// Is told from time to time how many ends were found, and how many of them are done.
    fn told(&mut self, _ends: usize, _done: usize)
        ensures program { program self.new ≡ program self.old }
    {}
}
