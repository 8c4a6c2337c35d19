//! The search.

ghost use Rattle.std.specs.Prelude.{◌≡◌, ℕ, IfOk, IfSome, map};
ghost use Rattle.asp_model.specs.Term.{Tree};
ghost use Rattle.asp_model.specs.Shapes.{tree_of};
ghost use Rattle.class_search.specs.Found.{Begins, HasAllOffers, IsFoundEnd};
ghost use Rattle.outcome_search.specs.Ends.{run_logs};
ghost use Rattle.outcome_search.specs.Found.{AreFound, IfComplete};
ghost use Rattle.replay_classes.specs.Classes.{class_in};
ghost use Rattle.replay_classes.specs.Complete.{IsCompleteByClasses};
ghost use Rattle.replay_classes.specs.Told.{IsTold};

use crate::classes::Classes;
use crate::cuts::{is_inside, none_is_next, offers_of};
use crate::ends::{Halt, found_end};
use crate::guides::cut_guide;
use crate::logs::is_before;
use crate::probes::{probe, senders};
use crate::sendings::{copies_of, rows_of};
use crate::walks::walk_by;
use asp_check::Checked;
use asp_model::{Lists, MOST_REDUCTIONS, Services};
use class_search::{ClassLog, Cuts, FoundEnd, Offer, all_offers, begin_with, log_at};
use end_search::{Ends, Found as FoundEnds, Progress, ProgressBox, Stop as EndStop, all_ends};
use outcome_search::{EndedRun, Found, Stop};
use replay_offers::{Replays, logs_of};
use std::alloc::{AllocError, Global};

/// How often labels may be learned: each time one has a class, or two classes are one.
const MOST_TRIES: u32 = 100_000;

/// The runs of a program by classes, each within a budget.
#[derive(Drop)]
pub struct ClassRuns<'a> {
    pub program: &'a Checked,
    pub budget: u64,
    pub classes: &'a Classes,
    pub progress: &'a ProgressBox,
}

impl ClassRuns<'_> {
    // A run that begins with logs as far as it can, as an end by classes.
    fn end_under(&self, alloc: Global, lists: Lists) -> Result<Result<FoundEnd, Halt>, AllocError>
        ensures end { let tree = tree_of self.now.program.now.program.root in
            IfOk result (λ r. IfOk r (IsFoundEnd (class_in self.now.classes.now) tree)) }
    {
        let budget = self.budget.min(MOST_REDUCTIONS);
        let runs = Replays::new(alloc, self.program, budget)?;
        match runs.end_from(alloc, &lists)? {
            Some(run) => found_end(alloc, self.program, self.classes, run),
            None => Ok(Err(Halt::Unended(lists))),
        }
    }
}

impl Cuts for ClassRuns<'_> {
    type Halt = Halt;

    ghost program = { λ r. tree_of r.program.now.program.root };

    ghost classes = { λ r. class_in r.classes.now };

    fn offers_at(
        &self,
        alloc: Global,
        end: &FoundEnd,
        log: &ClassLog,
        place: usize,
    ) -> Result<Result<Vec<Offer>, Halt>, AllocError> {
        if !is_before(place, log_at(&end.logs, &log.to, log.class)) {
            return Ok(Ok(Vec::new(alloc)));
        }
        let guide = cut_guide(alloc, end, &log.to, log.class, place)?;
        let mut walk = walk_by(alloc, self.program, self.classes, guide, self.budget)?;
        let rows = rows_of(alloc, &walk.sendings)?;
        if !is_inside(&end.logs, log, place, &rows) {
            return Ok(Err(Halt::Untold));
        }
        let Some(sends) = senders(alloc, &walk.population)? else {
            return Ok(Err(Halt::Untold));
        };
        let nexts = probe(alloc, self.classes, &mut walk.population, &sends)?;
        if !none_is_next(&end.logs, log, place, &rows, &nexts) {
            return Ok(Err(Halt::Untold));
        }
        let offers = offers_of(alloc, &walk.sendings, &nexts, log)?;
        Ok(Ok(offers))
    }
}

impl Ends for ClassRuns<'_> {
    type End = FoundEnd;

    type Offer = Offer;

    type Halt = Halt;

    ghost ended = { λ r e. IsFoundEnd (class_in r.classes.now) (tree_of r.program.now.program.root) e };

    ghost begins = { Begins };

    ghost offered = { λ r e os. HasAllOffers
        (class_in r.classes.now) (tree_of r.program.now.program.root) e os };

    fn begins(&self, end: &FoundEnd, offer: &Offer) -> bool {
        begin_with(&end.logs, &offer.logs)
    }

    fn offers(
        &self,
        alloc: Global,
        end: &FoundEnd,
    ) -> Result<Result<Vec<Offer>, Halt>, AllocError> {
        all_offers(alloc, self, end)
    }

    fn end_from(&self, alloc: Global, offer: &Offer) -> Result<Result<FoundEnd, Halt>, AllocError> {
        let guide = copies_of(alloc, &offer.sendings)?;
        let walk = walk_by(alloc, self.program, self.classes, guide, self.budget)?;
        let lists = logs_of(alloc, walk.population)?;
        match self.end_under(alloc, lists)? {
            Ok(end) if begin_with(&end.logs, &offer.logs) => Ok(Ok(end)),
            Ok(_) => Ok(Err(Halt::Untold)),
            Err(halt) => Ok(Err(halt)),
        }
    }

    fn first(&self, alloc: Global) -> Result<Result<FoundEnd, Halt>, AllocError> {
        let entries = Vec::new(alloc);
        self.end_under(alloc, Lists { entries })
    }

    fn told(&self, ends: usize, done: usize) {
        self.progress.told(ends, done)
    }
}

/// The runs of ends.
fn runs_of(alloc: Global, ends: Vec<FoundEnd>) -> Result<Vec<EndedRun>, AllocError>
    ensures runs { IfOk result
        (λ v. map run_logs v.items ≡ map (λ e. run_logs e.run) ends.items) }
{
    let mut runs = Vec::new(alloc);
    for end in ends {
        runs.push(end.run)?;
    }
    Ok(runs)
}

/// What a search by some classes comes to.
#[derive(Drop)]
pub enum Told {
    Found(Found),
    /// There is more to learn of labels.
    Learns(Services),
    /// Nothing is told by classes.
    Untold,
}

/// The runs of ends, with how the search for them ended.
fn with_runs(alloc: Global, ends: Vec<FoundEnd>, stop: Stop) -> Result<Told, AllocError>
    ensures told { (program : Tree) (most : ℕ) → let runs = map (λ e. run_logs e.run) ends.items in
        AreFound program most runs → IfComplete (IsCompleteByClasses program runs) stop →
        IfOk result (IsTold program most) }
{
    Ok(Told::Found(Found {
        ends: runs_of(alloc, ends)?,
        stop,
    }))
}

/// The ends by these classes.
fn search<'a>(
    alloc: Global,
    program: &'a Checked,
    budget: u64,
    most: usize,
    classes: &'a Classes,
    progress: &'a ProgressBox,
) -> Result<Told, AllocError>
    ensures told { IfOk result (IsTold (tree_of program.now.program.root) most) }
{
    let runs = ClassRuns {
        program,
        budget,
        classes,
        progress,
    };
    let FoundEnds { ends, stop } = all_ends(alloc, &runs, most)?;
    match stop {
        EndStop::Complete => with_runs(alloc, ends, Stop::Complete),
        EndStop::Most => with_runs(alloc, ends, Stop::Most),
        EndStop::Halts(Halt::Unended(lists)) => with_runs(alloc, ends, Stop::Unended(lists)),
        EndStop::Halts(Halt::Learns(services)) => Ok(Told::Learns(services)),
        EndStop::Halts(Halt::Untold) => Ok(Told::Untold),
    }
}

/// The ends of a program's runs by classes of labels, at most so many, each within a budget. There
/// are none where a run polls, or could not be led.
pub fn ends_by_classes(
    alloc: Global,
    program: &Checked,
    budget: u64,
    most: usize,
    progress: &ProgressBox,
) -> Result<Option<Found>, AllocError>
    ensures found { let tree = tree_of program.now.program.root in
        IfOk result (λ o. IfSome o (λ f. AreFound tree most (map run_logs f.ends.items))) }
    // If the search is complete, the ends are complete by some classes of labels.
    ensures complete { let tree = tree_of program.now.program.root in
        IfOk result (λ o. IfSome o (λ f.
        IfComplete (IsCompleteByClasses tree (map run_logs f.ends.items)) f.stop)) }
{
    let mut classes = Classes::new(alloc);
    for _try in 0..MOST_TRIES {
        match search(alloc, program, budget, most, &classes, progress)? {
            Told::Found(found) => return Ok(Some(found)),
            Told::Learns(services) => classes.learn(alloc, &services)?,
            Told::Untold => return Ok(None),
        }
    }
    Ok(None)
}
