//! A run that redoes the entries of a journal.

ghost use Rattle.std.specs.Prelude.{◌≡◌, ◌++◌, ◌∷◌, [], ℕ, IfOk, List};
ghost use Rattle.asp_model.specs.History.{EntryShape};
ghost use Rattle.asp_model.specs.Outcome.{outcome_of};
ghost use Rattle.asp_model.specs.Shapes.{entry_shape, outcome_shape, tree_of};
ghost use Rattle.asp_model.specs.Term.{Tree};
ghost use Rattle.def_journals.specs.Journals.{RunShape, begun, entered};
ghost use Rattle.def_paths.specs.Outcomes.{whole_outcome_of};
ghost use Rattle.run_ends.specs.Ends.{IsEndOf};
ghost use Rattle.journal_runs.specs.Runs.{IsRedone, IsRunOf, IsSomeRun};

use asp_check::Checked;
use asp_model::Entry;
use code_compiler::compile;
use replay_population::{Population, Roster};
use run_ends::RunEnd;
use std::alloc::{AllocError, Global};
use std::sync::Arc;

/// A run on one thread that redoes the entries of a journal, one after another.
#[derive(Drop)]
pub struct JournalRun {
    pub population: Population,
    /// By numbers: the grants of those that are out.
    pub grants: Vec<Option<u64>>,
    /// The budget that is left.
    pub left: u64,
}

impl JournalRun {
    /// A run of a program, from a budget, that has redone nothing.
    pub fn begin(alloc: Global, program: &Checked, budget: u64) -> Result<JournalRun, AllocError>
        ensures begun { let term = tree_of program.now.program.root in
            IfOk result (λ x. IsRunOf x term budget [] (begun term budget)) }
    {
        let code = Arc::new(alloc, compile(alloc, program)?)?;
        let roster = Roster::new(alloc);
        let (population, _) = Population::start(alloc, code, roster)?;
        let grants = Vec::new(alloc);
        Ok(JournalRun {
            population,
            grants,
            left: budget,
        })
    }

    /// Redoes one entry more. Whether it can: no lawful journal goes on with one that cannot be
    /// redone, and nothing is said of the run then.
    pub fn redo(&mut self, alloc: Global, entry: &Entry) -> Result<bool, AllocError>
        requires run { IsSomeRun self.old }
        ensures redone { (program : Tree) (budget : ℕ) (entries : List EntryShape) (s : RunShape) →
            IsRunOf self.old program budget entries s → let e = entry_shape entry.now in
            IfOk result (IsRedone self.new program budget (entries ++ e ∷ []) (entered e s)) }
    {
        match entry {
            Entry::Lent(number) => self.lend(alloc, *number),
            Entry::Committed { number, reductions } => self.commit(alloc, *number, *reductions),
            Entry::Delivered(delivery) => self.deliver(alloc, delivery),
        }
    }

    /// What the run leaves, with the state of each activity.
    pub fn end(self, alloc: Global) -> Result<RunEnd, AllocError>
        requires run { IsSomeRun self }
        ensures end { (program : Tree) (budget : ℕ) (entries : List EntryShape) (s : RunShape) →
            IsRunOf self program budget entries s →
            IfOk result (λ r. IsEndOf r (whole_outcome_of s.configuration)) }
        ensures outcome { (program : Tree) (budget : ℕ) (entries : List EntryShape)
            (s : RunShape) → IsRunOf self program budget entries s →
            IfOk result (λ r. outcome_shape r.outcome ≡ outcome_of s.configuration) }
    {
        self.population.end(alloc)
    }
}
