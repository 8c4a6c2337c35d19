//! A search on demand. One who is needed takes a step; who cannot puts whom it needs on top of it.

ghost use Rattle.std.specs.Prelude.{◌≡◌, ◌≤◌, ◌^◌, ℕ, IfOk, OnOk, Some, T, suc};
ghost use Rattle.std.specs.FinMap.{is_sorted};
ghost use Rattle.asp_model.specs.declared.limits.TheConstants.{MOST_REDUCTIONS};
ghost use Rattle.asp_model.specs.Names.{Name, name_cmp};
ghost use Rattle.asp_model.specs.Replay.{CountsShape, total};
ghost use Rattle.asp_model.specs.Shapes.{counts_shape, lists_shape};
ghost use Rattle.asp_model.specs.Term.{Tree};
ghost use Rattle.law_cuts.specs.Searches.{Goal};
ghost use Rattle.run_waits.specs.Searches.{
  IsBegunSome,
  IsFound,
  IsSearched,
  IsSearching,
  IsSearchingSome,
  IsSought,
  IsStart,
  IsStartSome,
  IsStepped,
  goal_of,
};

use crate::cuts::turns::{Turn, turn_of};
use crate::receipts::Receipts;
use asp_model::{ActivityName, Counts, Lists};
use replay_population::Population;
use std::alloc::{AllocError, Global};

/// The activities, whom the search has come to, and those below it, each of which needs the next.
#[derive(Drop)]
pub struct Search {
    pub population: Population,
    pub top: u32,
    pub below: Vec<u32>,
}

impl Search {
    /// The one that the search has come to has stepped. Whether what is sought is there.
    fn go_back(&mut self, count: u64) -> bool
        ensures searched { (g : Goal) (lists : Lists) (turns : ℕ) → g.count ≡ count →
            IsStepped g lists self.old turns →
            IsSearched g lists result self.new (suc turns) }
    {
        match self.below.pop() {
            Some(number) => {
                self.top = number;
                false
            }
            None => self.population.count(self.top) >= count,
        }
    }

    /// One that has no contraction takes its step, or whom it needs goes on top. Whether what is
    /// sought is there.
    fn look(
        &mut self,
        alloc: Global,
        lists: &Lists,
        receipts: &Receipts,
        count: u64,
    ) -> Result<bool, AllocError>
        requires ascending { T (is_sorted name_cmp lists.now.entries.items) }
        requires searching { IsSearchingSome lists.now receipts.now count self.old }
        ensures searched { (program : Tree) (n : Name) (counts : CountsShape) (turns : ℕ) →
            let g = goal_of program lists.now n count in IsSought g counts receipts.now →
            IsSearching g lists.now self.old turns →
            IfOk result (λ b. IsSearched g lists.now b self.new (suc turns)) }
    {
        match turn_of(alloc, &self.population, lists, receipts, self.top)? {
            Turn::Steps => {
                self.population.step(alloc, self.top)?;
                Ok(self.go_back(count))
            }
            Turn::Wants(Some(number)) => {
                self.below.push(self.top)?;
                self.top = number;
                Ok(false)
            }
            Turn::Wants(None) => unreachable!(),
        }
    }

    /// One who is needed takes a step, or whom it needs goes on top. Whether what is sought is there.
    fn turn(
        &mut self,
        alloc: Global,
        lists: &Lists,
        receipts: &Receipts,
        count: u64,
    ) -> Result<bool, AllocError>
        requires ascending { T (is_sorted name_cmp lists.now.entries.items) }
        requires searching { IsSearchingSome lists.now receipts.now count self.old }
        ensures searched { (program : Tree) (n : Name) (counts : CountsShape) (turns : ℕ) →
            let g = goal_of program lists.now n count in IsSought g counts receipts.now →
            IsSearching g lists.now self.old turns →
            IfOk result (λ b. IsSearched g lists.now b self.new (suc turns)) }
    {
        let taken = self.population.run(alloc, self.top, 1, u64::MAX)?;
        if taken > 0 {
            return Ok(self.go_back(count));
        }
        self.look(alloc, lists, receipts, count)
    }

    /// Goes on until what is sought is there, which takes at most so many turns.
    fn run(
        &mut self,
        alloc: Global,
        lists: &Lists,
        receipts: &Receipts,
        count: u64,
        turns: u64,
    ) -> Result<(), AllocError>
        requires ascending { T (is_sorted name_cmp lists.now.entries.items) }
        requires searching { IsBegunSome lists.now receipts.now count turns self.old }
        ensures found { (program : Tree) (n : Name) (counts : CountsShape) →
            let g = goal_of program lists.now n count in IsSought g counts receipts.now →
            IsSearching g lists.now self.old 0 →
            OnOk result (IsFound g self.new.population) }
    {
        let mut left = turns;
        while left > 0 {
            if self.turn(alloc, lists, receipts, count)? {
                return Ok(());
            }
            left -= 1;
        }
        unreachable!()
    }
}

/// The sum of the counts.
fn total_of(counts: &[(ActivityName, u64)]) -> u64
    requires within { total counts.now ≤ MOST_REDUCTIONS }
    ensures { result ≡ total counts.now }
{
    let mut sum = 0;
    for count in counts {
        sum += count.1;
    }
    sum
}

/// The activities at the least point at which the one of this number has made so many reductions.
pub fn population_at(
    alloc: Global,
    population: Population,
    lists: &Lists,
    counts: &Counts,
    receipts: &Receipts,
    number: u32,
    count: u64,
) -> Result<Population, AllocError>
    requires ascending { T (is_sorted name_cmp lists.now.entries.items) }
    requires within { total (counts_shape counts.now) ≤ MOST_REDUCTIONS }
    requires begun { IsStartSome lists.now counts.now receipts.now number count population }
    ensures found { (program : Tree) (n : Name) → let g = goal_of program lists.now n count in
        IsSought g (counts_shape counts.now) receipts.now →
        IsStart program lists.now n number population → IfOk result (IsFound g) }
{
    if count == 0 {
        return Ok(population);
    }
    let mut search = Search {
        population,
        top: number,
        below: Vec::new(alloc),
    };
    let turns = 2 * total_of(&counts.entries);
    search.run(alloc, lists, receipts, count, turns)?;
    Ok(search.population)
}
