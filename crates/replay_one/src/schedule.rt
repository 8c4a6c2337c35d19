//! Who may be able to step, and what the others wait for.

ghost use Rattle.std.specs.Prelude.{
  ◌≡◌,
  ◌<◌,
  ℕ,
  false,
  true,
  List,
  None,
  OnOk,
  Some,
  length,
};
ghost use Rattle.asp_model.specs.Names.{Name, Text};
ghost use Rattle.asp_model.specs.Shapes.{future_shape};
ghost use Rattle.asp_model.specs.Term.{has_text};
ghost use Rattle.def_journals.specs.Journals.{number_of};
ghost use Rattle.replay_parts.specs.Roster.{IsRoster};
ghost use Rattle.serve_rules.specs.Wanted.{wanted_labels};
ghost use Rattle.replay_parts.specs.Ready.{Ascend};
ghost use Rattle.replay_one.specs.Schedule.{
  HasPlace,
  IsFewerAfter,
  IsLeastIn,
  IsMoreReady,
  IsNoted,
  IsWatch,
  IsWatching,
  asks_at,
  asks_in,
  has_number,
  noted_in,
  ready_in,
  seen,
  sends_at,
  sends_in,
};

use asp_model::{FutureName, Label, Labels};
use replay_parts::{Least, Ready};
use replay_population::Roster;
use serve_rules::Wanted;
use std::alloc::{AllocError, Global};
use std::collections::BTreeMap;

/// What one who rests is noted to wait for, beside a future.
#[derive(Drop)]
pub enum Watch {
    Nothing,
    /// A request with one of these labels.
    Asks(Labels),
    /// Its turn in the log of the activity with this number.
    Holds(u32),
}

/// Who may be able to step. Of the others, by their numbers: those who wait for
/// each awaited future, the labels that each server asks for, and in whose log each is not next
/// that is held at a send or at a poll.
#[derive(Drop)]
pub struct Schedule {
    pub ready: Ready,
    awaiting: BTreeMap<FutureName, Vec<u32>>,
    watches: Vec<Watch>,
    /// Whom the last request was sent to. It is a guess at whom the next one goes to.
    pub target: u32,
}

impl Schedule {
    /// Nobody is ready. The names of so many numbers ascend.
    pub fn new(alloc: Global, ordered: u32) -> Schedule
        ensures ordered { result.ready.ordered ≡ ordered }
    {
        Schedule {
            ready: Ready::new(alloc, ordered),
            awaiting: BTreeMap::new(alloc),
            watches: Vec::new(alloc),
            target: 0,
        }
    }

    /// The least of those who are ready, who is so no more.
    pub fn take_least(&mut self, roster: &Roster) -> Least
        requires sound { IsRoster roster.now }
        requires ascending { Ascend self.old.ready.ordered roster.now }
        ensures taken { IsLeastIn roster.now self.old result self.new }
        ensures fewer { IsFewerAfter self.old result self.new }
        ensures ordered { self.new.ready.ordered ≡ self.old.ready.ordered }
    {
        self.ready.take_least(roster)
    }

    /// One is ready.
    pub fn wake(&mut self, alloc: Global, roster: &Roster, number: u32) -> Result<(), AllocError>
        requires known { number < length roster.now }
        ensures more { let ns = roster.now in
            OnOk result (IsMoreReady (seen ns self.old) None (seen ns self.new)) }
        ensures ready { (n : Name) → number_of n roster.now ≡ Some number →
            OnOk result (ready_in (seen roster.now self.new) n ≡ true) }
        ensures ordered { OnOk result (self.new.ready.ordered ≡ self.old.ready.ordered) }
    {
        self.ready.add(alloc, roster, number)
    }

    /// Who waits for a future is noted there.
    pub fn note(&mut self, alloc: Global, future: FutureName, number: u32) -> Result<(), AllocError>
        ensures noted { (ns : List Name) (n : Name) → number_of n ns ≡ Some number → OnOk result
            (IsNoted (seen ns self.old) (future_shape future) n (seen ns self.new)) }
        ensures ready { OnOk result (self.new.ready ≡ self.old.ready) }
    {
        let mut numbers = match self.awaiting.remove(&future) {
            Some(numbers) => numbers,
            None => Vec::new(alloc),
        };
        numbers.push(number)?;
        self.awaiting.insert(future, numbers)?;
        Ok(())
    }

    /// Makes room for what the one with this number waits for.
    fn reach(&mut self, number: u32) -> Result<(), AllocError>
        ensures reached { OnOk result (HasPlace self.old number self.new) }
    {
        let place = number as usize;
        while self.watches.len() <= place {
            self.watches.push(Watch::Nothing)?;
        }
        Ok(())
    }

    /// What one waits for is noted.
    fn watch(&mut self, number: u32, watch: Watch) -> Result<(), AllocError>
        ensures watch { OnOk result (IsWatch self.old number watch self.new) }
    {
        self.reach(number)?;
        self.watches[number as usize] = watch;
        Ok(())
    }

    /// A server is noted by the labels that it asks for.
    pub fn serve(&mut self, alloc: Global, number: u32, wanted: Wanted) -> Result<(), AllocError>
        ensures watching { (ns : List Name) (n : Name) → number_of n ns ≡ Some number →
            OnOk result (IsWatching (seen ns self.old) n (seen ns self.new)) }
        ensures asks { (ns : List Name) (n : Name) (l : Text) → number_of n ns ≡ Some number →
            OnOk result (asks_in (seen ns self.new) n l ≡ has_text l (wanted_labels wanted.entry)) }
        ensures ready { OnOk result (self.new.ready ≡ self.old.ready) }
    {
        let labels = wanted.copy(alloc)?;
        self.watch(number, Watch::Asks(labels))
    }

    /// Who is not next in a log is noted by whose log it is: that of whom it sends to, or its own
    /// where it polls.
    pub fn hold(&mut self, number: u32, to: u32) -> Result<(), AllocError>
        ensures watching { (ns : List Name) (n : Name) → number_of n ns ≡ Some number →
            OnOk result (IsWatching (seen ns self.old) n (seen ns self.new)) }
        ensures sends { (ns : List Name) (n m : Name) → number_of n ns ≡ Some number →
            number_of m ns ≡ Some to → OnOk result (sends_in (seen ns self.new) n m ≡ true) }
        ensures ready { OnOk result (self.new.ready ≡ self.old.ready) }
    {
        self.watch(number, Watch::Holds(to))
    }

    /// A server is sent a request with this label. It is ready, if it asks for one.
    pub fn wake_server(
        &mut self,
        alloc: Global,
        roster: &Roster,
        number: u32,
        label: &Label,
    ) -> Result<(), AllocError>
        requires known { number < length roster.now }
        ensures more { let ns = roster.now in
            OnOk result (IsMoreReady (seen ns self.old) None (seen ns self.new)) }
        ensures ready { (n : Name) → number_of n roster.now ≡ Some number →
            asks_in (seen roster.now self.old) n label.now.text ≡ true →
            OnOk result (ready_in (seen roster.now self.new) n ≡ true) }
        ensures ordered { OnOk result (self.new.ready.ordered ≡ self.old.ready.ordered) }
    {
        self.target = number;
        if !self.asks(number, label) {
            return Ok(());
        }
        self.watch(number, Watch::Nothing)?;
        self.wake(alloc, roster, number)
    }

    fn asks(&self, number: u32, label: &Label) -> bool
        ensures asks { result ≡ asks_at self.now.watches.items number label.now.text }
    {
        let Some(watch) = self.watches.get(number as usize) else {
            return false;
        };
        match watch {
            Watch::Asks(labels) => Wanted::Labels(&labels.items).has(label),
            Watch::Nothing | Watch::Holds(_) => false,
        }
    }

    /// One is ready, if it is held at the log of this activity.
    pub fn wake_sender(
        &mut self,
        alloc: Global,
        roster: &Roster,
        number: u32,
        to: u32,
    ) -> Result<(), AllocError>
        requires known { number < length roster.now }
        ensures more { let ns = roster.now in
            OnOk result (IsMoreReady (seen ns self.old) None (seen ns self.new)) }
        ensures ready { (n m : Name) → number_of n roster.now ≡ Some number →
            number_of m roster.now ≡ Some to →
            sends_in (seen roster.now self.old) n m ≡ true →
            OnOk result (ready_in (seen roster.now self.new) n ≡ true) }
        ensures ordered { OnOk result (self.new.ready.ordered ≡ self.old.ready.ordered) }
    {
        if !self.sends(number, to) {
            return Ok(());
        }
        self.watch(number, Watch::Nothing)?;
        self.wake(alloc, roster, number)
    }

    fn sends(&self, number: u32, to: u32) -> bool
        ensures sends { result ≡ sends_at self.now.watches.items number (Some to) }
    {
        let Some(watch) = self.watches.get(number as usize) else {
            return false;
        };
        match watch {
            Watch::Holds(target) => *target == to,
            Watch::Nothing | Watch::Asks(_) => false,
        }
    }

    /// All who wait for a future are ready.
    pub fn wake_noted(
        &mut self,
        alloc: Global,
        roster: &Roster,
        future: &FutureName,
    ) -> Result<(), AllocError>
        ensures more { let f = future_shape future.now in let ns = roster.now in
            OnOk result (IsMoreReady (seen ns self.old) (Some f) (seen ns self.new)) }
        ensures ready { (m : Name) → let ns = roster.now in
            noted_in (seen ns self.old) (future_shape future.now) m ≡ true →
            OnOk result (ready_in (seen ns self.new) m ≡ true) }
        ensures ordered { OnOk result (self.new.ready.ordered ≡ self.old.ready.ordered) }
    {
        match self.awaiting.remove(future) {
            None => Ok(()),
            Some(numbers) => self.wake_all(alloc, roster, numbers),
        }
    }

    fn wake_all(
        &mut self,
        alloc: Global,
        roster: &Roster,
        mut numbers: Vec<u32>,
    ) -> Result<(), AllocError>
        ensures more { let ns = roster.now in
            OnOk result (IsMoreReady (seen ns self.old) None (seen ns self.new)) }
        ensures ready { (m : Name) (k : ℕ) → number_of m roster.now ≡ Some k →
            has_number k numbers.items ≡ true →
            OnOk result (ready_in (seen roster.now self.new) m ≡ true) }
        ensures ordered { OnOk result (self.new.ready.ordered ≡ self.old.ready.ordered) }
    {
        while let Some(number) = numbers.pop() {
            if (number as usize) < roster.len() {
                self.wake(alloc, roster, number)?;
            }
        }
        Ok(())
    }
}
