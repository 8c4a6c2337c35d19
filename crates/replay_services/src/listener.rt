//! What is kept of a replay that is listened to.

ghost use Rattle.std.specs.Prelude.{◌≡◌, ◌∷◌, ◌++◌, ◌-◌, [], List, IfNone, IfOk, IfSome, IsSome, IsTrue, None, OnOk, get_or, length};
ghost use Rattle.indexmap.specs.IndexMap.{get, keys};
ghost use Rattle.std.specs.List.Sorted.{IsSorted};
ghost use Rattle.asp_model.specs.Names.{Name, name_cmp, same_name};
ghost use Rattle.asp_model.specs.Shapes.{services_shape};
ghost use Rattle.law_services.specs.Told.{NamesAscend, entry_at};
ghost use Rattle.replay_parts.specs.Notes.{NoteShape};
ghost use Rattle.serve_rules.specs.Wanted.{wanted_labels};
ghost use Rattle.replay_services.specs.Listeners.{ChangesAt, IsKeptAt, IsWithSet, arrived, entry_of, kept_at, kept_in, nothing, with_arrival, with_poll};

use crate::heard::Heard;
use asp_model::{ActivityName, Arrival, Label, Lists, Services};
use indexmap::IndexMap;
use replay_one::{Event, Note, Notes};
use serve_rules::Wanted;
use std::alloc::{AllocError, Global};

/// What is kept of each activity, in the order in which they were met.
#[derive(Drop)]
pub struct Listener {
    alloc: Global,
    pub heard: IndexMap<ActivityName, Heard>,
    // How far the place that was asked for last is ahead of the last number of its name. Those that
    // one activity created mostly stand in their order, and an activity mostly sends to those that
    // were created with it.
    ahead: usize,
}

/// In the order of the names, as they mostly are.
fn in_order(
    heard: IndexMap<ActivityName, Heard>,
) -> Result<IndexMap<ActivityName, Heard>, AllocError>
    ensures sorted { IfOk result (λ m. IsSorted name_cmp (keys m)) }
    ensures same { IfOk result (λ m. (n : Name) → get same_name m n ≡ get same_name heard n) }
{
    if heard.as_slice().is_sorted() {
        return Ok(heard);
    }
    let mut sorted = heard;
    sorted.sort_keys()?;
    Ok(sorted)
}

fn entries_of(alloc: Global, heard: IndexMap<ActivityName, Heard>) -> Result<Services, AllocError>
    requires sorted { IsSorted name_cmp (keys heard) }
    ensures ascending { IfOk result (λ s. NamesAscend (services_shape s)) }
    ensures kept { IfOk result (λ s. (n : Name) →
        entry_at (services_shape s) n ≡ entry_of n (kept_in heard n)) }
{
    let mut entries = Vec::with_capacity(alloc, heard.len())?;
    for (name, heard) in heard {
        entries.push(heard.into_entry(name))?;
    }
    Ok(Services { entries })
}

/// The last number of a name; 0 where it has none.
fn last_number(name: &ActivityName) -> usize
    ensures last { result ≡ get_or name.now (length name.now - 1) 0 }
{
    match name.path().last() {
        Some(number) => *number as usize,
        None => 0,
    }
}

impl Listener {
    /// Nothing was told. The activities of these logs come first, in their order.
    pub fn new(alloc: Global, lists: &Lists) -> Result<Listener, AllocError>
        ensures none { IfOk result (λ l. (n : Name) → kept_at l n ≡ nothing) }
    {
        let mut heard = IndexMap::with_capacity(alloc, lists.entries.len())?;
        for list in &lists.entries {
            heard.insert(list.0.copy(alloc)?, Heard::new(alloc))?;
        }
        Ok(Listener {
            alloc,
            heard,
            ahead: 0,
        })
    }

    /// What was kept, by the names of the activities.
    pub fn into_services(self, alloc: Global) -> Result<Services, AllocError>
        ensures ascending { IfOk result (λ s. NamesAscend (services_shape s)) }
        ensures kept { IfOk result (λ s. (n : Name) →
            entry_at (services_shape s) n ≡ entry_of n (kept_at self n)) }
    {
        entries_of(alloc, in_order(self.heard)?)
    }

    // Whether what is kept at a place is of this activity.
    fn is_at(&self, place: usize, name: &ActivityName) -> bool
        ensures { IsTrue result → IsKeptAt self.now name.now place }
    {
        match self.heard.get_index(place) {
            Some((key, _heard)) => *key == *name,
            None => false,
        }
    }

    // The place of what is kept of this activity, if there is one.
    fn place_of(&self, name: &ActivityName) -> Option<usize>
        ensures at { IfSome result (IsKeptAt self.now name.now) }
        ensures none { IfNone result (get same_name self.now.heard name.now ≡ None) }
    {
        match self.heard.get_full(name) {
            Some((place, _key, _value)) => Some(place),
            None => None,
        }
    }

    // Something may be kept of an activity that was not met before.
    fn meet(&mut self, name: &ActivityName) -> Result<(), AllocError>
        requires new { get same_name self.old.heard name.now ≡ None }
        ensures met { OnOk result (IsSome (get same_name self.new.heard name.now)) }
        ensures same { OnOk result ((n : Name) → kept_at self.new n ≡ kept_at self.old n) }
    {
        let name = name.copy(self.alloc)?;
        self.heard.insert(name, Heard::new(self.alloc))?;
        Ok(())
    }

    // The place of what is kept of this activity, by the hash of its name.
    fn find(&mut self, name: &ActivityName) -> Result<usize, AllocError>
        ensures at { IfOk result (IsKeptAt self.new name.now) }
        ensures same { OnOk result ((n : Name) → kept_at self.new n ≡ kept_at self.old n) }
    {
        if let Some(place) = self.place_of(name) {
            return Ok(place);
        }
        self.meet(name)?;
        match self.place_of(name) {
            Some(place) => Ok(place),
            None => unreachable!(),
        }
    }

    // The place of what is kept of this activity.
    fn know(&mut self, name: &ActivityName) -> Result<usize, AllocError>
        ensures at { IfOk result (IsKeptAt self.new name.now) }
        ensures same { OnOk result ((n : Name) → kept_at self.new n ≡ kept_at self.old n) }
    {
        let number = last_number(name);
        let place = number.wrapping_add(self.ahead);
        if self.is_at(place, name) {
            return Ok(place);
        }
        let place = self.find(name)?;
        self.ahead = place.wrapping_sub(number);
        Ok(place)
    }

    fn add_arrival(
        &mut self,
        to: &ActivityName,
        by: &ActivityName,
        label: &Label,
    ) -> Result<(), AllocError>
        ensures { let more = with_arrival (arrived by.now label.now.text) in
            OnOk result (ChangesAt to.now (λ h g. g ≡ more h) self.old self.new) }
    {
        let arrival = Arrival {
            sender: by.copy(self.alloc)?,
            label: label.copy(self.alloc)?,
        };
        let place = self.know(to)?;
        match self.heard.get_index_mut(place) {
            Some(heard) => heard.add_arrival(arrival),
            None => unreachable!(),
        }
    }

    fn add_poll(&mut self, by: &ActivityName) -> Result<(), AllocError>
        ensures { OnOk result (ChangesAt by.now (λ h g. g ≡ with_poll h) self.old self.new) }
    {
        let place = self.know(by)?;
        match self.heard.get_index_mut(place) {
            Some(heard) => {
                heard.add_poll();
                Ok(())
            }
            None => unreachable!(),
        }
    }

    fn add_set(&mut self, by: &ActivityName, wanted: Wanted) -> Result<(), AllocError>
        ensures { let ls = wanted_labels wanted.entry in
            OnOk result (ChangesAt by.now (IsWithSet ls) self.old self.new) }
    {
        let place = self.know(by)?;
        match self.heard.get_index_mut(place) {
            Some(heard) => heard.add_set(self.alloc, wanted),
            None => unreachable!(),
        }
    }
}

impl Notes for Listener {
    ghost use Rattle.replay_services.specs.Listeners.{IsHeard, kept_at};
    ghost use Rattle.asp_model.specs.Names.{Name};

    ghost tells = { λ l xs. (n : Name) → IsHeard n xs (kept_at l n) };

    fn listens(&self) -> bool {
        true
    }

    fn hears_lines(&self) -> bool {
        false
    }

    fn hears_places(&self) -> bool {
        false
    }

    fn note(&mut self, note: Note) -> Result<(), AllocError> {
        match note.event {
            Event::Sent(to, label, _) => self.add_arrival(to, note.by, label),
            Event::Served(wanted) => self.add_set(note.by, wanted),
            Event::Standing(wanted) => self.add_set(note.by, wanted),
            Event::Polled => self.add_poll(note.by),
            Event::Made(_) => Ok(()),
            Event::Answered(_) => Ok(()),
            Event::Printed(_) => Ok(()),
            Event::Faulted(_) => Ok(()),
        }
    }
}
