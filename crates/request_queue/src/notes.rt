//! The numbers of the pending requests, by their labels.

ghost use Rattle.std.specs.Prelude.{
  ◌≡◌,
  ℕ,
  IsTrue,
  None,
  OnErr,
  OnOk,
  [],
  false,
  map,
  true,
};
ghost use Rattle.std.specs.BTreeMap.{get};
ghost use Rattle.asp_model.specs.declared.word.Label.{Label};
ghost use Rattle.serve_rules.specs.Labels.{class_labels, label_text};
ghost use Rattle.serve_rules.specs.Wanted.{wanted_labels};
ghost use Rattle.request_queue.specs.Notes.{
  AreAlike,
  Changes,
  IsAbove,
  IsOldest,
  IsOldestWith,
  earlier as earlier_of,
  is_noted,
  label_order,
  numbers_in,
};

use crate::numbers::Numbers;
use asp_model::Label;
use code_table::Class;
use serve_rules::Wanted;
use std::alloc::{AllocError, Global};
use std::collections::BTreeMap;

/// For each label that is pending the numbers of its requests.
#[derive(Drop)]
pub struct Notes {
    alloc: Global,
    numbers: BTreeMap<Label, Numbers>,
}

impl Notes {
    pub fn new(alloc: Global) -> Notes
        ensures none { (l : Label) (k : ℕ) → is_noted result l k ≡ false }
    {
        Notes {
            alloc,
            numbers: BTreeMap::new(alloc),
        }
    }

    /// Notes a number under a label. It is above all that are noted.
    pub fn note(&mut self, label: &Label, number: u64) -> Result<(), AllocError>
        requires above { IsAbove number self.old }
        ensures noted { OnOk result (Changes label.now number true self.old self.new) }
        ensures err { OnErr result (AreAlike self.old self.new) }
    {
        match self.numbers.get_mut(label) {
            Some(numbers) => numbers.push(number),
            None => self.note_new(label, number),
        }
    }

    fn note_new(&mut self, label: &Label, number: u64) -> Result<(), AllocError>
        requires new { get label_order self.old.numbers label.now ≡ None }
        ensures noted { OnOk result (Changes label.now number true self.old self.new) }
        ensures err { OnErr result (AreAlike self.old self.new) }
    {
        let label = label.copy(self.alloc)?;
        let mut numbers = Numbers::new(self.alloc);
        numbers.push(number)?;
        self.numbers.insert(label, numbers)?;
        Ok(())
    }

    /// Forgets a number of a label, and the label with its last number.
    pub fn forget(&mut self, label: &Label, number: u64)
        ensures forgotten { Changes label.now number false self.old self.new }
    {
        if self.is_last(label, number) {
            self.numbers.remove(label);
        }
    }

    // Forgets a number of a label, and answers whether it was the last one.
    fn is_last(&mut self, label: &Label, number: u64) -> bool
        ensures forgotten { Changes label.now number false self.old self.new }
        ensures none { IsTrue result → numbers_in self.new label.now ≡ [] }
    {
        match self.numbers.get_mut(label) {
            Some(numbers) => {
                numbers.forget(number);
                numbers.is_empty()
            }
            None => false,
        }
    }

    /// The least number that one of the labels has.
    pub fn oldest(&self, wanted: Wanted) -> Option<u64>
        ensures oldest { IsOldest (wanted_labels wanted.entry) self.now result }
    {
        match wanted {
            Wanted::Labels(labels) => self.oldest_of(labels),
            Wanted::Methods(class) => self.oldest_method(class),
        }
    }

    /// The least number that one of these labels has. Each is looked up.
    fn oldest_of(&self, labels: &[Label]) -> Option<u64>
        ensures oldest { IsOldest (map label_text labels.now) self.now result }
    {
        let mut best = None;
        for label in labels {
            best = earlier(best, self.oldest_with(label));
        }
        best
    }

    /// The least number that a method's label has. As many labels are looked up as the class has, or as
    /// are pending, whichever are fewer.
    fn oldest_method(&self, class: &Class) -> Option<u64>
        ensures oldest { IsOldest (class_labels class.now) self.now result }
    {
        if class.methods.len() < self.numbers.len() {
            self.method_asked(class)
        } else {
            self.method_pending(class)
        }
    }

    fn method_asked(&self, class: &Class) -> Option<u64>
        ensures oldest { IsOldest (class_labels class.now) self.now result }
    {
        let mut best = None;
        for method in &class.methods {
            best = earlier(best, self.oldest_with(&method.label));
        }
        best
    }

    fn method_pending(&self, class: &Class) -> Option<u64>
        ensures oldest { IsOldest (class_labels class.now) self.now result }
    {
        let mut best = None;
        for label in self.numbers.keys() {
            if Wanted::Methods(class).has(label) {
                best = earlier(best, self.oldest_with(label));
            }
        }
        best
    }

    fn oldest_with(&self, label: &Label) -> Option<u64>
        ensures oldest { IsOldestWith self.now label.now result }
    {
        match self.numbers.get(label) {
            Some(numbers) => numbers.first(),
            None => None,
        }
    }
}

// The lesser of two numbers, where there are both.
fn earlier(best: Option<u64>, other: Option<u64>) -> Option<u64>
    ensures { result ≡ earlier_of best other }
{
    match (best, other) {
        (Some(one), Some(two)) => Some(if two < one { two } else { one }),
        (None, other) => other,
        (best, None) => best,
    }
}
