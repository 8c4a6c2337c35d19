//! Classes of labels, as they are found: labels that one `serve` asks for are in one class.

ghost use Rattle.std.specs.Prelude.{◌≡◌};
ghost use Rattle.asp_model.specs.Names.{same_text};
ghost use Rattle.replay_classes.specs.Classes.{class_in};

use asp_model::{Label, ServiceEntry, Services};
use std::alloc::{AllocError, Global};

/// A label and the number of its class, from 1.
#[derive(Drop)]
pub struct ClassRow {
    pub label: Label,
    pub class: u32,
}

/// The labels that were met, with their classes. The others are in a class 0.
#[derive(Drop)]
pub struct Classes {
    pub rows: Vec<ClassRow>,
    pub last: u32,
}

fn is_of_label(row: &ClassRow, label: &Label) -> bool
    ensures of { result ≡ same_text label.now.text row.now.label.text }
{
    *label == row.label
}

impl Classes {
    /// No label was met.
    pub fn new(alloc: Global) -> Classes {
        Classes {
            rows: Vec::new(alloc),
            last: 0,
        }
    }

    /// The class of a label.
    pub fn class_of(&self, label: &Label) -> u32
        ensures class { result ≡ class_in self.now label.now.text }
    {
        for row in &self.rows {
            if is_of_label(row, label) {
                return row.class;
            }
        }
        0
    }

    // Each of the labels that came was met.
    fn know_entry(&self, entry: &ServiceEntry) -> bool {
        for arrival in &entry.arrivals.items {
            if self.class_of(&arrival.label) == 0 {
                return false;
            }
        }
        true
    }

    /// Whether each label that came was met.
    pub fn know(&self, services: &Services) -> bool {
        for entry in &services.entries {
            if !self.know_entry(entry) {
                return false;
            }
        }
        true
    }

    // A label that was not met has a class of its own.
    fn enter(&mut self, alloc: Global, label: &Label) -> Result<(), AllocError> {
        if self.class_of(label) == 0 {
            self.last = self.last.saturating_add(1);
            self.rows.push(ClassRow {
                label: label.copy(alloc)?,
                class: self.last,
            })?;
        }
        Ok(())
    }

    // The labels of one class are in another one.
    fn rename(&mut self, class: u32, other: u32) {
        for place in 0..self.rows.len() {
            if self.rows[place].class == class {
                self.rows[place].class = other;
            }
        }
    }

    // These labels are in one class.
    fn join(&mut self, alloc: Global, labels: &[Label]) -> Result<(), AllocError> {
        let Some(first) = labels.first() else {
            return Ok(());
        };
        for label in labels {
            self.enter(alloc, label)?;
            let class = self.class_of(label);
            let other = self.class_of(first);
            self.rename(class, other);
        }
        Ok(())
    }

    fn learn_labels(&mut self, alloc: Global, entry: &ServiceEntry) -> Result<(), AllocError> {
        for arrival in &entry.arrivals.items {
            self.enter(alloc, &arrival.label)?;
        }
        Ok(())
    }

    fn learn_sets(&mut self, alloc: Global, entry: &ServiceEntry) -> Result<(), AllocError> {
        for set in &entry.sets.items {
            self.join(alloc, &set.items)?;
        }
        Ok(())
    }

    /// All labels of a run have classes, and those that were asked for together have one.
    pub fn learn(&mut self, alloc: Global, services: &Services) -> Result<(), AllocError> {
        for entry in &services.entries {
            self.learn_labels(alloc, entry)?;
            self.learn_sets(alloc, entry)?;
        }
        Ok(())
    }
}
