//! What the services of an ended run tell: its logs by classes, and whether it is an end by them.

ghost use Rattle.std.specs.Prelude.{◌≡◌, ◌++◌, ℕ, false, List, IfOk, IsTrue, OnOk, map};
ghost use Rattle.std.specs.List.{Contains};
ghost use Rattle.asp_model.specs.Names.{Name, Text};
ghost use Rattle.asp_model.specs.Shapes.{labels_shape, service_entry_shape, services_shape};
ghost use Rattle.law_classes.specs.Alike.{AreOneClass};
ghost use Rattle.law_classes.specs.Requests.{arrival_logs};
ghost use Rattle.law_services.specs.Told.{NamesAscend, entry_at};
ghost use Rattle.serve_rules.specs.Labels.{label_text};
ghost use Rattle.replay_classes.specs.Classes.{class_in};
ghost use Rattle.replay_classes.specs.Sendings.{entry_logs, logs_from};

use crate::classes::Classes;
use asp_model::{Label, Labels, ServiceEntry, Services};
use class_search::Sending;
use std::alloc::{AllocError, Global};

/// Whether nobody polled.
pub fn nobody_polls(services: &Services) -> bool
    ensures polled { (n : Name) → IsTrue result →
        (entry_at (services_shape services.now) n).polled ≡ false }
{
    for entry in &services.entries {
        if entry.polled {
            return false;
        }
    }
    true
}

// The labels are of one class.
fn is_one_class(classes: &Classes, labels: &[Label]) -> bool
    ensures one { IsTrue result → AreOneClass (class_in classes.now) (map label_text labels.now) }
{
    let Some(first) = labels.first() else {
        return true;
    };
    let class = classes.class_of(first);
    for label in labels {
        if classes.class_of(label) != class {
            return false;
        }
    }
    true
}

// Each of the sets is of one class.
fn are_one_class(classes: &Classes, sets: &[Labels]) -> bool
    ensures one { (labels : List Text) → IsTrue result →
        Contains (map labels_shape sets.now) labels → AreOneClass (class_in classes.now) labels }
{
    for set in sets {
        if !is_one_class(classes, &set.items) {
            return false;
        }
    }
    true
}

/// Whether each service asked in one class.
pub fn ask_in_classes(classes: &Classes, services: &Services) -> bool
    ensures one { (n : Name) (labels : List Text) → IsTrue result →
        Contains (entry_at (services_shape services.now) n).sets labels →
        AreOneClass (class_in classes.now) labels }
{
    for entry in &services.entries {
        if !are_one_class(classes, &entry.sets.items) {
            return false;
        }
    }
    true
}

// What came to one activity.
fn add_arrivals(
    alloc: Global,
    classes: &Classes,
    sendings: &mut Vec<Sending>,
    entry: &ServiceEntry,
) -> Result<(), AllocError>
    ensures logs { (q : Name) (κ : ℕ) → let came = entry_logs (class_in classes.now)
        (service_entry_shape entry.now) q κ in
        OnOk result (logs_from sendings.new.items q κ
        ≡ logs_from sendings.old.items q κ ++ came) }
{
    for arrival in &entry.arrivals.items {
        sendings.push(Sending {
            by: arrival.sender.copy(alloc)?,
            to: entry.name.copy(alloc)?,
            class: classes.class_of(&arrival.label),
        })?;
    }
    Ok(())
}

/// What was sent in a run.
pub fn sendings_of(
    alloc: Global,
    classes: &Classes,
    services: &Services,
) -> Result<Vec<Sending>, AllocError>
    requires ascending { NamesAscend (services_shape services.now) }
    ensures logs { (q : Name) (κ : ℕ) → let logs = arrival_logs (class_in classes.now)
        (services_shape services.now) q κ in
        IfOk result (λ v. logs_from v.items q κ ≡ logs) }
{
    let mut sendings = Vec::new(alloc);
    for entry in &services.entries {
        add_arrivals(alloc, classes, &mut sendings, entry)?;
    }
    Ok(sendings)
}
