//! Labels that are called or served, and that no object of the program has.

use crate::around::name_at;
use crate::nearest::Nearest;
use crate::remark::{Remark, Severity};
use crate::sentences::named;
use crate::uses::{LabelUse, Role};
use std::alloc::{AllocError, Global};
use std::collections::BTreeSet;

/// So many warnings are told.
pub const MOST_WARNINGS: usize = 20;

/// What is told of a program that has no fault, and how many warnings there are.
#[derive(Drop)]
pub struct Warnings {
    pub remarks: Vec<Remark>,
    pub count: usize,
}

/// The warnings of a program with these labels, in text order.
pub fn warnings_of(alloc: Global, bytes: &[u8], uses: &[LabelUse]) -> Result<Warnings, AllocError> {
    let known = methods_in(alloc, bytes, uses)?;
    let mut warnings = Warnings {
        remarks: Vec::new(alloc),
        count: 0,
    };
    for place in uses {
        if is_asked(place.role) && !known.contains(name_at(bytes, place.at)) {
            add_warning(alloc, &mut warnings, bytes, uses, *place)?;
        }
    }
    Ok(warnings)
}

// The labels of all methods.
fn methods_in(
    alloc: Global,
    bytes: &[u8],
    uses: &[LabelUse],
) -> Result<BTreeSet<String>, AllocError> {
    let mut known = BTreeSet::new(alloc);
    for place in uses {
        if let Role::Method = place.role {
            known.insert(String::from_str(alloc, name_at(bytes, place.at))?)?;
        }
    }
    Ok(known)
}

// Whether a method of the label is asked for.
fn is_asked(role: Role) -> bool {
    match role {
        Role::Called | Role::Served | Role::Polled => true,
        Role::Field | Role::Method | Role::Parameter => false,
    }
}

// Counts one more, and tells it if few were told.
fn add_warning(
    alloc: Global,
    warnings: &mut Warnings,
    bytes: &[u8],
    uses: &[LabelUse],
    place: LabelUse,
) -> Result<(), AllocError> {
    if warnings.count < MOST_WARNINGS {
        let sentence = unknown(alloc, bytes, uses, name_at(bytes, place.at))?;
        warnings.remarks.push(Remark {
            at: place.at,
            severity: Severity::Warning,
            sentence,
            cure: consequence(place.role),
        })?;
    }
    warnings.count = warnings.count.saturating_add(1);
    Ok(())
}

// That no object has a method with this label.
fn unknown(
    alloc: Global,
    bytes: &[u8],
    uses: &[LabelUse],
    label: &str,
) -> Result<String, AllocError> {
    match nearest_method(bytes, uses, label) {
        Some(meant) => {
            format!(in alloc; "no object has a method `{label}`: is `{meant}` meant?")
        }
        None => named(alloc, "no object has a method ", label, "`"),
    }
}

fn nearest_method<'a>(bytes: &'a [u8], uses: &[LabelUse], label: &str) -> Option<&'a str> {
    let mut nearest = Nearest::to(label);
    for known in uses {
        if let Role::Method = known.role {
            nearest.offer(name_at(bytes, known.at));
        }
    }
    nearest.found()
}

// What comes of it.
fn consequence(role: Role) -> Option<&'static str> {
    match role {
        Role::Called => Some(
            "on an object the call is a fault; a request waits, and is never served",
        ),
        Role::Served => Some("if such a request comes, its service is a fault"),
        _ => None,
    }
}
