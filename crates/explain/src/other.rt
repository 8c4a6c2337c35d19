//! What a program has at the place of a fault, and the other place of the fault.

use crate::around::{name_at, short_name_at};
use crate::uses::{LabelUse, Role};
use asp_check::{CheckFault, CheckKind};

/// What a program has at the place of a fault.
#[derive(Clone, Copy)]
pub struct Seen {
    /// How many parameters or arguments the label has there.
    pub count: usize,
    /// Whether some object has a field of the name there.
    pub is_field: bool,
    /// The place that the label or name is at odds with, which stands before it.
    pub other: Option<LabelUse>,
}

/// What the program with these labels has there.
pub fn seen_in(bytes: &[u8], uses: &[LabelUse], fault: CheckFault) -> Seen {
    let is_field = has_field(bytes, uses, short_name_at(bytes, fault.at));
    match faulty(uses, fault) {
        Some(here) => Seen {
            count: here.count,
            is_field,
            other: other_place(bytes, uses, fault.kind, here),
        },
        None => Seen {
            count: 0,
            is_field,
            other: None,
        },
    }
}

// Whether some object has a field of this name.
fn has_field(bytes: &[u8], uses: &[LabelUse], name: &str) -> bool {
    for found in uses {
        if matches!(found.role, Role::Field) && name_at(bytes, found.at) == name {
            return true;
        }
    }
    false
}

// The label or name at the place of a fault.
fn faulty(uses: &[LabelUse], fault: CheckFault) -> Option<LabelUse> {
    for found in uses {
        if found.at == fault.at && is_of(fault.kind, found.role) {
            return Some(*found);
        }
    }
    None
}

// The first place that the label or name here is at odds with.
fn other_place(
    bytes: &[u8],
    uses: &[LabelUse],
    kind: CheckKind,
    here: LabelUse,
) -> Option<LabelUse> {
    let name = name_at(bytes, here.at);
    for other in uses {
        if is_at_odds(kind, here, *other) && name_at(bytes, other.at) == name {
            return Some(*other);
        }
    }
    None
}

// Whether a fault of this kind stands at a label or name in this role.
fn is_of(kind: CheckKind, role: Role) -> bool {
    match kind {
        CheckKind::Unbound => false,
        CheckKind::DoubleLabel => matches!(role, Role::Field | Role::Method),
        CheckKind::DoubleParameter => matches!(role, Role::Parameter),
        CheckKind::TooManyParameters | CheckKind::Arity | CheckKind::ServiceArity => {
            matches!(role, Role::Method | Role::Called)
        }
    }
}

// Whether the other one is why there is a fault here, if it has the same name.
fn is_at_odds(kind: CheckKind, here: LabelUse, other: LabelUse) -> bool {
    if !is_of(kind, other.role) || other.at == here.at {
        return false;
    }
    match kind {
        CheckKind::DoubleLabel | CheckKind::DoubleParameter => other.owner == here.owner,
        CheckKind::Arity | CheckKind::ServiceArity => true,
        CheckKind::Unbound | CheckKind::TooManyParameters => false,
    }
}
