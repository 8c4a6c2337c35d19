//! The arities of labels.

ghost use Rattle.std.specs.Prelude.{◌≡◌, OnOk, IfOk, ◌∷◌, [], ◌++◌, map, None, List, ℕ};
ghost use Rattle.asp_check.specs.Least.{least_of};
ghost use Rattle.asp_check.specs.ArityFaults.{LabelArity, label_arity, first_arity, arity_faults, arity_faults_at};
ghost use Rattle.asp_check.specs.Sets.{arity_in, IsFirst, HasFirst};
ghost use Rattle.asp_check.specs.Walk.{arity_of};

use crate::fault::{CheckFault, CheckKind};
use crate::least::note;
use asp_model::MOST_PARAMETERS;
use std::alloc::{AllocError, Global};
use std::collections::BTreeMap;

/// A place where a label has an arity.
#[derive(Clone, Copy)]
pub struct ArityPlace<'a> {
    pub label: &'a str,
    pub arity: usize,
    pub at: usize,
    /// The fault where an earlier place fixed another arity.
    pub kind: CheckKind,
}

/// The arity of each label, by the first of its places.
pub fn first_arities<'a>(
    alloc: Global,
    places: &[ArityPlace<'a>],
) -> Result<BTreeMap<&'a str, usize>, AllocError>
    ensures { IfOk result (λ m. IsFirst m (map arity_of places.entry.now)) }
{
    let mut arities = BTreeMap::new(alloc);
    for place in places {
        add_first(&mut arities, *place)?;
    }
    Ok(arities)
}

/// Fixes the arity of the label, unless an earlier place did.
fn add_first<'a>(
    arities: &mut BTreeMap<&'a str, usize>,
    place: ArityPlace<'a>,
) -> Result<(), AllocError>
    ensures { OnOk result (HasFirst arities.old (arity_of place.entry) arities.new) }
{
    if known_arity(arities, place.label).is_none() {
        arities.insert(place.label, place.arity)?;
    }
    Ok(())
}

fn known_arity<'a>(arities: &BTreeMap<&'a str, usize>, label: &'a str) -> Option<usize>
    ensures { result ≡ arity_in arities.now label.now }
{
    arities.get(&label).copied()
}

/// Notes the faults of the places.
pub fn note_arities<'a>(
    least: &mut Option<CheckFault>,
    arities: &BTreeMap<&'a str, usize>,
    places: &[ArityPlace<'a>],
)
    requires { IsFirst arities.now (map arity_of places.now) }
    ensures { let text = map arity_of places.entry.now in
        least.new ≡ least_of least.old (arity_faults text text) }
{
    for place in places {
        note_arity(least, known_arity(arities, place.label), *place);
    }
}

fn note_arity(least: &mut Option<CheckFault>, first: Option<usize>, place: ArityPlace)
    ensures { least.new ≡ least_of least.old (arity_faults_at (arity_of place.entry) first) }
{
    let at = place.at;
    if place.arity > MOST_PARAMETERS {
        let kind = CheckKind::TooManyParameters;
        note(least, CheckFault { at, kind });
    }
    if first != Some(place.arity) {
        let kind = place.kind;
        note(least, CheckFault { at, kind });
    }
}
