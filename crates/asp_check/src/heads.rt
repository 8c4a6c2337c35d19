//! The labels of an object, and the heads of its methods.

ghost use Rattle.std.specs.Prelude.{◌≡◌, OnOk, IfOk, [], ◌∷◌, map};
ghost use Rattle.asp_check.specs.Least.{least_of};
ghost use Rattle.asp_check.specs.Placed.{placed, place_or, later, behind};
ghost use Rattle.asp_check.specs.NameFaults.{no_names, with_name, with_names, repeats, method_faults, object_faults, fault_at, when};
ghost use Rattle.asp_check.specs.Sets.{names_in};
ghost use Rattle.asp_check.specs.Walk.{head_of, names_of, field_label, double_labels, double_parameters, left_by, faults_of_heads, faults_of_object};
ghost use Rattle.asp_check.specs.declared.fault.CheckKind.TheVariants as kind;

use crate::fault::{CheckFault, CheckKind};
use crate::least::note_repeat;
use crate::names::empty_names;
use crate::places::Places;
use asp_model::{Label, Mark, Method, Term, Word};
use std::alloc::{AllocError, Global};
use std::collections::BTreeSet;

/// Notes the labels and names of an object that stood earlier, and returns the methods' places.
#[tactic(auto, using(crate::proofs::Joined::least_of_joined))]
pub fn note_object<'a>(
    alloc: Global,
    least: &mut Option<CheckFault>,
    fields: &'a [(Label, Term)],
    methods: &'a [Method],
    mark: &'a Mark,
) -> Result<Places<'a>, AllocError>
    ensures least { OnOk result (least.new ≡ least_of least.old
        (faults_of_object fields.entry.now methods.entry.now mark.entry.now)) }
    ensures places { IfOk result
        (λ p. p.left.now ≡ behind (map field_label fields.entry.now) mark.entry.now.names.items) }
    ensures node { IfOk result (λ p. p.node ≡ mark.entry.now.at) }
{
    let mut places = Places::of(mark);
    let mut labels = empty_names(alloc);
    note_fields(least, &mut labels, fields, &mut places)?;
    note_methods(alloc, least, &mut labels, methods, places)?;
    Ok(places)
}

fn note_fields<'a>(
    least: &mut Option<CheckFault>,
    labels: &mut BTreeSet<&'a str>,
    fields: &'a [(Label, Term)],
    places: &mut Places<'a>,
) -> Result<(), AllocError>
    ensures least { let faults = double_labels (names_in labels.old) fields.entry.now places.old in
        OnOk result (least.new ≡ least_of least.old faults) }
    ensures labels { let here = map field_label fields.entry.now in
        OnOk result (names_in labels.new ≡ with_names here (names_in labels.old)) }
    ensures places { let left = left_by (map field_label fields.entry.now) places.old in
        OnOk result (places.new.left.now ≡ left) }
    ensures node { OnOk result (places.new.node ≡ places.old.node) }
{
    for (label, _) in fields {
        let at = places.next();
        let kind = CheckKind::DoubleLabel;
        note_repeat(least, labels, label.text.as_str(), CheckFault { at, kind })?;
    }
    Ok(())
}

#[tactic(auto, using(crate::proofs::Joined::least_of_joined))]
fn note_methods<'a>(
    alloc: Global,
    least: &mut Option<CheckFault>,
    labels: &mut BTreeSet<&'a str>,
    methods: &'a [Method],
    places: Places<'a>,
) -> Result<(), AllocError>
    ensures { let faults = faults_of_heads (names_in labels.old) methods.entry.now places.entry in
        OnOk result (least.new ≡ least_of least.old faults) }
{
    let mut places = places;
    for method in methods {
        let at = places.next();
        let kind = CheckKind::DoubleLabel;
        note_repeat(
            least,
            labels,
            method.label.text.as_str(),
            CheckFault { at, kind },
        )?;
        note_head(alloc, least, method, &mut places)?;
    }
    Ok(())
}

fn note_head<'a>(
    alloc: Global,
    least: &mut Option<CheckFault>,
    method: &'a Method,
    places: &mut Places<'a>,
) -> Result<(), AllocError>
    ensures least { OnOk result (least.new ≡ least_of least.old
        (double_parameters no_names (names_of method.entry.now) places.old)) }
    ensures places { let left = left_by (names_of method.entry.now) places.old in
        OnOk result (places.new.left.now ≡ left) }
    ensures node { OnOk result (places.new.node ≡ places.old.node) }
{
    let mut names = empty_names(alloc);
    let at = places.next();
    let kind = CheckKind::DoubleParameter;
    note_repeat(
        least,
        &mut names,
        method.slf.as_str(),
        CheckFault { at, kind },
    )?;
    note_parameters(least, &mut names, &method.parameters, places)
}

fn note_parameters<'a>(
    least: &mut Option<CheckFault>,
    names: &mut BTreeSet<&'a str>,
    parameters: &'a [Word],
    places: &mut Places<'a>,
) -> Result<(), AllocError>
    ensures least { OnOk result (least.new ≡ least_of least.old
        (double_parameters (names_in names.old) parameters.entry.now places.old)) }
    ensures places { OnOk result (places.new.left.now ≡ left_by parameters.entry.now places.old) }
    ensures node { OnOk result (places.new.node ≡ places.old.node) }
{
    for parameter in parameters {
        let at = places.next();
        let kind = CheckKind::DoubleParameter;
        note_repeat(least, names, parameter.as_str(), CheckFault { at, kind })?;
    }
    Ok(())
}
