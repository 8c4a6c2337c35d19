//! The labels of an object, and the names in the heads of its methods.

ghost use Rattle.std.specs.Prelude.{◌≡◌, OnOk, ◌∷◌, ◌++◌, [], map, not};
ghost use Rattle.std.specs.List.{list_all};
ghost use Rattle.asp_check.specs.NameFaults.{no_names, with_name, with_names};
ghost use Rattle.asp_check.specs.Sets.{names_in};
ghost use Rattle.law_programs.specs.Proper.{names_bound};
ghost use Rattle.code_table.specs.Parts.{field_label, method_head};
ghost use Rattle.proper_terms.specs.Tests.{Tests};
ghost use Rattle.proper_terms.specs.Fits.{are_new, head_is_single, is_single, method_label, place_label};

use crate::names::{add_name, empty_names};
use crate::refusal::Refusal;
use asp_model::{Label, Method, Place, Term, Word};
use std::alloc::Global;
use std::collections::BTreeSet;

fn note_name<'a>(names: &mut BTreeSet<&'a str>, name: &'a Word) -> Result<(), Refusal>
    ensures names { let grown = with_name name.entry.now (names_in names.old) in
        OnOk result (names_in names.new ≡ grown) }
    ensures is_new { Tests (not (names_in names.old name.entry.now)) result }
{
    if add_name(names, name.as_str())? {
        Ok(())
    } else {
        Err(Refusal::Unsound)
    }
}

fn note_words<'a>(names: &mut BTreeSet<&'a str>, words: &'a [Word]) -> Result<(), Refusal>
    ensures are_new { Tests (are_new (names_in names.old) words.entry.now) result }
{
    for word in words {
        note_name(names, word)?;
    }
    Ok(())
}

// No name stands twice in a method's head.
fn check_head(alloc: Global, method: &Method) -> Result<(), Refusal>
    ensures single { Tests (head_is_single (method_head method.now)) result }
{
    let mut names = empty_names(alloc);
    note_name(&mut names, &method.slf)?;
    note_words(&mut names, &method.parameters)
}

/// No name stands twice in a head of these methods.
pub fn check_heads(alloc: Global, methods: &[Method]) -> Result<(), Refusal>
    ensures single { Tests (list_all head_is_single (map method_head methods.now)) result }
{
    for method in methods {
        check_head(alloc, method)?;
    }
    Ok(())
}

/// Notes the labels of fields with terms.
pub fn note_fields<'a>(
    labels: &mut BTreeSet<&'a str>,
    fields: &'a [(Label, Term)],
) -> Result<(), Refusal>
    ensures labels { let noted = map field_label fields.entry.now in
        OnOk result (names_in labels.new ≡ with_names noted (names_in labels.old)) }
    ensures are_new { let noted = map field_label fields.entry.now in
        Tests (are_new (names_in labels.old) noted) result }
{
    for (label, _) in fields {
        note_name(labels, &label.text)?;
    }
    Ok(())
}

/// Notes the labels of fields with places.
pub fn note_places<'a>(
    labels: &mut BTreeSet<&'a str>,
    fields: &'a [(Label, Place)],
) -> Result<(), Refusal>
    ensures labels { let noted = map place_label fields.entry.now in
        OnOk result (names_in labels.new ≡ with_names noted (names_in labels.old)) }
    ensures are_new { let noted = map place_label fields.entry.now in
        Tests (are_new (names_in labels.old) noted) result }
{
    for (label, _) in fields {
        note_name(labels, &label.text)?;
    }
    Ok(())
}

/// Notes the labels of methods.
pub fn note_methods<'a>(
    labels: &mut BTreeSet<&'a str>,
    methods: &'a [Method],
) -> Result<(), Refusal>
    ensures are_new { let noted = map method_label methods.entry.now in
        Tests (are_new (names_in labels.old) noted) result }
{
    for method in methods {
        note_name(labels, &method.label.text)?;
    }
    Ok(())
}

/// No label of an object stands twice, and no name in a head of its methods.
#[tactic(auto, using(crate::proofs::HeadLemmas::head_laws))]
pub fn check_node(
    alloc: Global,
    fields: &[(Label, Term)],
    methods: &[Method],
) -> Result<(), Refusal>
    ensures single { let labels = map field_label fields.now in
        Tests (is_single labels (map method_head methods.now)) result }
{
    let mut labels = empty_names(alloc);
    note_fields(&mut labels, fields)?;
    note_methods(&mut labels, methods)?;
    check_heads(alloc, methods)
}

/// So of an object in a store.
#[tactic(auto, using(crate::proofs::HeadLemmas::head_laws))]
pub fn check_stored(
    alloc: Global,
    fields: &[(Label, Place)],
    methods: &[Method],
) -> Result<(), Refusal>
    ensures single { let labels = map place_label fields.now in
        Tests (is_single labels (map method_head methods.now)) result }
{
    let mut labels = empty_names(alloc);
    note_places(&mut labels, fields)?;
    note_methods(&mut labels, methods)?;
    check_heads(alloc, methods)
}
