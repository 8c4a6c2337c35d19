//! What the lines say: texts that only grow.

ghost use Rattle.std.specs.Prelude.{◌≡◌, ◌++◌, ◌∷◌, [], IfOk, OnOk, codes, map, string_bytes};
ghost use Rattle.std.specs.Fmt.{decimal};
ghost use Rattle.future_table.specs.Values.{values_of};
ghost use Rattle.def_paths.specs.StateLines.{state_line, what_text};
ghost use Rattle.code_table.specs.Tables.{text_of};
ghost use Rattle.state_lines.specs.Sights.{seen_shape};
ghost use Rattle.state_lines.specs.Texts.{
  AddsText,
  labels_text,
  method_labels,
  shown_by,
  text_of_class,
  text_of_object,
};

use crate::names::{push_future, push_name};
use crate::seen::Seen;
use asp_model::{Label, Word};
use code_table::{Class, Code, MethodCode, Object};
use future_table::FutureTable;
use run_ends::awaited;
use std::alloc::{AllocError, Global};

/// The line of a place, with what is seen there.
pub fn line(
    alloc: Global,
    futures: &FutureTable,
    path: &Word,
    seen: Seen,
) -> Result<Word, AllocError>
    ensures line { let what = what_text (shown_by (values_of futures.now) (seen_shape seen.entry)) in
        IfOk result (λ w. w ≡ state_line path.now what) }
{
    let mut text = begun(alloc, path)?;
    push_what(&mut text, futures, seen)?;
    Ok(Word::new(text))
}

/// The line of a place that was shown already, by this path.
pub fn same_line(alloc: Global, path: &Word, first: &Word) -> Result<Word, AllocError>
    ensures line { IfOk result (λ w. w ≡ state_line path.now (codes "same " ++ first.now)) }
{
    let mut text = begun(alloc, path)?;
    text.push_str("same ")?;
    text.push_str(first.as_str())?;
    Ok(Word::new(text))
}

/// The path of a field.
pub fn field_path(alloc: Global, path: &Word, label: &Label) -> Result<Word, AllocError>
    ensures path { IfOk result (λ w. w ≡ path.now ++ codes "." ++ label.now.text) }
{
    let mut text = String::from_str(alloc, path.as_str())?;
    text.push_str(".")?;
    text.push_str(label.text.as_str())?;
    Ok(Word::new(text))
}

/// The path of a member.
pub fn member_path(alloc: Global, path: &Word, number: usize) -> Result<Word, AllocError>
    ensures path { IfOk result (λ w. w ≡ path.now ++ codes "." ++ decimal number) }
{
    let mut text = String::from_str(alloc, path.as_str())?;
    write!(text, ".{number}")?;
    Ok(Word::new(text))
}

fn begun(alloc: Global, path: &Word) -> Result<String, AllocError>
    ensures { IfOk result (λ s. string_bytes s ≡ codes ". " ++ path.now ++ codes " ") }
{
    let mut text = String::from_str(alloc, ". ")?;
    text.push_str(path.as_str())?;
    text.push_str(" ")?;
    Ok(text)
}

fn push_what(text: &mut String, futures: &FutureTable, seen: Seen) -> Result<(), AllocError>
    ensures { let what = what_text (shown_by (values_of futures.now) (seen_shape seen.entry)) in
        OnOk result (AddsText text.old text.new what) }
{
    match seen {
        Seen::Number(number) => write!(text, "number {number}"),
        Seen::Object(object, code) => push_object(text, code, object),
        Seen::Reference(name) => {
            text.push_str("ref ")?;
            push_name(text, name)
        }
        Seen::Future(future) => {
            text.push_str("future ")?;
            push_future(text, awaited(futures, future))
        }
        Seen::Group(members) => {
            let count = members.len();
            write!(text, "group {count}")
        }
    }
}

// By the labels of the fields and of the methods.
fn push_object(text: &mut String, code: &Code, object: Object) -> Result<(), AllocError>
    ensures { OnOk result (AddsText text.old text.new (text_of_object code.now object.entry)) }
{
    match code.class(object.class) {
        Some(class) => push_class(text, class, object.places.len()),
        None => text.push_str("object ;"),
    }
}

fn push_class(text: &mut String, class: &Class, places: usize) -> Result<(), AllocError>
    ensures { OnOk result (AddsText text.old text.new (text_of_class class.now places)) }
{
    let count = class.fields.len().min(places);
    text.push_str("object")?;
    push_labels(text, &class.fields[..count])?;
    text.push_str(" ;")?;
    push_methods(text, &class.methods)
}

fn push_labels(text: &mut String, labels: &[Label]) -> Result<(), AllocError>
    ensures { OnOk result (AddsText text.old text.new (labels_text (map text_of labels.now))) }
{
    for label in labels {
        push_label(text, label)?;
    }
    Ok(())
}

fn push_methods(text: &mut String, methods: &[MethodCode]) -> Result<(), AllocError>
    ensures { OnOk result (AddsText text.old text.new (labels_text (method_labels methods.now))) }
{
    for method in methods {
        push_label(text, &method.label)?;
    }
    Ok(())
}

fn push_label(text: &mut String, label: &Label) -> Result<(), AllocError>
    ensures { OnOk result (AddsText text.old text.new (codes " " ++ label.now.text)) }
{
    text.push_str(" ")?;
    text.push_str(label.text.as_str())
}
