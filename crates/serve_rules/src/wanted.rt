//! The labels that a `serve` asks for, where they stand in the code.

ghost use Rattle.std.specs.Prelude.{◌≡◌, IfOk, IsTrue, map};
ghost use Rattle.asp_model.specs.Shapes.{labels_shape};
ghost use Rattle.asp_model.specs.Term.{has_text};
ghost use Rattle.serve_rules.specs.Labels.{class_labels, has_some, label_text, method_text};
ghost use Rattle.serve_rules.specs.Wanted.{wanted_labels};

use asp_model::{Label, Labels};
use code_table::{Class, MethodCode};
use std::alloc::{AllocError, Global};

/// The labels that a `serve` asks for. No set of them is made.
#[derive(Clone, Copy)]
pub enum Wanted<'a> {
    /// These.
    Labels(&'a [Label]),
    /// Those of the methods of a class.
    Methods(&'a Class),
}

impl Wanted<'_> {
    /// Whether there are any.
    pub fn asks(self) -> bool
        ensures asks { result ≡ has_some (wanted_labels self.entry) }
    {
        match self {
            Wanted::Labels(labels) => !labels.is_empty(),
            Wanted::Methods(class) => !class.methods.is_empty(),
        }
    }

    /// Whether a label is among them.
    pub fn has(self, label: &Label) -> bool
        ensures member { result ≡ has_text label.now.text (wanted_labels self.entry) }
    {
        match self {
            Wanted::Labels(labels) => is_one_of(label, labels),
            Wanted::Methods(class) => is_method(label, class),
        }
    }

    /// Whether they are these, in this order.
    pub fn are(self, labels: &Labels) -> bool
        ensures same { IsTrue result → labels_shape labels.now ≡ wanted_labels self.entry }
    {
        match self {
            Wanted::Labels(wanted) => are_labels(wanted, &labels.items),
            Wanted::Methods(class) => are_methods(&class.methods, &labels.items),
        }
    }

    /// A copy of them, in their order.
    pub fn copy(self, alloc: Global) -> Result<Labels, AllocError>
        ensures labels { IfOk result (λ ls. labels_shape ls ≡ wanted_labels self.entry) }
    {
        match self {
            Wanted::Labels(labels) => copy_labels(alloc, labels),
            Wanted::Methods(class) => copy_methods(alloc, &class.methods),
        }
    }
}

// Whether a label is one of these.
fn is_one_of(label: &Label, labels: &[Label]) -> bool
    ensures member { result ≡ has_text label.now.text (map label_text labels.now) }
{
    for other in labels {
        if label.text == other.text {
            return true;
        }
    }
    false
}

// Whether a class has a method with this label.
fn is_method(label: &Label, class: &Class) -> bool
    ensures member { result ≡ has_text label.now.text (class_labels class.now) }
{
    class.method(label).is_some()
}

fn are_labels(wanted: &[Label], labels: &[Label]) -> bool
    ensures { IsTrue result → map label_text labels.now ≡ map label_text wanted.now }
{
    if wanted.len() != labels.len() {
        return false;
    }
    for place in 0..wanted.len() {
        if wanted[place].text != labels[place].text {
            return false;
        }
    }
    true
}

fn are_methods(methods: &[MethodCode], labels: &[Label]) -> bool
    ensures { IsTrue result → map label_text labels.now ≡ map method_text methods.now }
{
    if methods.len() != labels.len() {
        return false;
    }
    for place in 0..methods.len() {
        if methods[place].label.text != labels[place].text {
            return false;
        }
    }
    true
}

fn copy_labels(alloc: Global, labels: &[Label]) -> Result<Labels, AllocError>
    ensures { IfOk result (λ ls. labels_shape ls ≡ map label_text labels.now) }
{
    let mut items = Vec::with_capacity(alloc, labels.len())?;
    for label in labels {
        items.push(label.copy(alloc)?)?;
    }
    Ok(Labels { items })
}

fn copy_methods(alloc: Global, methods: &[MethodCode]) -> Result<Labels, AllocError>
    ensures { IfOk result (λ ls. labels_shape ls ≡ map method_text methods.now) }
{
    let mut items = Vec::with_capacity(alloc, methods.len())?;
    for method in methods {
        items.push(method.label.copy(alloc)?)?;
    }
    Ok(Labels { items })
}
