//! Objects, heads of methods and the labels of a `serve`, one part after the other.

ghost use Rattle.std.specs.Prelude.{◌≡◌, ◌∷◌, [], ◌++◌, OnOk};
ghost use Rattle.asp_model.specs.Shapes.{marked_of};
ghost use Rattle.syntax_grammar.specs.Nodes.{with_parameter as one_parameter};
ghost use Rattle.syntax_grammar.specs.States.{with_name as one_name, with_field as one_field, with_method as one_method, new_object as object_at, new_labels as labels_at, with_label as one_label};
ghost use Rattle.syntax_terms.specs.Shapes.{object_shape, head_shape, labels_shape};

use crate::open::{Head, Labels, Object};
use asp_model::{Label, Method, Term, Word};
use std::alloc::{AllocError, Global};

/// An object of which nothing was read.
pub fn new_object(alloc: Global, at: usize) -> Object
    ensures { object_shape result ≡ object_at at }
{
    Object {
        at,
        names: Vec::new(alloc),
        fields: Vec::new(alloc),
        methods: Vec::new(alloc),
    }
}

/// Notes the place of one more name.
pub fn with_name(object: &mut Object, at: usize) -> Result<(), AllocError>
    ensures { OnOk result (object_shape object.new ≡ one_name (object_shape object.old) at) }
{
    object.names.push(at)?;
    Ok(())
}

/// Puts one more field behind the others.
pub fn with_field(object: &mut Object, label: Label, term: Box<Term>) -> Result<(), AllocError>
    ensures { let grown = one_field (object_shape object.old) label.text (marked_of term.value) in
        OnOk result (object_shape object.new ≡ grown) }
{
    object.fields.push((label, Box::into_inner(term)))?;
    Ok(())
}

/// Puts one more method behind the others.
pub fn with_method(object: &mut Object, head: Head, body: Box<Term>) -> Result<(), AllocError>
    ensures { OnOk result (object_shape object.new
        ≡ one_method (object_shape object.old) (head_shape head) (marked_of body.value)) }
{
    let Head {
        label,
        slf,
        parameters,
    } = head;
    object.methods.push(Method {
        label,
        slf,
        parameters,
        body: Box::into_inner(body),
    })?;
    Ok(())
}

/// The head of a method of which its label and self were read.
pub fn new_head(alloc: Global, label: Label, slf: Word) -> Head
    ensures { head_shape result ≡ record { label = label.text; slf = slf; parameters = [] } }
{
    Head {
        label,
        slf,
        parameters: Vec::new(alloc),
    }
}

/// Puts one more parameter behind the others.
pub fn with_parameter(head: &mut Head, name: Word) -> Result<(), AllocError>
    ensures { OnOk result (head_shape head.new ≡ one_parameter (head_shape head.old) name) }
{
    head.parameters.push(name)?;
    Ok(())
}

/// A `serve` or a `pending` of which no label was read.
pub fn new_labels(alloc: Global, polls: bool, at: usize) -> Labels
    ensures { labels_shape result ≡ labels_at polls at }
{
    Labels {
        at,
        polls,
        names: Vec::new(alloc),
        labels: Vec::new(alloc),
    }
}

/// Puts one more label behind the others, and notes its place.
pub fn with_label(labels: &mut Labels, at: usize, label: Label) -> Result<(), AllocError>
    ensures { let grown = one_label (labels_shape labels.old) at label.text in
        OnOk result (labels_shape labels.new ≡ grown) }
{
    labels.names.push(at)?;
    labels.labels.push(label)?;
    Ok(())
}
