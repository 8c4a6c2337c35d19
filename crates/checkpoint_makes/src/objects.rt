//! Objects: each is compiled as the term that makes it.

ghost use Rattle.std.specs.Prelude.{◌≡◌, IfOk, OnOk, Some, map};
ghost use Rattle.asp_model.specs.Shapes.{tree_of};
ghost use Rattle.code_compiler.specs.Compiled.{IsTable};
ghost use Rattle.code_laws.specs.Splitting.{redex_node};
ghost use Rattle.code_table.specs.Classes.{class_at, class_of, seen_class};
ghost use Rattle.code_table.specs.Parts.{field_label, field_tree};
ghost use Rattle.code_table.specs.declared.class.Class.{Class as ClassShape};
ghost use Rattle.frozen_code.specs.Objects.{restored_places};
ghost use Rattle.law_programs.specs.Proper.{IsProperCell};
ghost use Rattle.checkpoint_makes.specs.Later.{IsPushed};
ghost use Rattle.checkpoint_makes.specs.Objects.{HoldsObject, label_at, object_cell, object_redex, place_tree};

use asp_model::{Label, Mark, Method, Term};
use code_table::{Class, Columns, Kind, Node, Place};
use frozen_code::{Held, object_places};
use std::alloc::{AllocError, Global};
use term_opening::hold_redex;

/// Appends an object, whose class is compiled behind the other nodes.
pub fn push_object(
    alloc: Global,
    nodes: &mut Vec<Node>,
    columns: &mut Columns,
    fields: Vec<(Label, asp_model::Place)>,
    methods: Vec<Method>,
) -> Result<(), AllocError>
    requires table { IsTable nodes.old.items }
    requires proper { IsProperCell (object_cell fields.items methods.items) }
    ensures pushed { let c = object_cell fields.items methods.items in OnOk result
        (IsPushed nodes.old.items nodes.new.items columns.old.items columns.new.items c) }
{
    let term = object_term(alloc, fields, methods)?;
    let held = hold_redex(alloc, nodes, term)?;
    let places = all_places(alloc, nodes, &held)?;
    columns.push_object(held.node, &places)?;
    Ok(())
}

/// The term that makes an object.
fn object_term(
    alloc: Global,
    fields: Vec<(Label, asp_model::Place)>,
    methods: Vec<Method>,
) -> Result<Term, AllocError>
    ensures term { let r = object_redex fields.items methods.items in
        IfOk result (λ t. tree_of t ≡ redex_node r) }
{
    let fields = field_terms(alloc, fields)?;
    Ok(Term::Make {
        fields,
        methods,
        mark: Mark::blank(alloc),
    })
}

fn field_terms(
    alloc: Global,
    fields: Vec<(Label, asp_model::Place)>,
) -> Result<Vec<(Label, Term)>, AllocError>
    ensures labels { IfOk result (λ v. map field_label v.items ≡ map label_at fields.items) }
    ensures places { IfOk result (λ v. map field_tree v.items ≡ map place_tree fields.items) }
{
    let mut terms = Vec::with_capacity(alloc, fields.len())?;
    for field in fields {
        terms.push((field.0, Term::Loc(field.1, Mark::blank(alloc))))?;
    }
    Ok(terms)
}

/// The places of an object, those that its methods captured too.
fn all_places(alloc: Global, nodes: &[Node], held: &Held) -> Result<Vec<Place>, AllocError>
    requires object { HoldsObject nodes.now held.now }
    ensures places { (class : ClassShape) → class_at nodes.now held.now.node ≡ Some class →
        IfOk result (λ v. v.items ≡ restored_places class held.now.done.items held.now.places.items) }
{
    match class_in(nodes, held.node) {
        Some(class) => object_places(alloc, class, &held.done, &held.places),
        None => unreachable!(),
    }
}

fn class_in(nodes: &[Node], number: usize) -> Option<&Class>
    ensures class { seen_class result ≡ class_at nodes.now number }
{
    match nodes.get(number) {
        Some(node) => class_made(node),
        None => None,
    }
}

fn class_made(node: &Node) -> Option<&Class>
    ensures class { seen_class result ≡ class_of node.now.kind }
{
    match &node.kind {
        Kind::Make(class) => Some(class),
        _ => None,
    }
}
