//! Nodes behind others.

ghost use Rattle.std.specs.Prelude.{◌≡◌, ◌∷◌, ◌++◌, [], List, ℕ, length, map, reverse, IfOk, OnOk, true};
ghost use Rattle.std.specs.Global.{Vec};
ghost use Rattle.std.specs.Option.{option_map};
ghost use Rattle.asp_model.specs.Marked.{Marked, one_marked};
ghost use Rattle.asp_model.specs.Shapes.{mark_shape, marked_of, tree_of};
ghost use Rattle.asp_model.specs.Term.{Var, has_text, leaf};
ghost use Rattle.code_table.specs.Tables.{kind_head, text_of};
ghost use Rattle.code_table.specs.Uses.{leaf_use};
ghost use Rattle.code_table.specs.declared.code.Child.TheVariants as child;
ghost use Rattle.code_table.specs.declared.code.Node.{Node as NodeShape};
ghost use Rattle.code_compiler.specs.Slots.{names_of};
ghost use Rattle.code_compiler.specs.Added.{AddsTerm};
ghost use Rattle.code_compiler.specs.Compiled.{AddsMarks, EndsTable, IsPut, is_plain};
ghost use Rattle.code_compiler.specs.Parts.{head_at, is_plain_head, mark_in};
ghost use Rattle.code_table.specs.Parts.{field_label};

use crate::scope::{Scope, leaf_of};
use asp_model::{Label, Mark, Term, Word};
use code_table::{Child, KeyedLabel, Kind, Leaf, Node, SharedLabel};
use std::alloc::{AllocError, Global};

/// Puts a node behind the others, and its number behind the children.
pub fn put(
    nodes: &mut Vec<Node>,
    children: &mut Vec<Child>,
    at: usize,
    kind: Kind,
    below: Vec<Child>,
) -> Result<(), AllocError>
    ensures node { OnOk result (IsPut nodes.old.items nodes.new.items kind below at) }
    ensures child { OnOk result
        (children.new.items ≡ children.old.items ++ child.Node (length nodes.old.items) ∷ []) }
{
    let number = nodes.len();
    nodes.push(Node::new(kind, below, at))?;
    children.push(Child::Node(number))?;
    Ok(())
}

/// Puts a variable behind the children, and notes the slot of a captured one.
pub fn put_variable(
    alloc: Global,
    scope: &Scope,
    uses: &mut Vec<usize>,
    children: &mut Vec<Child>,
    name: &Word,
) -> Result<(), AllocError>
    requires bound { has_text name.now (names_of scope.now) ≡ true }
    ensures adds { let t = leaf (Var name.now) in (ns : Vec NodeShape) → OnOk result
        (AddsTerm scope.now uses.old uses.new ns ns children.old children.new t) }
    ensures marks { (ns : List NodeShape) (t : Marked) → OnOk result
        (AddsMarks ns children.old.items children.new.items (one_marked t)) }
    ensures ends { (m : ℕ) → OnOk result (EndsTable m children.new.items) }
{
    let leaf = leaf_of(alloc, scope, name)?;
    push_use(uses, &leaf)?;
    children.push(Child::Leaf(leaf))?;
    Ok(())
}

/// Notes the slot of a captured variable.
pub fn push_use(uses: &mut Vec<usize>, leaf: &Leaf) -> Result<(), AllocError>
    ensures uses { OnOk result (uses.new.items ≡ uses.old.items ++ leaf_use leaf.now) }
{
    match leaf {
        Leaf::Own(_, _) => Ok(()),
        Leaf::Kept(slot) => {
            uses.push(*slot)?;
            Ok(())
        }
    }
}

/// An equal label, with its key.
fn keyed(alloc: Global, label: &Label) -> Result<KeyedLabel, AllocError>
    ensures label { IfOk result (λ k. k.label.text ≡ label.now.text) }
{
    Ok(KeyedLabel::new(SharedLabel::alone(label.copy(alloc)?)))
}

/// An equal label that requests can have too, with its key.
fn asked(alloc: Global, label: &Label) -> Result<KeyedLabel, AllocError>
    ensures label { IfOk result (λ k. k.label.text ≡ label.now.text) }
{
    Ok(KeyedLabel::new(shared(alloc, label)?))
}

/// An equal label that others can have too.
fn shared(alloc: Global, label: &Label) -> Result<SharedLabel, AllocError>
    ensures label { IfOk result (λ l. l.text ≡ label.now.text) }
{
    SharedLabel::shared(alloc, label.copy(alloc)?)
}

/// What the node of a term does. It is no variable, binds no name and makes no object.
#[tactic(auto, using(code_table::proofs::TermTrees::trees_are))]
pub fn kind_of(alloc: Global, term: &Term) -> Result<Kind, AllocError>
    requires plain { is_plain_head (head_at (tree_of term.now)) ≡ true }
    ensures head { IfOk result (λ k. kind_head k ≡ head_at (tree_of term.now)) }
    ensures plain { IfOk result (λ k. is_plain k ≡ true) }
{
    match term {
        Term::Number(n, _) => Ok(Kind::Number(*n)),
        Term::Get(_, label, _) => Ok(Kind::Get(keyed(alloc, label)?)),
        Term::Put(_, label, _, _) => Ok(Kind::Put(keyed(alloc, label)?)),
        Term::Call(_, label, _, _) => Ok(Kind::Call(asked(alloc, label)?)),
        Term::Clone(_, _) => Ok(Kind::Clone),
        Term::Active(_, service, _) => Ok(Kind::Active(copy_service(alloc, service)?)),
        Term::Serve(labels, _) => Ok(Kind::Serve(copy_labels(alloc, labels)?)),
        Term::Steps(_, _) => Ok(Kind::Steps),
        Term::If(_, _, _, _) => Ok(Kind::If),
        Term::Repeat(_, _) => Ok(Kind::Repeat),
        Term::Operate(sign, _, _, _) => Ok(Kind::Operate(*sign)),
        Term::Print(_, _) => Ok(Kind::Print),
        Term::Echo(text, _) => Ok(Kind::Echo(text.copy(alloc)?)),
        Term::Group(_, _) => Ok(Kind::Group),
        Term::Scatter(_, label, _, _) => Ok(Kind::Scatter(asked(alloc, label)?)),
        Term::Size(_, _) => Ok(Kind::Size),
        Term::Member(_, _, _) => Ok(Kind::Member),
        Term::WaitAll(_, _) => Ok(Kind::WaitAll),
        Term::Pending(labels, _) => Ok(Kind::Pending(copy_labels(alloc, labels)?)),
        Term::Var(_, _) | Term::Make { .. } | Term::Let(_, _, _, _) => unreachable!(),
        Term::Loc(_, _) | Term::Hole(_) => unreachable!(),
    }
}

/// Where the node of a term stood in its text.
pub fn mark_of(term: &Term) -> &Mark
    ensures mark { mark_shape result.now ≡ mark_in (marked_of term.now) }
{
    match term {
        Term::Loc(_, mark)
        | Term::Hole(mark)
        | Term::Var(_, mark)
        | Term::Number(_, mark)
        | Term::Make { mark, .. }
        | Term::Get(_, _, mark)
        | Term::Put(_, _, _, mark)
        | Term::Call(_, _, _, mark)
        | Term::Clone(_, mark)
        | Term::Active(_, _, mark)
        | Term::Serve(_, mark)
        | Term::Let(_, _, _, mark)
        | Term::Steps(_, mark)
        | Term::If(_, _, _, mark)
        | Term::Repeat(_, mark)
        | Term::Operate(_, _, _, mark)
        | Term::Print(_, mark)
        | Term::Echo(_, mark)
        | Term::Group(_, mark)
        | Term::Scatter(_, _, _, mark)
        | Term::Size(_, mark)
        | Term::Member(_, _, mark)
        | Term::WaitAll(_, mark)
        | Term::Pending(_, mark) => mark,
    }
}

fn copy_labels(alloc: Global, labels: &[Label]) -> Result<Vec<Label>, AllocError>
    ensures labels { IfOk result (λ r. map text_of r.items ≡ map text_of labels.now) }
{
    let mut copies = Vec::new(alloc);
    for label in labels {
        copies.push(label.copy(alloc)?)?;
    }
    Ok(copies)
}

fn copy_service(alloc: Global, service: &Option<Label>) -> Result<Option<SharedLabel>, AllocError>
    ensures label { IfOk result (λ r. option_map text_of r ≡ option_map text_of service.now) }
{
    match service {
        None => Ok(None),
        Some(label) => Ok(Some(shared(alloc, label)?)),
    }
}

pub fn field_labels(alloc: Global, fields: &[(Label, Term)]) -> Result<Vec<Label>, AllocError>
    ensures labels { IfOk result (λ r. map text_of r.items ≡ map field_label fields.now) }
{
    let mut labels = Vec::new(alloc);
    for (label, _) in fields {
        labels.push(label.copy(alloc)?)?;
    }
    Ok(labels)
}
