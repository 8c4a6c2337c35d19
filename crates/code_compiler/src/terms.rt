//! Terms, node by node: children before parents, in text order.

ghost use Rattle.std.specs.Prelude.{
  ◌≡◌,
  ◌∷◌,
  ◌++◌,
  [],
  List,
  ℕ,
  length,
  map,
  IfOk,
  OnOk,
  true,
};
ghost use Rattle.std.specs.Global.{Vec};
ghost use Rattle.asp_model.specs.Marked.{
  MarkShape,
  Marked,
  all_marked,
  marked,
  one_marked,
  two_marked,
};
ghost use Rattle.asp_model.specs.Shapes.{marked_of, tree_of};
ghost use Rattle.asp_model.specs.Term.{Head, Let, Make, Tree, node, trees, two};
ghost use Rattle.code_table.specs.Marks.{HasMarks, HaveMarks, method_bodies};
ghost use Rattle.code_table.specs.Tables.{text_of};
ghost use Rattle.code_table.specs.declared.code.Node.{Node as NodeShape};
ghost use Rattle.code_compiler.specs.Slots.{bound_in, names_of};
ghost use Rattle.code_table.specs.Parts.{body_tree, field_tree, method_head};
ghost use Rattle.code_compiler.specs.Added.{AddsChild, AddsCode, AddsRow, AddsTerm, AddsTerms};
ghost use Rattle.code_compiler.specs.Closed.{AreClosed, IsClosed};
ghost use Rattle.code_compiler.specs.Compiled.{AddsMarks, EndsTable};
ghost use Rattle.code_compiler.specs.Parts.{
  AreClosedMethods,
  bodies_marked,
  body_marked,
  fields_below,
  fields_marked,
  head_at,
  is_plain_head,
  marked_below,
  parts_of,
  terms_below,
  terms_marked,
};

use crate::methods::{Ended, captured_names_of, end_method, next_start, only_child};
use crate::nodes::{field_labels, kind_of, mark_of, put, put_variable};
use crate::scope::{Scope, bound_with, head_slots};
use asp_model::{Label, Method, Term, Word};
use code_table::{Child, Class, Kind, MethodCode, Node};
use std::alloc::{AllocError, Global};

/// Compiles a term of a body. Its nodes come behind the others, and its child behind the children.
#[cycle(compiling)]
pub fn compile_term(
    alloc: Global,
    nodes: &mut Vec<Node>,
    scope: &Scope,
    uses: &mut Vec<usize>,
    children: &mut Vec<Child>,
    term: &Term,
) -> Result<(), AllocError>
    requires closed { IsClosed (names_of scope.now) (tree_of term.now) }
    ensures adds { let t = tree_of term.now in OnOk result
        (AddsTerm scope.now uses.old uses.new nodes.old nodes.new children.old children.new t) }
    ensures marks { let t = marked_of term.now in OnOk result
        (AddsMarks nodes.new.items children.old.items children.new.items (one_marked t)) }
    ensures ends { OnOk result (EndsTable (length nodes.new.items) children.new.items) }
{
    match term {
        Term::Loc(_, _) => unreachable!(),
        Term::Hole(_) => unreachable!(),
        Term::Var(name, _) => put_variable(alloc, scope, uses, children, name),
        Term::Make {
            fields,
            methods,
            mark,
        } => {
            let labels = field_labels(alloc, fields)?;
            let mut below = Vec::new(alloc);
            compile_fields(alloc, nodes, scope, uses, &mut below, fields)?;
            put_object(
                alloc, nodes, scope, uses, children, mark.at, labels, below, methods,
            )
        }
        Term::Let(name, a, b, mark) => {
            let below = first(alloc, nodes, scope, uses, a)?;
            put_let(alloc, nodes, scope, uses, children, mark.at, name, below, b)
        }
        _ => put_node(alloc, nodes, scope, uses, children, term),
    }
}

/// Compiles a term whose node is no variable, binds no name and makes no object.
#[cycle(compiling)]
fn put_node(
    alloc: Global,
    nodes: &mut Vec<Node>,
    scope: &Scope,
    uses: &mut Vec<usize>,
    children: &mut Vec<Child>,
    term: &Term,
) -> Result<(), AllocError>
    requires plain { is_plain_head (head_at (tree_of term.now)) ≡ true }
    requires closed { IsClosed (names_of scope.now) (tree_of term.now) }
    ensures adds { let t = tree_of term.now in OnOk result
        (AddsTerm scope.now uses.old uses.new nodes.old nodes.new children.old children.new t) }
    ensures marks { let t = marked_of term.now in OnOk result
        (AddsMarks nodes.new.items children.old.items children.new.items (one_marked t)) }
    ensures ends { OnOk result (EndsTable (length nodes.new.items) children.new.items) }
{
    let mut below = Vec::new(alloc);
    compile_below(alloc, nodes, scope, uses, &mut below, term)?;
    let kind = kind_of(alloc, term)?;
    put(nodes, children, mark_of(term).at, kind, below)?;
    Ok(())
}

/// Compiles the terms below such a node, in text order.
#[cycle(compiling)]
fn compile_below(
    alloc: Global,
    nodes: &mut Vec<Node>,
    scope: &Scope,
    uses: &mut Vec<usize>,
    children: &mut Vec<Child>,
    term: &Term,
) -> Result<(), AllocError>
    requires plain { is_plain_head (head_at (tree_of term.now)) ≡ true }
    requires closed { IsClosed (names_of scope.now) (tree_of term.now) }
    ensures adds { let ts = parts_of (tree_of term.now) in OnOk result
        (AddsTerms scope.now uses.old uses.new nodes.old nodes.new children.old children.new ts) }
    ensures marks { let ts = marked_below (marked_of term.now) in OnOk result
        (AddsMarks nodes.new.items children.old.items children.new.items ts) }
{
    match term {
        Term::Number(_, _) | Term::Serve(_, _) | Term::Pending(_, _) | Term::Echo(_, _) => Ok(()),
        Term::Get(a, _, _)
        | Term::Clone(a, _)
        | Term::Active(a, _, _)
        | Term::Repeat(a, _)
        | Term::Print(a, _)
        | Term::Size(a, _)
        | Term::WaitAll(a, _) => compile_term(alloc, nodes, scope, uses, children, a),
        Term::Put(a, _, b, _)
        | Term::Operate(_, a, b, _)
        | Term::Scatter(a, _, b, _)
        | Term::Member(a, b, _) => {
            compile_term(alloc, nodes, scope, uses, children, a)?;
            compile_term(alloc, nodes, scope, uses, children, b)
        }
        Term::If(a, b, c, _) => {
            compile_term(alloc, nodes, scope, uses, children, a)?;
            compile_term(alloc, nodes, scope, uses, children, b)?;
            compile_term(alloc, nodes, scope, uses, children, c)
        }
        Term::Call(a, _, terms, _) => {
            compile_term(alloc, nodes, scope, uses, children, a)?;
            compile_all(alloc, nodes, scope, uses, children, terms)
        }
        Term::Steps(terms, _) | Term::Group(terms, _) => {
            compile_all(alloc, nodes, scope, uses, children, terms)
        }
        Term::Var(_, _) | Term::Make { .. } | Term::Let(_, _, _, _) => unreachable!(),
        Term::Loc(_, _) | Term::Hole(_) => unreachable!(),
    }
}

/// The first child of a row.
#[cycle(compiling)]
fn first(
    alloc: Global,
    nodes: &mut Vec<Node>,
    scope: &Scope,
    uses: &mut Vec<usize>,
    term: &Term,
) -> Result<Vec<Child>, AllocError>
    requires closed { IsClosed (names_of scope.now) (tree_of term.now) }
    ensures adds { let ts = tree_of term.now ∷ [] in IfOk result
        (λ r. AddsRow scope.now uses.old uses.new nodes.old nodes.new r ts) }
    ensures marks { let t = marked_of term.now in IfOk result
        (λ r. AddsMarks nodes.new.items [] r.items (one_marked t)) }
{
    let mut row = Vec::new(alloc);
    compile_term(alloc, nodes, scope, uses, &mut row, term)?;
    Ok(row)
}

#[cycle(compiling)]
fn put_let(
    alloc: Global,
    nodes: &mut Vec<Node>,
    scope: &Scope,
    uses: &mut Vec<usize>,
    children: &mut Vec<Child>,
    at: usize,
    name: &Word,
    below: Vec<Child>,
    last: &Term,
) -> Result<(), AllocError>
    requires closed { IsClosed (name.now ∷ names_of scope.now) (tree_of last.now) }
    ensures adds { (us : Vec ℕ) (ns : Vec NodeShape) (x : Tree)
        → AddsRow scope.now us uses.old ns nodes.old below (x ∷ [])
        → let t = two (Let name.now) x (tree_of last.now) in OnOk result
        (AddsTerm scope.now us uses.new ns nodes.new children.old children.new t) }
    ensures marks { (m : MarkShape) (x : Marked) → m.at ≡ at
        → AddsMarks nodes.old.items [] below.items (one_marked x)
        → let t = marked (Let name.now) m (two_marked x (marked_of last.now)) in OnOk result
        (AddsMarks nodes.new.items children.old.items children.new.items (one_marked t)) }
    ensures ends { OnOk result (EndsTable (length nodes.new.items) children.new.items) }
{
    let bound = bound_with(alloc, scope, name)?;
    let inner = Scope {
        captured: scope.captured,
        bound: &bound,
    };
    let mut below = below;
    compile_term(alloc, nodes, &inner, uses, &mut below, last)?;
    put(nodes, children, at, Kind::Let(name.copy(alloc)?), below)?;
    Ok(())
}

#[cycle(compiling)]
fn put_object(
    alloc: Global,
    nodes: &mut Vec<Node>,
    scope: &Scope,
    uses: &mut Vec<usize>,
    children: &mut Vec<Child>,
    at: usize,
    fields: Vec<Label>,
    below: Vec<Child>,
    methods: &[Method],
) -> Result<(), AllocError>
    requires closed { AreClosedMethods (names_of scope.now) methods.now }
    ensures adds { (us : Vec ℕ) (ns : Vec NodeShape) (ts : List Tree)
        → AddsRow scope.now us uses.old ns nodes.old below ts
        → length ts ≡ length fields.items
        → let ls = map text_of fields.items in
        let t = node (Make ls (map method_head methods.now)) (trees (ts ++ map body_tree methods.now)) in OnOk result
        (AddsTerm scope.now us uses.new ns nodes.new children.old children.new t) }
    ensures marks { (h : Head) (m : MarkShape) (ts : List Marked) → m.at ≡ at
        → AddsMarks nodes.old.items [] below.items (all_marked ts)
        → let t = marked h m (all_marked (ts ++ map body_marked methods.now)) in OnOk result
        (AddsMarks nodes.new.items children.old.items children.new.items (one_marked t)) }
    ensures ends { OnOk result (EndsTable (length nodes.new.items) children.new.items) }
{
    let methods = compile_methods(alloc, nodes, scope, uses, fields.len(), methods)?;
    let made = Class::new(alloc, fields, methods)?;
    let class = Box::new(alloc, made)?;
    put(nodes, children, at, Kind::Make(class), below)?;
    Ok(())
}

#[cycle(compiling)]
fn compile_all(
    alloc: Global,
    nodes: &mut Vec<Node>,
    scope: &Scope,
    uses: &mut Vec<usize>,
    children: &mut Vec<Child>,
    terms: &[Term],
) -> Result<(), AllocError>
    requires closed { AreClosed (names_of scope.now) [] (terms_below terms.now) }
    ensures adds { let ts = map tree_of terms.now in OnOk result
        (AddsTerms scope.now uses.old uses.new nodes.old nodes.new children.old children.new ts) }
    ensures marks { let ts = terms_marked terms.now in OnOk result
        (AddsMarks nodes.new.items children.old.items children.new.items ts) }
{
    for term in terms {
        compile_term(alloc, nodes, scope, uses, children, term)?;
    }
    Ok(())
}

#[cycle(compiling)]
fn compile_fields(
    alloc: Global,
    nodes: &mut Vec<Node>,
    scope: &Scope,
    uses: &mut Vec<usize>,
    children: &mut Vec<Child>,
    fields: &[(Label, Term)],
) -> Result<(), AllocError>
    requires closed { AreClosed (names_of scope.now) [] (fields_below fields.now) }
    ensures adds { let ts = map field_tree fields.now in OnOk result
        (AddsTerms scope.now uses.old uses.new nodes.old nodes.new children.old children.new ts) }
    ensures marks { let ts = fields_marked fields.now in OnOk result
        (AddsMarks nodes.new.items children.old.items children.new.items ts) }
{
    for (_, term) in fields {
        compile_term(alloc, nodes, scope, uses, children, term)?;
    }
    Ok(())
}

#[cycle(compiling)]
fn compile_methods(
    alloc: Global,
    nodes: &mut Vec<Node>,
    scope: &Scope,
    uses: &mut Vec<usize>,
    first: usize,
    methods: &[Method],
) -> Result<Vec<MethodCode>, AllocError>
    requires closed { AreClosedMethods (names_of scope.now) methods.now }
    ensures adds { IfOk result
        (λ r. AddsCode scope.now uses.old uses.new nodes.old nodes.new first r.items methods.now) }
    ensures marks { let ts = bodies_marked methods.now in IfOk result
        (λ r. HaveMarks nodes.new.items (method_bodies r.items) ts) }
{
    let mut codes = Vec::new(alloc);
    let mut start = first;
    for method in methods {
        let code = compile_method(alloc, nodes, scope, uses, start, method)?;
        start = next_start(start, &code)?;
        codes.push(code)?;
    }
    Ok(codes)
}

#[cycle(compiling)]
fn compile_method(
    alloc: Global,
    nodes: &mut Vec<Node>,
    scope: &Scope,
    uses: &mut Vec<usize>,
    start: usize,
    method: &Method,
) -> Result<MethodCode, AllocError>
    requires closed { IsClosed (bound_in method.now ++ names_of scope.now) (body_tree method.now) }
    ensures adds { IfOk result
        (λ r. AddsCode scope.now uses.old uses.new nodes.old nodes.new start (r ∷ []) (method.now ∷ [])) }
    ensures marks { let t = body_marked method.now in IfOk result
        (λ r. HasMarks nodes.new.items r.body t) }
{
    let captured = captured_names_of(alloc, method)?;
    let bound = head_slots(alloc, &captured, method)?;
    let inner = Scope {
        captured: &captured,
        bound: &bound,
    };
    let mut inner_uses = Vec::new(alloc);
    let code = compile_body(alloc, nodes, &inner, &mut inner_uses, method)?;
    let ended = Ended {
        captured,
        uses: inner_uses,
        code,
    };
    end_method(alloc, scope, uses, start, method, ended)
}

#[cycle(compiling)]
fn compile_body(
    alloc: Global,
    nodes: &mut Vec<Node>,
    scope: &Scope,
    uses: &mut Vec<usize>,
    method: &Method,
) -> Result<Child, AllocError>
    requires closed { IsClosed (names_of scope.now) (body_tree method.now) }
    ensures adds { let ts = body_tree method.now ∷ [] in IfOk result
        (λ r. AddsChild scope.now uses.old uses.new nodes.old nodes.new r ts) }
    ensures marks { let t = body_marked method.now in IfOk result
        (λ r. HasMarks nodes.new.items r t) }
{
    let mut children = Vec::new(alloc);
    compile_term(alloc, nodes, scope, uses, &mut children, &method.body)?;
    Ok(only_child(children))
}
