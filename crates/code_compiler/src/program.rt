//! Whole programs.

ghost use Rattle.std.specs.Prelude.{◌≡◌, [], IfOk, OnOk};
ghost use Rattle.asp_model.specs.Term.{locations};
ghost use Rattle.asp_model.specs.Shapes.{marked_of, tree_of};
ghost use Rattle.code_table.specs.Marks.{HasMarks};
ghost use Rattle.code_table.specs.Pieces.{tree};
ghost use Rattle.code_table.specs.Sound.{root_of};
ghost use Rattle.code_table.specs.Tables.{piece_at, pieces};
ghost use Rattle.code_table.specs.declared.code.Child.TheVariants as child;
ghost use Rattle.code_compiler.specs.Closed.{IsClosed};
ghost use Rattle.code_compiler.specs.Compiled.{Grows, IsPrelude, IsRoot};

use crate::scope::Scope;
use crate::terms::compile_term;
use asp_check::Checked;
use asp_model::Term;
use code_table::{Child, Class, Code, Kind, Node, SERVE_NUMBER};
use std::alloc::{AllocError, Global};

/// The code of a program, which stands for the program's term, where no place stands, and keeps where
/// each node of it stood in the text. `AllocError` is the only error.
pub fn compile(alloc: Global, program: &Checked) -> Result<Code, AllocError>
    ensures program { let root = program.now.program.root in
        IfOk result (λ r. tree [] (piece_at (pieces r) (root_of r)) ≡ tree_of root) }
    ensures marks { let root = program.now.program.root in
        IfOk result (λ r. HasMarks r (child.Node (root_of r)) (marked_of root)) }
    ensures bare { OnOk result (locations (tree_of program.now.program.root) ≡ []) }
{
    let mut nodes = prelude(alloc)?;
    compile_root(alloc, &mut nodes, &program.program().root)?;
    Ok(Code::of(nodes))
}

/// The nodes with which every table begins: `serve()`, `repeat(serve())` and `[]`.
pub fn prelude(alloc: Global) -> Result<Vec<Node>, AllocError>
    ensures prelude { IfOk result (λ r. IsPrelude r.items) }
{
    let mut nodes = Vec::new(alloc);
    let serve = Kind::Serve(Vec::new(alloc));
    nodes.push(Node::new(serve, Vec::new(alloc), 0))?;
    let mut below = Vec::new(alloc);
    below.push(Child::Node(SERVE_NUMBER))?;
    nodes.push(Node::new(Kind::Repeat, below, 0))?;
    let class = Class::new(alloc, Vec::new(alloc), Vec::new(alloc))?;
    let make = Kind::Make(Box::new(alloc, class)?);
    nodes.push(Node::new(make, Vec::new(alloc), 0))?;
    Ok(nodes)
}

/// Compiles the term of a program, whose node comes last.
pub fn compile_root(alloc: Global, nodes: &mut Vec<Node>, root: &Term) -> Result<(), AllocError>
    requires closed { IsClosed [] (tree_of root.now) }
    ensures grows { OnOk result (Grows nodes.old.items nodes.new.items) }
    ensures root { OnOk result (IsRoot nodes.new.items (tree_of root.now)) }
    ensures marks { let number = root_of nodes.new.items in OnOk result
        (HasMarks nodes.new.items (child.Node number) (marked_of root.now)) }
{
    let scope = Scope {
        captured: &[],
        bound: &[],
    };
    let mut uses = Vec::new(alloc);
    let mut children = Vec::new(alloc);
    compile_term(alloc, nodes, &scope, &mut uses, &mut children, root)?;
    Ok(())
}
