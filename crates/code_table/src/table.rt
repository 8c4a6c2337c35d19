//! The table of a program's nodes.

ghost use Rattle.std.specs.Prelude.{◌≡◌, ◌<◌, IfSome, List, length};
ghost use Rattle.code_table.specs.Classes.{class_at, class_of, seen_class};
ghost use Rattle.code_table.specs.Sound.{IsSound, MethodsBelow, MethodsSound, StartFrom, root_of};
ghost use Rattle.code_table.specs.Tables.{pieces};
ghost use Rattle.code_table.specs.declared.code.Node.{Node as NodeShape};

use crate::class::Class;
use crate::code::{Kind, Node};
use std::marker::Model;

/// Where the node `serve()` stands in every table.
pub const SERVE_NUMBER: usize = 0;

/// Where the node `repeat(serve())` stands in every table.
pub const SERVICE_NUMBER: usize = 1;

/// Where the node `[]` stands in every table.
pub const EMPTY_NUMBER: usize = 2;

/// The code of a program, seen as the list of its nodes. Children stand before parents, the program
/// stands last, and every variable has its slot.
pub struct Code {
    nodes: Vec<Node>,
}

// Written out, so that crates above drop it by one call.
impl Drop for Code {
    fn drop(self) {
        let Code { nodes: _ } = self;
    }
}

impl Model for Code {
    ghost Value = { List NodeShape };

    ghost view = { λ c. c.nodes.items };

    ghost invariant = { λ c. IsSound c.nodes.items };
}

impl Code {
    /// These nodes as code.
    pub fn of(nodes: Vec<Node>) -> Code
        requires sound { IsSound nodes.items }
        ensures nodes { result ≡ nodes.items }
    {
        Code { nodes }
    }

    /// The nodes, by their numbers.
    pub fn nodes(&self) -> &[Node]
        ensures nodes { result.now ≡ self.now }
        ensures sound { IsSound self.now }
    {
        &self.nodes
    }

    /// The number of the program's node.
    pub fn root(&self) -> usize
        ensures root { result ≡ root_of self.now }
        ensures within { result < length self.now }
    {
        self.nodes.len().saturating_sub(1)
    }

    /// The class of the objects that a node makes, if it makes any.
    pub fn class(&self, number: usize) -> Option<&Class>
        ensures class { seen_class result ≡ class_at self.now number }
        ensures sound { IfSome result (λ k. MethodsSound (pieces self.now) k.now.methods.items) }
        ensures starts { IfSome result
            (λ k. StartFrom (length k.now.fields.items) k.now.methods.items) }
        ensures below { IfSome result (λ k. MethodsBelow number k.now.methods.items) }
    {
        match self.nodes.get(number) {
            Some(node) => class_in(node),
            None => None,
        }
    }
}

fn class_in(node: &Node) -> Option<&Class>
    ensures class { seen_class result ≡ class_of node.now.kind }
{
    match &node.kind {
        Kind::Make(class) => Some(class),
        _ => None,
    }
}
