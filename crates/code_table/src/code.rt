//! Code: a table of nodes that all activities of a run share.

ghost use Rattle.std.specs.Prelude.{◌≡◌, length};
ghost use Rattle.code_table.specs.Operands.{operand_count};

use crate::class::Class;
use crate::keys::KeyedLabel;
use crate::labels::SharedLabel;
use asp_model::{Label, Sign, Word};

/// A variable of a body, by its slot in the body's environment. The environment begins with what the
/// method captured; behind it stand the object, the arguments and what `let` has bound.
#[derive(Drop)]
pub enum Leaf {
    /// The slot of a name of the method's own, and the name.
    Own(usize, Word),
    /// What the method captured at this slot.
    Kept(usize),
}

/// A term below a node.
#[derive(Drop)]
pub enum Child {
    Leaf(Leaf),
    /// A node that stands before this one in the table, by its number.
    Node(usize),
}

/// A variable from round an object, which a method of it keeps where the object is made.
#[derive(Drop)]
pub struct Capture {
    pub name: Word,
    /// Where it stands in the environment in which the object is made.
    pub leaf: Leaf,
}

/// A method of a class.
#[derive(Drop)]
pub struct MethodCode {
    pub label: Label,
    /// The name by which the body calls its object.
    pub slf: Word,
    pub parameters: Vec<Word>,
    /// The variables that it captures, each once. Their slots are those of the body's environment.
    pub captured: Vec<Capture>,
    /// Which of them stand in the body, in text order, by their slots.
    pub uses: Vec<usize>,
    /// Where the places of what it captured begin among the places of its object.
    pub start: usize,
    pub body: Child,
}

/// What a node is, apart from the terms below it.
#[derive(Drop)]
pub enum Kind {
    Number(i64),
    /// An object. The terms below it are its fields'; its methods stand in the class.
    Make(Box<Class>),
    Get(KeyedLabel),
    Put(KeyedLabel),
    Call(KeyedLabel),
    Clone,
    Active(Option<SharedLabel>),
    Serve(Vec<Label>),
    Let(Word),
    Steps,
    If,
    Repeat,
    Operate(Sign),
    Print,
    Echo(Word),
    Group,
    Scatter(KeyedLabel),
    Size,
    Member,
    WaitAll,
    Pending(Vec<Label>),
}

/// A node, with the terms below it.
#[derive(Drop)]
pub struct Node {
    pub kind: Kind,
    pub children: Vec<Child>,
    /// The byte of the text where it stood, or 0 if it stood in none.
    pub mark: usize,
    /// How many terms below it are reduced in place, from the first on.
    pub operands: usize,
    ghost counted: { operands ≡ operand_count kind (length children.items) },
}

impl Node {
    /// The node of this kind over these terms, which stood at this byte.
    pub fn new(kind: Kind, children: Vec<Child>, mark: usize) -> Node
        ensures kind { result.kind ≡ kind }
        ensures children { result.children ≡ children }
        ensures mark { result.mark ≡ mark }
    {
        let operands = operand_count(&kind, children.len());
        Node {
            kind,
            children,
            mark,
            operands,
        }
    }
}

/// How many of so many terms below a node of this kind are reduced in place.
fn operand_count(kind: &Kind, count: usize) -> usize
    ensures count { result ≡ operand_count kind.now count }
{
    match kind {
        Kind::Make(_) | Kind::Call(_) | Kind::Group => count,
        Kind::Put(_) | Kind::Operate(_) | Kind::Scatter(_) | Kind::Member => 2,
        Kind::Get(_) | Kind::Clone | Kind::Active(_) | Kind::Let(_) | Kind::Steps => 1,
        Kind::If | Kind::Print | Kind::Size | Kind::WaitAll => 1,
        Kind::Number(_) | Kind::Serve(_) | Kind::Pending(_) | Kind::Echo(_) => 0,
        Kind::Repeat => 0,
    }
}
