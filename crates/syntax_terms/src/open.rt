//! Terms that are being read, and what they stand in. Nothing recurses: what is open stands in a list.

use asp_model::{Label, Mark, Method, Sign, Term, Word};

/// A term, and the place of its first token, parentheses round it included.
#[derive(Drop)]
pub struct Part {
    pub start: usize,
    pub term: Box<Term>,
}

/// An operator whose right side has to come, and what stands on its left.
#[derive(Drop)]
pub struct Operator {
    pub sign: Sign,
    pub left: Part,
}

/// A field access: what stands before its dot, and its label, with the label's place.
#[derive(Drop)]
pub struct Field {
    pub receiver: Part,
    pub at: usize,
    pub label: Label,
}

/// A field access on the left of a `:=`, taken apart, and the place of its first token.
#[derive(Drop)]
pub struct Access {
    pub start: usize,
    pub receiver: Box<Term>,
    pub label: Label,
    pub mark: Mark,
}

/// What a list of terms in parentheses is for: a method's arguments, or the members of a group.
#[derive(Drop)]
pub enum Target {
    Call(Field),
    Group(usize),
}

/// A list of terms that was begun: what it is for, and the terms that were read.
#[derive(Drop)]
pub struct Listing {
    pub target: Target,
    pub terms: Vec<Term>,
}

/// A `scatter` up to its second group, with the place of its label.
#[derive(Drop)]
pub struct Scatter {
    pub at: usize,
    pub group: Box<Term>,
    pub label_at: usize,
    pub label: Label,
}

/// An object that was begun: the place of its bracket, and what was read of it.
#[derive(Drop)]
pub struct Object {
    pub at: usize,
    pub names: Vec<usize>,
    pub fields: Vec<(Label, Term)>,
    pub methods: Vec<Method>,
}

/// A `serve` or a `pending` that was begun: its place, and the labels that were read, with their
/// places.
#[derive(Drop)]
pub struct Labels {
    pub at: usize,
    /// They are those of a `pending`.
    pub polls: bool,
    pub names: Vec<usize>,
    pub labels: Vec<Label>,
}

/// A method up to its body.
#[derive(Drop)]
pub struct Head {
    pub label: Label,
    pub slf: Word,
    pub parameters: Vec<Word>,
}

/// An `active` with the label of the service that it begins with, and the label's place.
#[derive(Drop)]
pub struct Service {
    pub at: usize,
    pub object: Box<Term>,
    pub label_at: usize,
    pub label: Label,
}

/// An `if` up to its `else`.
#[derive(Drop)]
pub struct Choice {
    pub at: usize,
    pub condition: Box<Term>,
    pub chosen: Box<Term>,
}

/// A `let` up to its `in`, with the place of its name.
#[derive(Drop)]
pub struct Binding {
    pub at: usize,
    pub name_at: usize,
    pub name: Word,
    pub bound: Box<Term>,
}

/// A word before one term in parentheses.
#[derive(Clone, Copy)]
pub enum Wrap {
    Clone,
    Repeat,
    Print,
    Size,
    WaitAll,
}

/// What a term stands in, with what was read of that.
#[derive(Drop)]
pub enum Kind {
    Top,
    InParentheses(usize),
    InWord(Wrap, usize),
    InActive(usize),
    InCondition(usize),
    InThen(usize, Box<Term>),
    InElse(Choice),
    InList(Listing),
    InScatter(usize),
    InArguments(Scatter),
    InMember(usize),
    InIndex(usize, Box<Term>),
    InBinding(usize, usize, Word),
    InBody(Binding),
    InField(Object, Label),
    InMethod(Object, Head),
}

/// A sequence, or the term of a field, that was begun.
#[derive(Drop)]
pub struct Open {
    pub kind: Kind,
    /// The place of its first token, once a term of it was read.
    pub start: usize,
    /// Its terms before the one that is read.
    pub before: Vec<Term>,
    /// The left sides of the `:=` of that term, the innermost last.
    pub puts: Vec<Access>,
    pub test: Option<Operator>,
    pub sum: Option<Operator>,
    pub product: Option<Operator>,
}
