//! What the tokens so far have begun. Nothing recurses: what is open stands in a list.

ghost use Rattle.std.specs.Prelude.{◌≡◌, ◌∷◌, OnOk, Some};
ghost use Rattle.syntax_grammar.specs.States.{has_terms as has, fresh as fresh_open};
ghost use Rattle.syntax_grammar.specs.States as states;
ghost use Rattle.syntax_grammar.specs.Closings.{first_mode as mode_of, opened as opened_state, back as back_state};
ghost use Rattle.syntax_grammar.specs.Machine.{start};
ghost use Rattle.syntax_terms.specs.Shapes.{kind_shape, open_shape, stack};
ghost use Rattle.syntax_states.specs.Shapes.{mode_shape, state_shape};
ghost use Rattle.syntax_states.specs.Answers.{Leaves};

use asp_model::{Label, Term, Word};
use std::alloc::{AllocError, Global};
use std::mem;
use syntax_terms::{
    Choice, Field, Head, Kind, Labels, Object, Open, Part, Service, Stop, Target, fresh, refused,
};

/// An operand. A bracket behind a field access makes it a call.
#[derive(Drop)]
pub enum Operand {
    Plain(Part),
    Access(Field),
}

/// The token that opens a sequence behind a word or a name.
#[derive(Clone, Copy)]
pub enum Opener {
    ByRound,
    ByBrace,
    ByEquals,
    ByComma,
}

/// What the last token asks for, or made.
#[derive(Drop)]
pub enum Mode {
    /// A term of a sequence has to come.
    Begin,
    /// An operand has to come.
    Want,
    /// An operand was read.
    Have(Operand),
    Dotted(Part),
    /// The bracket of a call or a group was read.
    ListBegun(Target),
    Opening(Opener, Kind),
    LetNaming(usize),
    /// The label of the service that an `active` begins with has to come.
    ServiceNaming(usize, Box<Term>),
    ServiceNamed(Service),
    GroupOpening(usize),
    /// The label behind the first group of a `scatter` has to come.
    ScatterNaming(usize, Box<Term>),
    /// The bracket behind a `serve` or a `pending` has to come.
    ServeOpening { polls: bool, at: usize },
    ServeBegun(Labels),
    LabelNaming(Labels),
    LabelNamed(Labels),
    ElseComing(Choice),
    EchoOpening(usize),
    EchoText(usize),
    EchoClosing(usize, Word),
    ObjectBegun(Object),
    FieldNaming(Object),
    MethodNaming(Object),
    MethodNamed(Object, Label),
    SelfNaming(Object, Label),
    HeadNamed(Object, Head),
    ParameterNaming(Object, Head),
}

/// The mode, the innermost open sequence, and the others, the outermost first.
#[derive(Drop)]
pub struct State {
    pub mode: Mode,
    pub inner: Open,
    pub outer: Vec<Open>,
}

/// The state before any token.
pub fn start_state(alloc: Global) -> State
    ensures start { state_shape result ≡ start }
{
    State {
        mode: Mode::Begin,
        inner: fresh(alloc, Kind::Top),
        outer: Vec::new(alloc),
    }
}

/// Goes on in another mode.
pub fn enter(mode: &mut Mode, next: Mode)
    ensures { mode.new ≡ next }
{
    drop(mem::replace(mode, next))
}

// A field has one term, and what else is opened has a sequence.
fn first_mode(kind: &Kind) -> Mode
    ensures { mode_shape result ≡ mode_of (has (kind_shape kind.now)) }
{
    match kind {
        Kind::InField(_, _) => Mode::Want,
        Kind::Top
        | Kind::InParentheses(_)
        | Kind::InWord(_, _)
        | Kind::InActive(_)
        | Kind::InCondition(_)
        | Kind::InThen(_, _)
        | Kind::InElse(_)
        | Kind::InList(_)
        | Kind::InScatter(_)
        | Kind::InArguments(_)
        | Kind::InMember(_)
        | Kind::InIndex(_, _)
        | Kind::InBinding(_, _, _)
        | Kind::InBody(_)
        | Kind::InMethod(_, _) => Mode::Begin,
    }
}

fn with_open(outer: &mut Vec<Open>, around: Open) -> Result<(), AllocError>
    ensures { OnOk result (stack outer.new.items ≡ open_shape around ∷ stack outer.old.items) }
{
    outer.push(around)?;
    Ok(())
}

/// A sequence, or a field's term, begins inside the innermost.
pub fn open(alloc: Global, state: &mut State, kind: Kind) -> Result<(), AllocError>
    ensures { let inner = open_shape state.old.inner in
        let next = opened_state (kind_shape kind) inner (stack state.old.outer.items) in
        OnOk result (next ≡ Some (state_shape state.new)) }
{
    enter(&mut state.mode, first_mode(&kind));
    let around = mem::replace(&mut state.inner, fresh(alloc, kind));
    with_open(&mut state.outer, around)
}

/// Goes on in the sequence around, where there is one.
pub fn back(state: &mut State, mode: Mode) -> Result<(), Stop>
    ensures { Leaves result state.new (back_state (mode_shape mode) (stack state.old.outer.items)) }
{
    match state.outer.pop() {
        None => refused(mode),
        Some(around) => {
            drop(mem::replace(&mut state.inner, around));
            enter(&mut state.mode, mode);
            Ok(())
        }
    }
}

/// Goes on in a new sequence in place of the innermost.
pub fn again(alloc: Global, state: &mut State, kind: Kind)
    ensures { let fresh = fresh_open (kind_shape kind) in
        state_shape state.new ≡ states.At states.Begin fresh (stack state.old.outer.items) }
{
    drop(mem::replace(&mut state.inner, fresh(alloc, kind)));
    enter(&mut state.mode, Mode::Begin);
}
