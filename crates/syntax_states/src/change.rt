//! Modes that a token changes alone, whatever is open, but for those in objects.

ghost use Rattle.std.specs.Prelude.{◌≡◌};
ghost use Rattle.asp_model.specs.Shapes.{marked_of};
ghost use Rattle.syntax_grammar.specs.States as states;
ghost use Rattle.syntax_grammar.specs.Changes.{dotted as dotted_change, let_named as let_change, else_came as else_change, echo_opened as echo_open_change, echo_read as echo_read_change, echo_closed as echo_close_change, group_opened as group_change, scatter_named as scatter_change, service_named as service_change, service_closed as closed_change, serve_opened as opened_change, serve_begun as begun_change, label_named as label_change, labels_go_on as labels_change};
ghost use Rattle.syntax_terms.specs.Shapes.{part_shape, labels_shape};
ghost use Rattle.syntax_states.specs.Shapes.{mode_shape};
ghost use Rattle.syntax_states.specs.Answers.{Becomes, plain_change};

use crate::object::{
    field_named, head_goes_on, method_named, method_opened, object_begun, parameter_named,
    self_named,
};
use crate::state::{Mode, Opener, Operand};
use asp_model::{Label, Term, Word};
use std::alloc::Global;
use syntax_terms::{
    Choice, Field, Kind, Labels, Part, Scatter, Service, Stop, Target, active_with, echo,
    new_labels, refused, served, stopped, with_label,
};
use syntax_tokens::Token;

/// A token in a mode that opens nothing, in which no operand was read, and no call begun.
pub fn change(alloc: Global, mode: Mode, token: Token, at: usize) -> Result<Mode, Stop>
    ensures { Becomes result (plain_change (mode_shape mode) token at) }
{
    match mode {
        Mode::Begin | Mode::Want => refused(token),
        Mode::Have(operand) => refused((operand, token)),
        Mode::ListBegun(target) => refused((target, token)),
        Mode::Opening(_, kind) => refused((kind, token)),
        Mode::Dotted(part) => dotted(part, token, at),
        Mode::LetNaming(let_at) => let_named(let_at, token, at),
        Mode::ServiceNaming(active_at, object) => service_named(active_at, object, token, at),
        Mode::ServiceNamed(service) => service_closed(alloc, service, token),
        Mode::GroupOpening(group_at) => group_opened(group_at, token),
        Mode::ScatterNaming(scatter_at, group) => scatter_named(scatter_at, group, token, at),
        Mode::ServeOpening {
            polls,
            at: serve_at,
        } => serve_opened(alloc, polls, serve_at, token),
        Mode::ServeBegun(labels) => serve_begun(alloc, labels, token, at),
        Mode::LabelNaming(labels) => label_named(labels, token, at),
        Mode::LabelNamed(labels) => labels_go_on(alloc, labels, token),
        Mode::ElseComing(choice) => else_came(choice, token),
        Mode::EchoOpening(echo_at) => echo_opened(echo_at, token),
        Mode::EchoText(echo_at) => echo_read(echo_at, token),
        Mode::EchoClosing(echo_at, text) => echo_closed(alloc, echo_at, text, token),
        Mode::ObjectBegun(object) => object_begun(alloc, object, token, at),
        Mode::FieldNaming(object) => field_named(object, token, at),
        Mode::MethodNaming(object) => method_named(object, token, at),
        Mode::MethodNamed(object, label) => method_opened(object, label, token),
        Mode::SelfNaming(object, label) => self_named(alloc, object, label, token, at),
        Mode::HeadNamed(object, head) => head_goes_on(object, head, token),
        Mode::ParameterNaming(object, head) => parameter_named(object, head, token, at),
    }
}

/// An operand was read.
pub fn plain(part: Part) -> Mode
    ensures operand { mode_shape result ≡ states.Have (states.Plain (part_shape part)) }
{
    Mode::Have(Operand::Plain(part))
}

// The label behind a dot.
#[tactic(auto, using(crate::proofs::Refused::dotted_other))]
fn dotted(part: Part, token: Token, at: usize) -> Result<Mode, Stop>
    ensures { Becomes result (dotted_change (part_shape part) token at) }
{
    match token {
        Token::Name(name) => {
            let field = Field {
                receiver: part,
                at,
                label: Label { text: name },
            };
            Ok(Mode::Have(Operand::Access(field)))
        }
        other => refused((part, other)),
    }
}

// The name behind a `let`.
#[tactic(auto, using(crate::proofs::Refused::let_other))]
fn let_named(let_at: usize, token: Token, at: usize) -> Result<Mode, Stop>
    ensures { Becomes result (let_change let_at token at) }
{
    match token {
        Token::Name(name) => Ok(Mode::Opening(Opener::ByEquals, Kind::InBinding(let_at, at, name))),
        other => refused(other),
    }
}

// The `else` of an `if`.
#[tactic(auto, using(crate::proofs::Refused::else_other))]
fn else_came(choice: Choice, token: Token) -> Result<Mode, Stop>
    ensures { let condition = marked_of choice.condition.value in
        let chosen = marked_of choice.chosen.value in
        Becomes result (else_change choice.at condition chosen token) }
{
    match token {
        Token::Else => Ok(Mode::Opening(Opener::ByBrace, Kind::InElse(choice))),
        other => refused((choice, other)),
    }
}

#[tactic(auto, using(crate::proofs::Refused::echo_open_other))]
fn echo_opened(echo_at: usize, token: Token) -> Result<Mode, Stop>
    ensures { Becomes result (echo_open_change echo_at token) }
{
    match token {
        Token::Open => Ok(Mode::EchoText(echo_at)),
        other => refused(other),
    }
}

#[tactic(auto, using(crate::proofs::Refused::echo_read_other))]
fn echo_read(echo_at: usize, token: Token) -> Result<Mode, Stop>
    ensures { Becomes result (echo_read_change echo_at token) }
{
    match token {
        Token::Text(text) => Ok(Mode::EchoClosing(echo_at, text)),
        other => refused(other),
    }
}

#[tactic(auto, using(crate::proofs::Refused::echo_close_other))]
fn echo_closed(alloc: Global, echo_at: usize, text: Word, token: Token) -> Result<Mode, Stop>
    ensures { Becomes result (echo_close_change echo_at text token) }
{
    match token {
        Token::Close => Ok(plain(echo(alloc, echo_at, text)?)),
        other => refused((text, other)),
    }
}

// The label of the service that an `active` begins with.
#[tactic(auto, using(crate::proofs::Refused::service_other))]
fn service_named(at: usize, object: Box<Term>, token: Token, label_at: usize) -> Result<Mode, Stop>
    ensures { Becomes result (service_change at (marked_of object.value) token label_at) }
{
    match token {
        Token::Name(name) => {
            let label = Label { text: name };
            let service = Service {
                at,
                object,
                label_at,
                label,
            };
            Ok(Mode::ServiceNamed(service))
        }
        other => refused((object, other)),
    }
}

// The bracket behind that label.
#[tactic(auto, using(crate::proofs::Refused::service_close_other))]
fn service_closed(alloc: Global, service: Service, token: Token) -> Result<Mode, Stop>
    ensures { let object = marked_of service.object.value in
        let named = closed_change service.at object service.label_at service.label.text token in
        Becomes result named }
{
    match token {
        Token::Close => Ok(plain(active_with(alloc, service)?)),
        other => refused((service, other)),
    }
}

// The bracket behind a `group`.
#[tactic(auto, using(crate::proofs::Refused::group_other))]
fn group_opened(group_at: usize, token: Token) -> Result<Mode, Stop>
    ensures { Becomes result (group_change group_at token) }
{
    match token {
        Token::Open => Ok(Mode::ListBegun(Target::Group(group_at))),
        other => refused(other),
    }
}

// The label behind the first group of a `scatter`.
#[tactic(auto, using(crate::proofs::Refused::scatter_other))]
fn scatter_named(at: usize, group: Box<Term>, token: Token, label_at: usize) -> Result<Mode, Stop>
    ensures { Becomes result (scatter_change at (marked_of group.value) token label_at) }
{
    match token {
        Token::Name(name) => {
            let label = Label { text: name };
            let scatter = Scatter {
                at,
                group,
                label_at,
                label,
            };
            Ok(Mode::Opening(Opener::ByComma, Kind::InArguments(scatter)))
        }
        other => refused((group, other)),
    }
}

// The bracket behind a `serve` or a `pending`.
#[tactic(auto, using(crate::proofs::Refused::serve_other))]
fn serve_opened(alloc: Global, polls: bool, serve_at: usize, token: Token) -> Result<Mode, Stop>
    ensures { Becomes result (opened_change polls serve_at token) }
{
    match token {
        Token::Open => Ok(Mode::ServeBegun(new_labels(alloc, polls, serve_at))),
        other => refused(other),
    }
}

// The first token in a `serve` or a `pending`.
#[tactic(auto, using(crate::proofs::Refused::serve_begun_other))]
fn serve_begun(alloc: Global, labels: Labels, token: Token, at: usize) -> Result<Mode, Stop>
    ensures { Becomes result (begun_change (labels_shape labels) token at) }
{
    match token {
        Token::Close => Ok(plain(served(alloc, labels)?)),
        other => label_named(labels, other, at),
    }
}

// A label of a `serve` or a `pending`.
#[tactic(auto, using(crate::proofs::Refused::label_other))]
fn label_named(mut labels: Labels, token: Token, at: usize) -> Result<Mode, Stop>
    ensures { Becomes result (label_change (labels_shape labels) token at) }
{
    match token {
        Token::Name(name) => match with_label(&mut labels, at, Label { text: name }) {
            Ok(()) => Ok(Mode::LabelNamed(labels)),
            Err(_) => stopped(labels, Stop::Memory),
        },
        other => refused((labels, other)),
    }
}

// A comma or the bracket behind a label of a `serve` or a `pending`.
#[tactic(auto, using(crate::proofs::Refused::labels_other))]
fn labels_go_on(alloc: Global, labels: Labels, token: Token) -> Result<Mode, Stop>
    ensures { Becomes result (labels_change (labels_shape labels) token) }
{
    match token {
        Token::Comma => Ok(Mode::LabelNaming(labels)),
        Token::Close => Ok(plain(served(alloc, labels)?)),
        other => refused((labels, other)),
    }
}
