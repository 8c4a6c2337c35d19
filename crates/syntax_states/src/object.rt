//! Modes in objects, field by field and method by method.

ghost use Rattle.std.specs.Prelude.{◌≡◌, OnOk};
ghost use Rattle.syntax_grammar.specs.Nodes.{with_parameter as one_parameter};
ghost use Rattle.syntax_grammar.specs.States.{with_name as one_name};
ghost use Rattle.syntax_grammar.specs.Changes.{object_begun as begun_change, field_named as field_change, method_named as method_change, method_opened as opened_change, self_named as self_change, head_goes_on as head_change, parameter_named as parameter_change};
ghost use Rattle.syntax_terms.specs.Shapes.{object_shape, head_shape};
ghost use Rattle.syntax_states.specs.Answers.{Becomes};

use crate::change::plain;
use crate::state::{Mode, Opener};
use asp_model::{Label, Word};
use std::alloc::{AllocError, Global};
use syntax_terms::{
    Head, Kind, Object, Stop, made, new_head, refused, stopped, with_name, with_parameter,
};
use syntax_tokens::Token;

/// The first token in an object.
#[tactic(auto, using(crate::proofs::Refused::object_other))]
pub fn object_begun(alloc: Global, object: Object, token: Token, at: usize) -> Result<Mode, Stop>
    ensures { Becomes result (begun_change (object_shape object) token at) }
{
    match token {
        Token::Semicolon => Ok(Mode::MethodNaming(object)),
        Token::SquareClose => Ok(plain(made(alloc, object)?)),
        other => field_named(object, other, at),
    }
}

/// The name of a field.
#[tactic(auto, using(crate::proofs::Refused::field_other))]
pub fn field_named(mut object: Object, token: Token, at: usize) -> Result<Mode, Stop>
    ensures { Becomes result (field_change (object_shape object) token at) }
{
    match token {
        Token::Name(name) => match with_name(&mut object, at) {
            Ok(()) => {
                let kind = Kind::InField(object, Label { text: name });
                Ok(Mode::Opening(Opener::ByEquals, kind))
            }
            Err(_) => stopped((object, name), Stop::Memory),
        },
        other => refused((object, other)),
    }
}

/// The name of a method.
#[tactic(auto, using(crate::proofs::Refused::method_other))]
pub fn method_named(mut object: Object, token: Token, at: usize) -> Result<Mode, Stop>
    ensures { Becomes result (method_change (object_shape object) token at) }
{
    match token {
        Token::Name(name) => match with_name(&mut object, at) {
            Ok(()) => Ok(Mode::MethodNamed(object, Label { text: name })),
            Err(_) => stopped((object, name), Stop::Memory),
        },
        other => refused((object, other)),
    }
}

/// The bracket behind the name of a method.
#[tactic(auto, using(crate::proofs::Refused::opened_other))]
pub fn method_opened(object: Object, label: Label, token: Token) -> Result<Mode, Stop>
    ensures { Becomes result (opened_change (object_shape object) label.text token) }
{
    match token {
        Token::Open => Ok(Mode::SelfNaming(object, label)),
        other => refused((object, label, other)),
    }
}

/// The name of self.
#[tactic(auto, using(crate::proofs::Refused::self_other))]
pub fn self_named(
    alloc: Global,
    mut object: Object,
    label: Label,
    token: Token,
    at: usize,
) -> Result<Mode, Stop>
    ensures { Becomes result (self_change (object_shape object) label.text token at) }
{
    match token {
        Token::Name(slf) => match with_name(&mut object, at) {
            Ok(()) => Ok(Mode::HeadNamed(object, new_head(alloc, label, slf))),
            Err(_) => stopped((object, label, slf), Stop::Memory),
        },
        other => refused((object, label, other)),
    }
}

/// A comma or the bracket behind a name in a method's head.
#[tactic(auto, using(crate::proofs::Refused::head_other))]
pub fn head_goes_on(object: Object, head: Head, token: Token) -> Result<Mode, Stop>
    ensures { Becomes result (head_change (object_shape object) (head_shape head) token) }
{
    match token {
        Token::Comma => Ok(Mode::ParameterNaming(object, head)),
        Token::Close => Ok(Mode::Opening(Opener::ByEquals, Kind::InMethod(object, head))),
        other => refused((object, head, other)),
    }
}

/// The name of a parameter.
#[tactic(auto, using(crate::proofs::Refused::parameter_other))]
pub fn parameter_named(
    mut object: Object,
    mut head: Head,
    token: Token,
    at: usize,
) -> Result<Mode, Stop>
    ensures { Becomes result (parameter_change (object_shape object) (head_shape head) token at) }
{
    match token {
        Token::Name(name) => match with_names(&mut object, &mut head, at, name) {
            Ok(()) => Ok(Mode::HeadNamed(object, head)),
            Err(_) => stopped((object, head), Stop::Memory),
        },
        other => refused((object, head, other)),
    }
}

fn with_names(object: &mut Object, head: &mut Head, at: usize, name: Word) -> Result<(), AllocError>
    ensures object { OnOk result (object_shape object.new ≡ one_name (object_shape object.old) at) }
    ensures head { OnOk result (head_shape head.new ≡ one_parameter (head_shape head.old) name) }
{
    with_parameter(head, name)?;
    with_name(object, at)
}
