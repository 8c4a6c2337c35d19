//! The term that a machine looks at.

ghost use Rattle.std.specs.Prelude.{◌≡◌, IfOk, drop};
ghost use Rattle.asp_model.specs.Shapes.{tree_of};
ghost use Rattle.asp_model.specs.Term.{Tree};
ghost use Rattle.step_machine.specs.Stacks.{last};
ghost use Rattle.step_machine.specs.Standing.{IsFocus, taken};

use crate::cursor::{behind, last_of};
use crate::errors::DecodeError;
use crate::groups::{called_term, dealt_term};
use crate::terms::{call_of, location, redex_of};
use asp_model::Term;
use code_table::Code;
use std::alloc::Global;
use step_machine::{Focus, Machine};

/// How many operands are the focus's own.
pub fn taken_by(focus: Focus) -> usize
    ensures taken { result ≡ taken focus }
{
    match focus {
        Focus::Node { done, .. } => done,
        Focus::Place(_) => 0,
        Focus::Asked(count) => count,
        Focus::Calls { done, .. } => done,
        Focus::Called { count, .. } => count,
    }
}

/// The term that the machine looks at.
pub fn focus_term(alloc: Global, code: &Code, machine: &Machine) -> Result<Term, DecodeError>
    ensures inner { let ns = drop machine.now.base machine.now.env.items in
        let own = last (taken machine.now.focus) machine.now.operands.items in
        (t : Tree) → IsFocus code.now machine.now.asked.label.text ns own machine.now.focus t →
        IfOk result (λ r. tree_of r ≡ t) }
{
    match machine.focus {
        Focus::Node { number, from, done } => {
            if number >= code.nodes().len() {
                return Err(DecodeError::Unfit);
            }
            let places = behind(&machine.env, machine.base);
            let own = last_of(&machine.operands, done);
            redex_of(alloc, code, places, number, from, own)
        }
        Focus::Place(place) => Ok(location(alloc, place)),
        Focus::Asked(count) => {
            let own = last_of(&machine.operands, count);
            call_of(alloc, machine.asked.label.as_label(), own)
        }
        Focus::Calls {
            spread,
            number,
            members,
            done,
        } => {
            let own = last_of(&machine.operands, done);
            dealt_term(alloc, code, spread, number, members, own)
        }
        Focus::Called { number, count } => {
            let own = last_of(&machine.operands, count);
            called_term(alloc, code, number, own)
        }
    }
}
