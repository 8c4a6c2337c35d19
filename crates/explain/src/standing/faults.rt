//! What was wrong where an activity stopped at a fault.

use crate::standing::operands::{Stopped, sign_text};
use crate::text_pieces::Telling;
use asp_model::{Fault, Sign};
use code_table::Kind;

/// What a fault is, where no node tells more.
pub fn fault_text(fault: Fault) -> &'static str {
    match fault {
        Fault::NoField => "the object has no such field",
        Fault::NoMethod => "the object has no method of that name with so many parameters",
        Fault::NotObject => "an object is needed",
        Fault::NotNumber => "a number is needed",
        Fault::NotGroup => "a group is needed",
        Fault::BadMember => "the group has no such member, or two groups differ in size",
        Fault::ActiveField => "the fields of an activity are its own",
        Fault::Overflow => "the result is outside 64 bits",
        Fault::ZeroDivisor => "the divisor is 0",
    }
}

// The two operands of a sign.
fn push_signed(text: &mut Telling, stopped: Stopped<'_>, sign: Sign) {
    text.push(" (");
    stopped.push_operand(text, 0);
    text.push(" ");
    text.push(sign_text(sign));
    text.push(" ");
    stopped.push_operand(text, 1);
    text.push(")");
}

// The last of what is asked of the first operand.
fn push_of(text: &mut Telling, stopped: Stopped<'_>, asked: &str) {
    text.push(asked);
    text.push(" of ");
    stopped.push_operand(text, 0);
    text.push(")");
}

// A label that was asked for.
fn push_asked(text: &mut Telling, stopped: Stopped<'_>, label: &str) {
    text.push(" (`");
    text.push(label);
    push_of(text, stopped, "`");
}

fn push_given(text: &mut Telling, stopped: Stopped<'_>, name: &str) {
    text.push(" (");
    push_of(text, stopped, name);
}

// The two operands of a member.
fn push_member(text: &mut Telling, stopped: Stopped<'_>) {
    text.push(" (member ");
    stopped.push_operand(text, 1);
    push_of(text, stopped, "");
}

/// Adds what the operands of the node were.
pub fn push_operands(text: &mut Telling, stopped: Stopped<'_>) {
    match &stopped.node.kind {
        Kind::Operate(sign) => push_signed(text, stopped, *sign),
        Kind::Get(label) | Kind::Put(label) | Kind::Call(label) | Kind::Scatter(label) => {
            push_asked(text, stopped, label.label.as_label().text.as_str())
        }
        Kind::Print => push_given(text, stopped, "print"),
        Kind::If => push_given(text, stopped, "if"),
        Kind::Size => push_given(text, stopped, "size"),
        Kind::Clone => push_given(text, stopped, "clone"),
        Kind::Active(_) => push_given(text, stopped, "active"),
        Kind::WaitAll => push_given(text, stopped, "waitall"),
        Kind::Member => push_member(text, stopped),
        _ => {}
    }
}
