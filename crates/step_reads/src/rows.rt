//! What a redex comes to, by its operands as they are read.

ghost use Rattle.std.specs.Prelude.{◌≡◌, length};
ghost use Rattle.asp_model.specs.Shapes.{sign_shape};
ghost use Rattle.asp_model.specs.Term.{has_text};
ghost use Rattle.code_table.specs.Classes.{class_at};
ghost use Rattle.code_table.specs.Shapes.{class_object};
ghost use Rattle.code_table.specs.Places.{placed};
ghost use Rattle.step_reads.specs.Faces.{
  at_call as call_at,
  at_field as field_at,
  at_group as group_at,
  at_member as member_at,
  at_number as number_at,
  at_number_of as number_of_at,
  at_object as object_at,
  at_scatter as scatter_at,
  at_sign as sign_at,
  field_labels,
  has_count,
  head_at,
  face,
  face_number,
  group_size,
  method_heads,
  prospect_at,
};
ghost use Rattle.step_reads.specs.Prospects.{prospect_shape};
ghost use Rattle.step_reads.specs.Sights.{seen_face};

use crate::prospect::Prospect;
use crate::seen::Seen;
use asp_model::{Fault, Label, Sign};
use code_table::{Code, Object, Places};
use step_rows::{Redex, operate};

fn has_field(object: Object, code: &Code, label: &Label) -> bool
    ensures field { let c = class_object code.now (placed object.entry.places)
        (class_at code.now object.entry.class) in
        result ≡ has_text label.now.text (field_labels (face c)) }
{
    let Some(class) = code.class(object.class) else {
        return false;
    };
    let Some(number) = class.field(label) else {
        return false;
    };
    number < object.places.len()
}

/// It has a method with this label, and with so many parameters.
fn has_method(object: Object, code: &Code, label: &Label, count: usize) -> bool
    ensures method { let c = class_object code.now (placed object.entry.places)
        (class_at code.now object.entry.class) in
        result ≡ has_count count (head_at label.now.text (method_heads (face c))) }
{
    let Some(class) = code.class(object.class) else {
        return false;
    };
    let Some(number) = class.method(label) else {
        return false;
    };
    match class.methods.get(number) {
        Some(method) => method.parameters.len() == count,
        None => false,
    }
}

fn at_field<'a>(seen: Seen<'a>, label: &Label) -> Prospect<'a>
    ensures { prospect_shape result ≡ field_at label.now.text (seen_face seen.entry) }
{
    match seen {
        Seen::Reference(_) => Prospect::Stops(Fault::ActiveField),
        Seen::Object(object, code) => {
            if has_field(object, code, label) {
                Prospect::Goes
            } else {
                Prospect::Stops(Fault::NoField)
            }
        }
        Seen::Number(_) | Seen::Future(_) | Seen::Group(_) => Prospect::Stops(Fault::NotObject),
    }
}

fn at_call<'a>(seen: Seen<'a>, label: &Label, count: usize) -> Prospect<'a>
    ensures { prospect_shape result ≡ call_at label.now.text count (seen_face seen.entry) }
{
    match seen {
        Seen::Number(_) => Prospect::Stops(Fault::NotObject),
        Seen::Future(_) => Prospect::Still,
        Seen::Reference(name) => Prospect::GoesTo(name),
        Seen::Object(object, code) => {
            if has_method(object, code, label, count) {
                Prospect::Goes
            } else {
                Prospect::Stops(Fault::NoMethod)
            }
        }
        Seen::Group(_) => Prospect::Goes,
    }
}

fn at_group<'a>(seen: Seen<'a>) -> Prospect<'a>
    ensures { prospect_shape result ≡ group_at (seen_face seen.entry) }
{
    match seen {
        Seen::Group(_) => Prospect::Goes,
        Seen::Number(_) => Prospect::Stops(Fault::NotGroup),
        Seen::Object(_, _) => Prospect::Stops(Fault::NotGroup),
        Seen::Reference(_) => Prospect::Stops(Fault::NotGroup),
        Seen::Future(_) => Prospect::Stops(Fault::NotGroup),
    }
}

/// What is the size of a group.
fn size_of(seen: Seen) -> Option<usize>
    ensures size { result ≡ group_size (seen_face seen.entry) }
{
    match seen {
        Seen::Group(members) => Some(members.len()),
        Seen::Number(_) => None,
        Seen::Object(_, _) => None,
        Seen::Reference(_) => None,
        Seen::Future(_) => None,
    }
}

fn number_of(seen: Seen) -> Option<i64>
    ensures number { result ≡ face_number (seen_face seen.entry) }
{
    match seen {
        Seen::Number(n) => Some(n),
        Seen::Group(_) => None,
        Seen::Object(_, _) => None,
        Seen::Reference(_) => None,
        Seen::Future(_) => None,
    }
}

fn at_scatter<'a>(first: Seen, second: Seen) -> Prospect<'a>
    ensures { let other = seen_face second.entry in
        prospect_shape result ≡ scatter_at (seen_face first.entry) other }
{
    match (size_of(first), size_of(second)) {
        (Some(size), Some(other)) => {
            if size == other {
                Prospect::Goes
            } else {
                Prospect::Stops(Fault::BadMember)
            }
        }
        _ => Prospect::Stops(Fault::NotGroup),
    }
}

/// Of so many members the one with a number.
fn at_number_of<'a>(size: usize, number: i64) -> Prospect<'a>
    ensures { prospect_shape result ≡ number_of_at size number }
{
    match usize::try_from(number) {
        Ok(at) if at < size => Prospect::Goes,
        _ => Prospect::Stops(Fault::BadMember),
    }
}

fn at_member<'a>(group: Seen, number: Seen) -> Prospect<'a>
    ensures { prospect_shape result ≡ member_at (seen_face group.entry) (seen_face number.entry) }
{
    match size_of(group) {
        Some(size) => match number_of(number) {
            Some(n) => at_number_of(size, n),
            None => Prospect::Stops(Fault::NotNumber),
        },
        None => Prospect::Stops(Fault::NotGroup),
    }
}

fn at_object<'a>(seen: Seen<'a>) -> Prospect<'a>
    ensures { prospect_shape result ≡ object_at (seen_face seen.entry) }
{
    match seen {
        Seen::Object(_, _) => Prospect::Goes,
        _ => Prospect::Stops(Fault::NotObject),
    }
}

fn at_number<'a>(seen: Seen<'a>) -> Prospect<'a>
    ensures { prospect_shape result ≡ number_at (seen_face seen.entry) }
{
    match seen {
        Seen::Number(_) => Prospect::Goes,
        _ => Prospect::Stops(Fault::NotNumber),
    }
}

fn at_sign<'a>(sign: Sign, first: Seen<'a>, second: Seen<'a>) -> Prospect<'a>
    ensures { prospect_shape result
        ≡ sign_at (sign_shape sign) (seen_face first.entry) (seen_face second.entry) }
{
    match (first, second) {
        (Seen::Number(x), Seen::Number(y)) => match operate(sign, x, y) {
            Ok(_) => Prospect::Goes,
            Err(fault) => Prospect::Stops(fault),
        },
        _ => Prospect::Stops(Fault::NotNumber),
    }
}

/// What a redex comes to, by its first and its second strict operand.
pub fn by_operands<'a>(redex: Redex, first: Seen<'a>, second: Seen<'a>) -> Prospect<'a>
    ensures prospect { prospect_shape result
        ≡ prospect_at redex.entry (seen_face first.entry) (seen_face second.entry) }
{
    match redex {
        Redex::Get(_, label) | Redex::Put(_, label, _) => at_field(first, label),
        Redex::Call(_, label, arguments) => at_call(first, label.as_label(), arguments.len()),
        Redex::Active(_, _) => at_object(first),
        Redex::If(_) | Redex::Print(_) => at_number(first),
        Redex::Operate(sign, _, _) => at_sign(sign, first, second),
        Redex::Scatter(_, _, _) => at_scatter(first, second),
        Redex::Member(_, _) => at_member(first, second),
        Redex::Size(_) | Redex::WaitAll(_) => at_group(first),
        Redex::Serve(_) => Prospect::Asks,
        Redex::Pending(_) => Prospect::Polls,
        Redex::Goes | Redex::Clone(_) => Prospect::Goes,
    }
}
