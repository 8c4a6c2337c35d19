//! What a call leads to.

ghost use Rattle.std.specs.Prelude.{◌≡◌, IfOk, IfSome, drop, length, take};
ghost use Rattle.code_table.specs.Cells.{Object as object_with, coded};
ghost use Rattle.code_table.specs.Places.{placed};
ghost use Rattle.step_rows.specs.Decisions.{IsCallee};

use crate::decision::Decision;
use asp_model::{ActivityName, Fault};
use code_table::{Code, KeyedLabel, MethodCode, Object, Place, Places, View};
use std::alloc::AllocError;

/// What a call leads to.
#[derive(Clone, Copy)]
pub enum Callee<'a> {
    /// A method, and what it captured.
    Method(&'a MethodCode, Places<'a>),
    /// A call to each of these members.
    Members(Places<'a>),
    /// A request to this activity.
    Activity(&'a ActivityName),
    Other(Decision),
}

/// What a method captured, among the places of its object.
fn captured_in<'a>(method: &MethodCode, places: &Places<'a>) -> Option<Places<'a>>
    ensures places { let n = length method.now.captured.items in
        IfSome result (λ cs. placed cs ≡ take n (drop method.now.start (placed places.now))) }
    ensures size { IfSome result (λ cs. length (placed cs) ≡ length method.now.captured.items) }
{
    let Some(end) = method.start.checked_add(method.captured.len()) else {
        return None;
    };
    if end > places.len() {
        return None;
    }
    Some(places.behind(method.start).first(method.captured.len()))
}

#[inline(always)]
fn method_in<'a>(
    code: &'a Code,
    object: Object<'a>,
    label: &KeyedLabel,
    at: Place,
    arguments: &[Place],
) -> Result<Callee<'a>, AllocError>
    ensures callee { let c = object_with object.entry.class (placed object.entry.places) in
        IfOk result (IsCallee code.now c label.now.label.text at arguments.now) }
{
    let Some(class) = code.class(object.class) else {
        return Ok(Callee::Other(Decision::Faults(Fault::NoMethod)));
    };
    let Some(number) = class.method_keyed(label) else {
        return Ok(Callee::Other(Decision::Faults(Fault::NoMethod)));
    };
    let Some(method) = class.methods.get(number) else {
        return Err(AllocError);
    };
    if arguments.len() != method.parameters.len() {
        return Ok(Callee::Other(Decision::Faults(Fault::NoMethod)));
    }
    let Some(captured) = captured_in(method, &object.places) else {
        return Err(AllocError);
    };
    Ok(Callee::Method(method, captured))
}

/// What a call leads to, where this cell is the receiver at a place.
#[inline(always)]
pub fn callee_of<'a>(
    code: &'a Code,
    cell: View<'a>,
    label: &KeyedLabel,
    at: Place,
    arguments: &[Place],
) -> Result<Callee<'a>, AllocError>
    ensures callee { IfOk result
        (IsCallee code.now (coded cell.entry) label.now.label.text at arguments.now) }
{
    match cell {
        View::Object(object) => method_in(code, object, label, at, arguments),
        View::Group(members) => Ok(Callee::Members(members)),
        View::Reference(name) => Ok(Callee::Activity(name)),
        View::Future(_) => Ok(Callee::Other(Decision::Needs(at))),
        View::Number(_) => Ok(Callee::Other(Decision::Faults(Fault::NotObject))),
    }
}
