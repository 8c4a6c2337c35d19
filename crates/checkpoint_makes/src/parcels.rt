//! Parcels, and requests with their arguments.

ghost use Rattle.std.specs.Prelude.{◌≡◌, IfOk, map};
ghost use Rattle.std.specs.Arc.{arc_value};
ghost use Rattle.code_compiler.specs.Compiled.{IsTable};
ghost use Rattle.code_table.specs.Shapes.{parcel_shape as shape_of_parcel};
ghost use Rattle.law_steps.specs.Linked.{Each};
ghost use Rattle.checkpoint_reading.specs.Cells.{parcel_shape, request_shape};
ghost use Rattle.checkpoint_makes.specs.Cells.{AreProper};
ghost use Rattle.checkpoint_makes.specs.Parcels.{
  AreMadeRequests,
  IsMadeParcel,
  IsMadeRequest,
  IsProperRequest,
  parcel_by,
};

use crate::cells::{make_cells, make_future, shorts};
use asp_model::ActivityName;
use checkpoint_reading::{ParcelText, RequestText};
use code_table::{Cells, Code, Future, Node, Parcel, Roots, SharedLabel};
use std::alloc::{AllocError, Global};
use std::sync::Arc;

/// A parcel whose code still grows.
#[derive(Drop)]
pub struct MadeParcel {
    pub cells: Cells,
    pub roots: Roots,
}

/// A pending request whose code still grows.
#[derive(Drop)]
pub struct MadeRequest {
    pub label: SharedLabel,
    pub sender: ActivityName,
    pub future: Arc<Future>,
    pub arguments: MadeParcel,
}

/// Makes a parcel.
pub fn make_parcel(
    alloc: Global,
    nodes: &mut Vec<Node>,
    parcel: ParcelText,
) -> Result<MadeParcel, AllocError>
    requires table { IsTable nodes.old.items }
    requires proper { AreProper parcel.cells.items }
    ensures made { let p = parcel_shape parcel in
        IfOk result (λ x. IsMadeParcel nodes.old.items nodes.new.items x p) }
{
    let ParcelText { cells, roots } = parcel;
    let columns = make_cells(alloc, nodes, cells)?;
    let places = shorts(alloc, &roots)?;
    let roots = Roots::of(places);
    let cells = Cells::of(alloc, columns)?;
    Ok(MadeParcel { cells, roots })
}

fn make_request(
    alloc: Global,
    nodes: &mut Vec<Node>,
    request: RequestText,
) -> Result<MadeRequest, AllocError>
    requires table { IsTable nodes.old.items }
    requires proper { IsProperRequest (request_shape request) }
    ensures made { let r = request_shape request in
        IfOk result (λ x. IsMadeRequest nodes.old.items nodes.new.items x r) }
{
    let RequestText {
        label,
        sender,
        future,
        arguments,
    } = request;
    let arguments = make_parcel(alloc, nodes, arguments)?;
    let future = make_future(alloc, future)?;
    Ok(MadeRequest {
        label: SharedLabel::alone(label),
        sender,
        future,
        arguments,
    })
}

/// Makes pending requests.
pub fn make_requests(
    alloc: Global,
    nodes: &mut Vec<Node>,
    requests: Vec<RequestText>,
) -> Result<Vec<MadeRequest>, AllocError>
    requires table { IsTable nodes.old.items }
    requires proper { Each IsProperRequest (map request_shape requests.items) }
    ensures made { let rs = map request_shape requests.items in
        IfOk result (λ v. AreMadeRequests nodes.old.items nodes.new.items v.items rs) }
{
    let mut made = Vec::with_capacity(alloc, requests.len())?;
    for request in requests {
        made.push(make_request(alloc, nodes, request)?)?;
    }
    Ok(made)
}

impl MadeParcel {
    /// The parcel, once its code is whole.
    pub fn with_code(self, code: &Arc<Code>) -> Result<Parcel, AllocError>
        ensures parcel { let p = parcel_by (arc_value code.now) self in
            IfOk result (λ x. shape_of_parcel x ≡ p) }
        ensures code { IfOk result (λ x. arc_value x.code ≡ arc_value code.now) }
    {
        let code = Arc::try_clone(code)?;
        let MadeParcel { cells, roots } = self;
        Ok(Parcel { code, cells, roots })
    }
}
