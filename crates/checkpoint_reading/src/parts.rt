//! What a checkpoint keeps, as plain data.

use asp_model::{ActivityName, FutureName, Label, Method, Place};

/// A cell of a store.
#[derive(Drop)]
pub enum CellText {
    Number(i64),
    Object {
        fields: Vec<(Label, Place)>,
        methods: Vec<Method>,
    },
    Reference(ActivityName),
    Future(FutureName),
    Group(Vec<Place>),
}

/// Cells, and the places among them that are passed.
#[derive(Drop)]
pub struct ParcelText {
    pub cells: Vec<CellText>,
    pub roots: Vec<Place>,
}

/// A pending request.
#[derive(Drop)]
pub struct RequestText {
    pub label: Label,
    pub sender: ActivityName,
    pub future: FutureName,
    pub arguments: ParcelText,
}
