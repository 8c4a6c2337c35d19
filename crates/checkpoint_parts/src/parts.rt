//! What a checkpoint keeps of activities, as plain data.

use asp_model::{ActivityName, FutureName, Line, Place, Reception, Term};
use checkpoint_reading::{CellText, ParcelText, RequestText};

/// A suspended service.
#[derive(Drop)]
pub struct ServiceText {
    /// The hole that its `serve` left, and then the contexts round it, innermost first.
    pub terms: Vec<Term>,
    pub future: Option<FutureName>,
}

/// Where an activity stands.
#[derive(Drop)]
pub struct StateText {
    /// Its place alone, or its redex and then the contexts round it, innermost first.
    pub terms: Vec<Term>,
    pub store: Vec<CellText>,
    pub active: Place,
}

/// What an activity works at.
#[derive(Drop)]
pub struct WorkText {
    /// The future that it has to answer.
    pub present: Option<FutureName>,
    pub services: Vec<ServiceText>,
    pub state: StateText,
}

/// What an activity printed, received and works at.
#[derive(Drop)]
pub struct PartsText {
    pub lines: Vec<Line>,
    pub log: Vec<Reception>,
    pub queue: Vec<RequestText>,
    pub work: WorkText,
}

/// An activity.
#[derive(Drop)]
pub struct ActivityText {
    pub name: ActivityName,
    pub reductions: u64,
    pub sends: u32,
    pub creations: u32,
    pub parts: PartsText,
}

/// What a checkpoint keeps.
#[derive(Drop)]
pub struct CheckpointText {
    /// Each future with the activity that received its request.
    pub homes: Vec<(FutureName, ActivityName)>,
    /// Each future that has a value, with it.
    pub values: Vec<(FutureName, ParcelText)>,
    /// In the order of creation.
    pub activities: Vec<ActivityText>,
}
