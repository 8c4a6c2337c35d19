//! How much a checkpoint weighs, and for how much there is memory.

use crate::looks::{behind_methods, behind_term};
use asp_model::{FutureName, Term};
use checkpoint_parts::{ActivityText, CheckpointText, ServiceText};
use checkpoint_reading::{CellText, ParcelText, RequestText};

/// What a checkpoint weighs at most for which there is memory: an item of a line weighs 1, and
/// besides a line, a home, an object or a term that runs or waits, and the names and nodes of these
/// have weights of their own. Some 300,000 activities that answered a request each weigh as much.
pub const MOST_READ_WEIGHT: u64 = 58_720_256;

/// What a line weighs besides its items.
pub const LINE_WEIGHT: u64 = 48;

/// What a home weighs besides its items.
pub const HOME_WEIGHT: u64 = 24;

/// What an object of a store or of a parcel, or a term that runs or waits, weighs besides its
/// items.
pub const PART_WEIGHT: u64 = 12;

// What is left of a weight behind so many things.
fn behind(count: usize, each: u64, weight: u64) -> Option<u64> {
    let all = (count as u64).checked_mul(each)?;
    weight.checked_sub(all)
}

// What is left of a number behind a text in which each of these bytes takes one.
fn behind_bytes(byte: u8, text: &[u8], number: u64) -> Option<u64> {
    let mut left = number;
    for other in text {
        if *other == byte {
            left = left.checked_sub(1)?;
        }
    }
    Some(left)
}

/// A text has no more lines than there is memory for.
pub fn has_few_lines(text: &[u8]) -> bool {
    behind_bytes(b'\n', text, MOST_READ_WEIGHT / LINE_WEIGHT).is_some()
}

/// What is left of `MOST_READ_WEIGHT` behind these lines and their items, if they weigh no more.
pub fn behind_lines(lines: &[&[u8]]) -> Option<u64> {
    let mut left = behind(lines.len(), LINE_WEIGHT, MOST_READ_WEIGHT)?;
    for line in lines {
        left = behind_bytes(b' ', line, left)?;
    }
    Some(left)
}

// What is left of a weight behind a cell, of so many.
fn behind_cell(cell: &CellText, cells: usize, weight: u64) -> Option<u64> {
    match cell {
        CellText::Object { methods, .. } => {
            let left = weight.checked_sub(PART_WEIGHT)?;
            behind_methods(methods, cells, left)
        }
        CellText::Number(_) | CellText::Reference(_) | CellText::Future(_) | CellText::Group(_) =>
            Some(weight),
    }
}

fn behind_cells(cells: &[CellText], weight: u64) -> Option<u64> {
    let mut left = weight;
    for cell in cells {
        left = behind_cell(cell, cells.len(), left)?;
    }
    Some(left)
}

// What is left of a weight behind terms that run or wait, over so many cells.
fn behind_terms(terms: &[Term], cells: usize, weight: u64) -> Option<u64> {
    let mut left = behind(terms.len(), PART_WEIGHT, weight)?;
    for term in terms {
        left = behind_term(term, cells, left)?;
    }
    Some(left)
}

fn behind_requests(requests: &[RequestText], weight: u64) -> Option<u64> {
    let mut left = weight;
    for request in requests {
        left = behind_cells(&request.arguments.cells, left)?;
    }
    Some(left)
}

fn behind_services(services: &[ServiceText], cells: usize, weight: u64) -> Option<u64> {
    let mut left = weight;
    for service in services {
        left = behind_terms(&service.terms, cells, left)?;
    }
    Some(left)
}

fn behind_activity(activity: &ActivityText, weight: u64) -> Option<u64> {
    let state = &activity.parts.work.state;
    let left = behind_requests(&activity.parts.queue, weight)?;
    let left = behind_services(&activity.parts.work.services, state.store.len(), left)?;
    let left = behind_terms(&state.terms, state.store.len(), left)?;
    behind_cells(&state.store, left)
}

fn behind_activities(activities: &[ActivityText], weight: u64) -> Option<u64> {
    let mut left = weight;
    for activity in activities {
        left = behind_activity(activity, left)?;
    }
    Some(left)
}

fn behind_values(values: &[(FutureName, ParcelText)], weight: u64) -> Option<u64> {
    let mut left = weight;
    for (_, value) in values {
        left = behind_cells(&value.cells, left)?;
    }
    Some(left)
}

fn behind_file(file: &CheckpointText, weight: u64) -> Option<u64> {
    let left = behind(file.homes.len(), HOME_WEIGHT, weight)?;
    let left = behind_values(&file.values, left)?;
    behind_activities(&file.activities, left)
}

/// The homes, objects and terms of a checkpoint weigh at most so much.
pub fn is_light(file: &CheckpointText, weight: u64) -> bool {
    behind_file(file, weight).is_some()
}
