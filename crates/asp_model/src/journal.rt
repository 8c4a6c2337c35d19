//! What a run of the core is told by: its start, and an entry for each lend, commit and delivery.

use crate::{ActivityName, FutureName, Place, Program};
use std::marker::Model;

/// What is done for an activity that was passed a future, as a policy chooses it.
#[derive(Clone, Copy, Debug, PartialEq, Eq)]
pub enum Choice {
    /// Its value comes from the activity that passed the future, when that one has received it.
    Forward,
    /// Its value comes from the activity that answers the request, when it is there.
    FromHome,
    /// Its value comes when it is needed.
    Leave,
}

/// A value of a future that goes to an activity.
#[derive(Drop)]
pub enum Delivery {
    /// To each place that holds the future, since one activity passed it to another.
    Edge {
        future: FutureName,
        from: ActivityName,
        to: ActivityName,
    },
    /// To one place, where it is needed.
    Need {
        future: FutureName,
        to: ActivityName,
        loc: Place,
    },
}

/// One line of a journal. Activities are numbered from 0, in the order in which they were created.
#[derive(Drop)]
pub enum Entry {
    /// An activity was lent.
    Lent(u32),
    /// It came back after so many reductions.
    Committed { number: u32, reductions: u64 },
    Delivered(Box<Delivery>),
}

/// What a run begins with.
#[derive(Drop)]
pub struct Start {
    pub program: Program,
    pub budget: u64,
}

/// A start and the entries since, as contracts speak of them. No value of it is made.
pub struct History {
    nothing: u8,
}

impl Model for History {
    ghost use Rattle.asp_model.specs.History.{HistoryShape, history_coded, no_history};

    ghost Value = { HistoryShape };

    ghost coded = { history_coded };

    ghost view = { λ _. no_history };
}
