//! What is drawn of a run.

/// What an activity does, drawn on its line. Another activity is told by the place of its line.
#[derive(Clone, Copy)]
pub enum Mark {
    Makes(usize),
    /// A request goes to another line.
    Sends(usize),
    /// A service begins.
    Serves,
    /// The newest service ends.
    Answers,
    Polls,
    Prints,
    /// It stops at a fault.
    Fails,
}

/// What happens, in the order of the run.
#[derive(Drop)]
pub struct Event {
    pub lane: usize,
    pub mark: Mark,
    /// The label of the request that is sent or served, what is printed, or the fault.
    pub text: String,
    /// It is drawn in red.
    pub stands_out: bool,
}

/// Where an activity stands in the end.
#[derive(Clone, Copy)]
pub enum Rest {
    Done,
    /// It waits for a request.
    Serving,
    Running,
    /// More happens than is drawn.
    Further,
    /// It waits for an answer, of the activity with this line if one has to give it.
    Awaits(Option<usize>),
    Failed,
}

/// An activity.
#[derive(Drop)]
pub struct Lane {
    pub name: String,
    pub rest: Rest,
}

/// A run.
#[derive(Drop)]
pub struct Run {
    pub lanes: Vec<Lane>,
    pub events: Vec<Event>,
}

// For whom an activity waits.
fn next_of(lanes: &[Lane], lane: usize) -> Option<usize> {
    match lanes.get(lane)?.rest {
        Rest::Awaits(to) => to,
        _ => None,
    }
}

/// Whether an activity stands in a circle of waiting.
pub fn is_in_circle(lanes: &[Lane], lane: usize) -> bool {
    let mut at = lane;
    for _ in 0..lanes.len() {
        match next_of(lanes, at) {
            Some(next) if next == lane => return true,
            Some(next) => at = next,
            None => return false,
        }
    }
    false
}
