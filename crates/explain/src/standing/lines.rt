//! What a line tells of one activity: where it stands, what it serves, and what it does.

use crate::standing::faults::{fault_text, push_operands};
use crate::standing::operands::Stopped;
use crate::standing::places::{byte_of, node_of, push_place};
use crate::text_pieces::Telling;
use asp_model::{ActivityReport, Fault, FutureName, Label, Status};
use code_table::{EMPTY_NUMBER, Kind, Node, SERVE_NUMBER};
use run_ends::EndState;
use run_waits::{Asked, Explained};
use step_machine::node_at;
use wait_circles::Target;

/// A program's text and a run of it.
#[derive(Clone, Copy)]
pub struct Told<'a> {
    pub file: &'a str,
    pub bytes: &'a [u8],
    pub run: &'a Explained,
}

// Labels, with commas between them.
fn push_labels(text: &mut Telling, labels: &[Label]) {
    let mut between = "";
    for label in labels {
        text.push(between);
        text.push(label.text.as_str());
        between = ", ";
    }
}

/// Adds a label to a text.
pub fn push_label(text: &mut Telling, label: &Label) {
    text.push("`");
    text.push(label.text.as_str());
    text.push("`");
}

/// Adds a request to a text: its label, and who asked.
pub fn push_asked(text: &mut Telling, asked: &Asked) {
    push_label(text, &asked.label);
    text.push(" of ");
    text.push_name(&asked.future.by);
}

impl Told<'_> {
    fn nodes(&self) -> &[Node] {
        self.run.end.code.nodes()
    }

    fn activity(&self, number: usize) -> Option<&ActivityReport> {
        self.run.end.outcome.activities.get(number)
    }

    /// Adds the name of an activity, by its number.
    pub fn push_one(&self, text: &mut Telling, number: usize) {
        match self.activity(number) {
            Some(activity) => text.push_name(&activity.name),
            None => {}
        }
    }

    // The node at which an activity stands, by numbers.
    fn node_number(&self, number: usize) -> Option<usize> {
        let state = self.run.end.state(number)?;
        node_of(self.nodes(), state)
    }

    /// An activity stands at the `serve` that every activity begins with that has no method of its own
    /// to begin with.
    pub fn is_idle(&self, number: usize) -> bool {
        self.node_number(number) == Some(SERVE_NUMBER)
    }

    // Where it stands in the text.
    fn push_at(&self, text: &mut Telling, number: usize) {
        let Some(node) = self.node_number(number) else {
            return;
        };
        if node <= EMPTY_NUMBER {
            return;
        }
        match byte_of(self.nodes(), node) {
            Some(at) => {
                text.push(" at ");
                push_place(text, self.file, self.bytes, at);
            }
            None => {}
        }
    }

    // Which request it serves.
    fn push_service(&self, text: &mut Telling, activity: &ActivityReport) {
        let Some(book) = self.run.books.book(&activity.name) else {
            return;
        };
        match book.serving.last() {
            Some(asked) => {
                text.push(", serving ");
                push_asked(text, asked);
            }
            None => {}
        }
    }

    /// Adds a whole line on an activity: who, where in the text, in which service, and what it does.
    pub fn push_line(&self, text: &mut Telling, number: usize) {
        let Some(activity) = self.activity(number) else {
            return;
        };
        text.push("  ");
        text.push_name(&activity.name);
        self.push_at(text, number);
        self.push_service(text, activity);
        if matches!(activity.status, Status::Running) {
            return;
        }
        text.push(": ");
        self.push_deed(text, number, activity);
    }

    // What it does.
    fn push_deed(&self, text: &mut Telling, number: usize, activity: &ActivityReport) {
        match &activity.status {
            Status::Done => text.push("has ended"),
            Status::Serving => self.push_standing(text, number, activity),
            Status::Running => text.push("can go on"),
            Status::Awaits(future) => self.push_awaited(text, future),
            Status::Faulted(fault) => self.push_fault(text, number, *fault),
        }
    }

    // The request whose answer is awaited.
    fn push_awaited(&self, text: &mut Telling, future: &FutureName) {
        match self.run.receipts.target(future) {
            Some(target) => {
                text.push("waits for ");
                text.push_name(&target.to);
                text.push(" to answer ");
                push_label(text, &target.label);
                self.push_sent(text, target);
            }
            None => text.push("waits for an answer"),
        }
    }

    // Where in the text a request was sent.
    fn push_sent(&self, text: &mut Telling, target: &Target) {
        match target.at {
            Some(at) => {
                text.push(", sent at ");
                push_place(text, self.file, self.bytes, at);
            }
            None => {}
        }
    }

    // The `serve` at which it stands, and what it answered before.
    fn push_standing(&self, text: &mut Telling, number: usize, activity: &ActivityReport) {
        text.push("waits for a request");
        self.push_served(text, number);
        let Some(book) = self.run.books.book(&activity.name) else {
            return;
        };
        match &book.answered {
            Some(asked) => {
                text.push("; it answered ");
                push_asked(text, asked);
                text.push(" last");
            }
            None => {}
        }
    }

    // The labels of a `serve`.
    fn push_served(&self, text: &mut Telling, number: usize) {
        let Some(number) = self.node_number(number) else {
            return;
        };
        let Some(node) = node_at(self.nodes(), number) else {
            return;
        };
        match &node.kind {
            Kind::Serve(labels) => {
                text.push(", `serve(");
                push_labels(text, labels);
                text.push(")`");
            }
            _ => {}
        }
    }

    // The fault, and the operands of its node.
    fn push_fault(&self, text: &mut Telling, number: usize, fault: Fault) {
        text.push(fault_text(fault));
        let Some(state) = self.run.end.state(number) else {
            return;
        };
        let nodes = self.nodes();
        let Some(at) = node_of(nodes, state) else {
            return self.push_call(text, state);
        };
        match node_at(nodes, at) {
            Some(node) => push_operands(text, Stopped { nodes, state, node }),
            None => {}
        }
    }

    // The call that a service began with.
    fn push_call(&self, text: &mut Telling, state: &EndState) {
        text.push(" (");
        push_label(text, state.machine.asked.label.as_label());
        text.push(")");
    }
}
