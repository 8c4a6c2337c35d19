//! The sections of what is told. Each tells its first lines, and how many more there are.

use crate::nearest::Nearest;
use crate::standing::counts::one_more;
use crate::standing::lines::{Told, push_asked};
use crate::text_pieces::Telling;
use asp_model::{ActivityReport, Label, Status};
use code_table::{Kind, MethodCode, Node};
use std::alloc::{AllocError, Global};
use wait_circles::{Circle, Why};

// So many lines of a section are told.
const MOST_LINES: u64 = 20;

/// The section that tells of an activity.
#[derive(Clone, Copy, PartialEq, Eq)]
pub enum Section {
    Faulted,
    /// It waits, and others for it, in a circle.
    Circle,
    Waiting,
    Running,
    /// It is at a `serve` of its own, or in the middle of a service.
    Serving,
    Idle,
    Ended,
}

fn title_of(section: Section) -> &'static str {
    match section {
        Section::Faulted => "stopped at a fault",
        Section::Circle => "in a circle",
        Section::Waiting => "waiting for an answer",
        Section::Running => "can go on",
        Section::Serving => "waiting for a request",
        Section::Idle => "idle",
        Section::Ended => "ended",
    }
}

// How many more lines there would be.
fn push_more(text: &mut Telling, count: u64) {
    if count > MOST_LINES {
        let more = count.saturating_sub(MOST_LINES);
        text.push("  and ");
        text.push_count(more);
        text.push(" more\n");
    }
}

// The title of a section before its first line.
fn push_title(text: &mut Telling, count: u64, title: &str) {
    if count == 0 {
        text.push(title);
        text.push(":\n");
    }
}

// Those of a circle are told there.
fn mark(sections: &mut [Section], circle: &Circle) {
    mark_one(sections, circle.first);
    for number in &circle.others {
        mark_one(sections, *number);
    }
}

fn mark_one(sections: &mut [Section], number: usize) {
    if number < sections.len() {
        sections[number] = Section::Circle;
    }
}

impl Told<'_> {
    fn section_of(&self, number: usize, activity: &ActivityReport) -> Section {
        match &activity.status {
            Status::Faulted(_) => Section::Faulted,
            Status::Awaits(_) => Section::Waiting,
            Status::Running => Section::Running,
            Status::Done => Section::Ended,
            Status::Serving => {
                if self.is_idle(number) {
                    Section::Idle
                } else {
                    Section::Serving
                }
            }
        }
    }

    /// The section of each activity.
    pub fn sections(&self, alloc: Global) -> Result<Vec<Section>, AllocError> {
        let mut sections = Vec::new(alloc);
        let mut number: usize = 0;
        for activity in &self.run.end.outcome.activities {
            sections.push(self.section_of(number, activity))?;
            number = number.saturating_add(1);
        }
        for circle in &self.run.ways.circles {
            mark(&mut sections, circle);
        }
        Ok(sections)
    }

    /// Adds a section.
    pub fn push_section(&self, text: &mut Telling, sections: &[Section], section: Section) {
        let mut count = 0;
        for number in 0..sections.len() {
            if sections[number] != section {
                continue;
            }
            push_title(text, count, title_of(section));
            if count < MOST_LINES {
                self.push_line(text, number);
                self.push_end(text, number);
                text.push("\n");
            }
            count = one_more(count);
        }
        push_more(text, count);
    }

    /// Adds the circles: in each, every activity waits for the next.
    pub fn push_circles(&self, text: &mut Telling) {
        let mut count = 0;
        for circle in &self.run.ways.circles {
            if count < MOST_LINES {
                self.push_circle(text, circle);
            }
            count = one_more(count);
        }
        push_more(text, count);
    }

    fn push_circle(&self, text: &mut Telling, circle: &Circle) {
        let size = circle.others.len().saturating_add(1);
        text.push("circle of ");
        text.push_count(size as u64);
        text.push(", each waits for the next, and the last for the first:\n");
        self.push_line(text, circle.first);
        text.push("\n");
        let mut count = 1;
        for number in &circle.others {
            if count < MOST_LINES {
                self.push_line(text, *number);
                text.push("\n");
            }
            count = one_more(count);
        }
        push_more(text, count);
    }

    // Where the waits of one lead who is in no circle.
    fn push_end(&self, text: &mut Telling, number: usize) {
        match self.run.why(number) {
            Some(Why::Round(circle)) => match self.run.ways.circles.get(circle) {
                Some(circle) => self.push_last(text, circle.first, " is in a circle"),
                None => {}
            },
            Some(Why::Ended(last)) if last != number => {
                self.push_last(text, last, " has ended, and serves no more");
            }
            Some(Why::Faulted(last)) if last != number => {
                self.push_last(text, last, " stopped at a fault");
            }
            Some(Why::Unserved(last)) if last != number => {
                self.push_last(text, last, " waits for another request");
            }
            Some(Why::Values(last)) if last != number => {
                self.push_last(text, last, " waits for a future that leads back to itself");
            }
            Some(Why::Values(_)) => text.push(
                "; the answer is there, and is a future that leads back to itself",
            ),
            Some(_) | None => {}
        }
    }

    fn push_last(&self, text: &mut Telling, last: usize, is: &str) {
        text.push("; ");
        self.push_one(text, last);
        text.push(is);
    }

    /// Adds the requests that nobody serves.
    pub fn push_pending(&self, text: &mut Telling, title: &str) {
        let mut count = 0;
        for activity in &self.run.end.outcome.activities {
            count = self.push_pending_of(text, title, activity, count);
        }
        push_more(text, count);
    }

    // Adds those of one activity behind so many others, and answers how many there are with them.
    fn push_pending_of(
        &self,
        text: &mut Telling,
        title: &str,
        activity: &ActivityReport,
        count: u64,
    ) -> u64 {
        let Some(book) = self.run.books.book(&activity.name) else {
            return count;
        };
        let mut count = count;
        for asked in book.pending.iter() {
            push_title(text, count, title);
            if count < MOST_LINES {
                text.push("  ");
                text.push_name(&activity.name);
                text.push(" has ");
                push_asked(text, asked);
                self.push_unknown(text, &asked.label);
                text.push("\n");
            }
            count = one_more(count);
        }
        count
    }

    // That no object has a method of this name.
    fn push_unknown(&self, text: &mut Telling, label: &Label) {
        let nodes = self.run.end.code.nodes();
        if has_method(nodes, label) {
            return;
        }
        text.push("; no object has a method of that name");
        push_meant(text, nodes, label);
    }
}

// Some object has a method of this name.
fn has_method(nodes: &[Node], label: &Label) -> bool {
    for node in nodes {
        if let Kind::Make(class) = &node.kind {
            if is_among(&class.methods, label) {
                return true;
            }
        }
    }
    false
}

// Which label may be meant.
fn push_meant(text: &mut Telling, nodes: &[Node], label: &Label) {
    let mut nearest = Nearest::to(label.text.as_str());
    for node in nodes {
        if let Kind::Make(class) = &node.kind {
            offer_methods(&mut nearest, &class.methods);
        }
    }
    match nearest.found() {
        Some(meant) => {
            text.push(": is `");
            text.push(meant);
            text.push("` meant?");
        }
        None => {}
    }
}

fn offer_methods<'a>(nearest: &mut Nearest<'_, 'a>, methods: &'a [MethodCode]) {
    for method in methods {
        nearest.offer(method.label.text.as_str());
    }
}

fn is_among(methods: &[MethodCode], label: &Label) -> bool {
    for method in methods {
        if method.label.text.as_str() == label.text.as_str() {
            return true;
        }
    }
    false
}

/// How many activities a section has.
pub fn count_of(sections: &[Section], section: Section) -> u64 {
    let mut count = 0;
    for one in sections {
        if *one == section {
            count = one_more(count);
        }
    }
    count
}
