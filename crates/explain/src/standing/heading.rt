//! How a run stands, in a line.

use crate::standing::counts::Counts;
use crate::text_pieces::Telling;
use asp_model::Verdict;

// So many of something.
fn push_count(text: &mut Telling, count: u64, one: &str, more: &str) {
    text.push_count(count);
    text.push(if count == 1 { one } else { more });
}

// Why nothing goes on, or that it could.
fn push_verdict(text: &mut Telling, verdict: Verdict, counts: Counts) {
    match verdict {
        Verdict::Blocked => {
            text.push("blocked: ");
            push_count(
                text,
                counts.waiting,
                " activity waits for an answer that cannot come",
                " activities wait for answers that cannot come",
            );
        }
        Verdict::Budget => {
            text.push("cut off by its budget: ");
            push_count(
                text,
                counts.running,
                " activity can go on",
                " activities can go on",
            );
        }
        Verdict::End => text.push("end"),
    }
}

/// Adds how a run stands to a text: its verdict, its faults, and the requests that nobody serves.
pub fn push_heading(text: &mut Telling, verdict: Verdict, counts: Counts) {
    push_verdict(text, verdict, counts);
    if counts.faulted > 0 {
        text.push(", ");
        push_count(
            text,
            counts.faulted,
            " activity stopped at a fault",
            " activities stopped at faults",
        );
    }
    if counts.pending > 0 {
        text.push(match verdict {
            Verdict::End => ", but ",
            Verdict::Blocked | Verdict::Budget => ", ",
        });
        push_pending(text, verdict, counts.pending);
    }
    if is_plain(verdict, counts) {
        text.push(": nobody waits for an answer, and no request is pending");
    }
    text.push("\n");
}

// There is nothing more to tell.
fn is_plain(verdict: Verdict, counts: Counts) -> bool {
    matches!(verdict, Verdict::End) && counts.faulted == 0 && counts.pending == 0
}

// The requests that are pending.
fn push_pending(text: &mut Telling, verdict: Verdict, pending: u64) {
    match verdict {
        Verdict::End | Verdict::Blocked => push_count(
            text,
            pending,
            " request is never served",
            " requests are never served",
        ),
        Verdict::Budget => push_count(
            text,
            pending,
            " request is not served yet",
            " requests are not served yet",
        ),
    }
}
