//! Why a run stands as it does: its circles of waiting and who waits behind them, what each activity
//! does and where in the text, and which requests nobody serves.

use crate::standing::counts::counts_of;
use crate::standing::heading::push_heading;
use crate::standing::lines::Told;
use crate::standing::sections::{Section, count_of};
use crate::text_pieces::Telling;
use asp_model::Verdict;
use run_waits::Explained;
use std::alloc::{AllocError, Global};

mod counts;
mod faults;
mod heading;
mod lines;
mod operands;
mod places;
mod sections;

/// Tells why a run of the program in a file stands as it does.
pub fn tell_run(
    alloc: Global,
    file: &str,
    bytes: &[u8],
    run: &Explained,
) -> Result<String, AllocError> {
    let told = Told { file, bytes, run };
    let counts = counts_of(run);
    let verdict = run.end.outcome.verdict;
    let sections = told.sections(alloc)?;
    let mut text = Telling::new(alloc);
    push_heading(&mut text, verdict, counts);
    if matches!(verdict, Verdict::End) {
        told.push_pending(&mut text, "never served");
    }
    told.push_section(&mut text, &sections, Section::Faulted);
    told.push_circles(&mut text);
    told.push_section(&mut text, &sections, Section::Waiting);
    told.push_section(&mut text, &sections, Section::Running);
    told.push_section(&mut text, &sections, Section::Serving);
    if !matches!(verdict, Verdict::End) {
        told.push_pending(&mut text, pending_title(verdict));
    }
    push_rest(&mut text, &sections);
    text.whole()
}

fn pending_title(verdict: Verdict) -> &'static str {
    match verdict {
        Verdict::Budget => "not served yet",
        Verdict::End | Verdict::Blocked => "never served",
    }
}

// How many have nothing to do.
fn push_rest(text: &mut Telling, sections: &[Section]) {
    text.push("idle: ");
    text.push_count(count_of(sections, Section::Idle));
    text.push(", ended: ");
    text.push_count(count_of(sections, Section::Ended));
    text.push("\n");
}
