//! The whole text.

ghost use Rattle.std.specs.Prelude.{◌≡◌, ◌<◌, ◌+◌, ◌-◌, ◌^◌, ◌++◌, IfOk, OnOk, Some, slice_get, string_bytes};
ghost use Rattle.outcomes_text.specs.Outcomes.{Outcome};
ghost use Rattle.outcomes_text.specs.Told.{head_text, one_outcome, outcomes_from, told, whole_line as line_of_whole};

use crate::tally::Tally;
use std::alloc::{AllocError, Global};

/// Tells the outcomes of so many ends, the longest of which has so many reductions.
pub fn tell(
    alloc: Global,
    whole: bool,
    ends: usize,
    longest: u64,
    tally: &Tally,
) -> Result<String, AllocError>
    ensures text { IfOk result (λ s. string_bytes s ≡ told whole ends longest tally.now) }
{
    let mut text = head(alloc, whole, ends, longest)?;
    add_outcomes(&mut text, tally)?;
    Ok(text)
}

fn whole_line(whole: bool) -> &'static str
    ensures { result.now ≡ line_of_whole whole }
{
    if whole { "complete" } else { "cut off" }
}

// What stands before the outcomes.
fn head(alloc: Global, whole: bool, ends: usize, longest: u64) -> Result<String, AllocError>
    ensures { IfOk result (λ s. string_bytes s ≡ head_text whole ends longest) }
{
    let mut text = String::new(alloc);
    text.push_str("outcomes 1\n")?;
    text.push_str(whole_line(whole))?;
    write!(text, "\nends {ends}")?;
    write!(text, "\nlongest {longest}\n")?;
    Ok(text)
}

fn add_outcomes(text: &mut String, tally: &Tally) -> Result<(), AllocError>
    ensures { OnOk result
        (string_bytes text.new ≡ string_bytes text.old ++ outcomes_from 1 tally.now) }
{
    for number in 0..tally.len() {
        add_at(text, tally, number)?;
    }
    Ok(())
}

// The outcome of this number, from 0.
fn add_at(text: &mut String, tally: &Tally, number: usize) -> Result<(), AllocError>
    requires room { number < 2 ^ 64 - 1 }
    ensures { (o : Outcome) → slice_get tally.now number ≡ Some o → OnOk result
        (string_bytes text.new ≡ string_bytes text.old ++ one_outcome (1 + number) o.ends o.text) }
{
    match tally.get(number) {
        Some((seen, share)) => { add_outcome(text, number as u64 + 1, share.ends, seen.as_str()) }
        None => Ok(()),
    }
}

// An outcome by its number, from 1.
fn add_outcome(text: &mut String, number: u64, ends: u64, seen: &str) -> Result<(), AllocError>
    ensures { OnOk result
        (string_bytes text.new ≡ string_bytes text.old ++ one_outcome number ends seen.now) }
{
    write!(text, "outcome {number} of {ends}\n")?;
    text.push_str(seen)
}
