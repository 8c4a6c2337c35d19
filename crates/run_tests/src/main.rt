//! Tests of runs that no command shows: cores that are driven by lists of steps, policies that answer
//! from scripts and count, and workers that a gate holds. The program itself does nothing: nobody stands
//! on it, so it need not be a library.
#![tactic(auto)]

#[cfg(test)]
mod asked;
#[cfg(test)]
mod counting;
#[cfg(test)]
mod driven;
#[cfg(test)]
mod gates;
#[cfg(test)]
mod long_runs;
#[cfg(test)]
mod programs;
#[cfg(test)]
mod raced;
#[cfg(test)]
mod scripts;
#[cfg(test)]
mod texts;

fn main() {}
