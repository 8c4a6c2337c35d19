//! Races of seats at a hub, as tests: turns are got, and who sleeps is woken. The program itself does
//! nothing: nobody stands on it, so it need not be a library.
#![tactic(auto)]

#[cfg(test)]
mod crew;
#[cfg(test)]
mod races;
#[cfg(test)]
mod splits;
#[cfg(test)]
mod stress;
#[cfg(test)]
mod tasks;
#[cfg(test)]
mod turns;
#[cfg(test)]
mod wakes;

fn main() {}
