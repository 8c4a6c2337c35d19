//! The end of a run is let go.

ghost use Rattle.std.specs.Prelude.{◌<◌};

use object_store::Store;
use run_ends::{EndState, RunEnd};
use std::alloc::Global;
use std::thread;
use std::thread::Threads;

/// A store of so many cells is large: to give them back takes longer than a thread takes to start.
const LARGE: usize = 65_536;

// A large store gives its cells back.
fn empty_large(alloc: Global, state: &mut EndState) {
    if state.store.len() >= LARGE {
        state.store = Store::new(alloc);
    }
}

// Whether there are several large stores.
fn are_several_large(states: &[EndState]) -> bool {
    let mut large = 0;
    for state in states {
        if large < 2 && state.store.len() >= LARGE {
            large += 1;
        }
    }
    large > 1
}

/// Lets the end of a run go: its large stores by as many threads as there were workers.
pub fn let_go<R: Threads + Sync>(rt: &R, alloc: Global, end: RunEnd, workers: u32)
    requires some { 0 < workers }
{
    let mut end = end;
    if workers > 1 && are_several_large(&end.states) {
        thread::for_each_mut(
            rt,
            end.states.as_mut_slice(),
            workers as usize,
            &|_, state: &mut EndState| { empty_large(alloc, state) },
        );
    }
}
