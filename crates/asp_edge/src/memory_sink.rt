//! A sink in memory, which fails at the writes that it was told, and where it is full.

ghost use Rattle.std.specs.Prelude.{◌≤◌, vec_len, vec_capacity};

use crate::{Sink, WriteFailed};
use std::alloc::{AllocError, Global};

/// Bytes in memory, with room for so many.
#[derive(Drop)]
pub struct MemorySink {
    bytes: Vec<u8>,
    failing: Vec<u64>,
    keep: usize,
    room: usize,
    writes: u64,
    faults: u64,
    ghost within: { vec_len bytes ≤ room },
    ghost made: { room ≤ vec_capacity bytes },
}

impl MemorySink {
    ghost use Rattle.std.specs.Prelude.{◌≡◌, [], ◌++◌, IfOk};
    ghost use Rattle.asp_edge.specs.MemorySink.{sink_bytes, sink_faults, sink_intent, next_write, fits, fitting};

    /// An empty sink with room for `room` bytes. The writes are numbered from 1, and one of those in
    /// `failing` fails after its first `keep` bytes.
    pub fn new(
        alloc: Global,
        failing: Vec<u64>,
        keep: usize,
        room: usize,
    ) -> Result<MemorySink, AllocError>
        ensures bytes { IfOk result (λ s. sink_bytes s ≡ []) }
        ensures intent { IfOk result (λ s. sink_intent s ≡ (failing.items, keep, room)) }
        ensures first { IfOk result (λ s. next_write s ≡ 1) }
        ensures faults { IfOk result (λ s. sink_faults s ≡ 0) }
    {
        Ok(MemorySink {
            bytes: Vec::with_capacity(alloc, room)?,
            failing,
            keep,
            room,
            writes: 0,
            faults: 0,
        })
    }

    /// What it has taken.
    pub fn bytes(&self) -> &[u8]
        ensures { result.now ≡ sink_bytes self.now }
    {
        &self.bytes
    }

    // Appends the bytes if they fit.
    fn append(&mut self, bytes: &[u8]) -> bool
        ensures fits { result ≡ fits self.old bytes.now }
        ensures bytes { sink_bytes self.new ≡ sink_bytes self.old ++ fitting self.old bytes.now }
        ensures intent { sink_intent self.new ≡ sink_intent self.old }
        ensures next { self.new.writes ≡ self.old.writes }
        ensures faults { sink_faults self.new ≡ sink_faults self.old }
    {
        if bytes.len() > self.room - self.bytes.len() {
            return false;
        }
        self.bytes.extend_from_slice(bytes).unwrap();
        true
    }
}

impl Sink for MemorySink {
    ghost use Rattle.std.specs.Prelude.{◌≡◌, ◌≤◌, ◌++◌, OnOk, OnErr, is_ok, not};
    ghost use Rattle.asp_edge.specs.Causes.{Rose, next_number, counted, Took, TookFront};
    ghost use Rattle.asp_edge.specs.MemorySink.{memory_told, sink_bytes, sink_faults, sink_intent, next_write, takes_all, taken_of};

    ghost told = { memory_told };

    fn write(&mut self, piece: &[u8]) -> Result<(), WriteFailed>
        ensures all { OnOk result (Took (memory_told self.old) (memory_told self.new) piece.now) }
        ensures front { OnErr result
            (TookFront (memory_told self.old) (memory_told self.new) piece.now) }
        ensures later { sink_faults self.old ≤ sink_faults self.new }
        ensures cause { OnErr result (Rose (sink_faults self.old) (sink_faults self.new)) }

        // It takes the whole piece exactly where the write is not to fail and the piece fits.
        ensures ok { is_ok result ≡ takes_all self.old piece.now }
        ensures taken { sink_bytes self.new ≡ sink_bytes self.old ++ taken_of self.old piece.now }
        ensures counted { sink_faults self.new
            ≡ counted (not (takes_all self.old piece.now)) (sink_faults self.old) }
        ensures intent { sink_intent self.new ≡ sink_intent self.old }
        ensures next { next_write self.new ≡ next_number (next_write self.old) }
    {
        self.writes = self.writes.saturating_add(1);
        if self.failing.contains(&self.writes) {
            self.faults = self.faults.saturating_add(1);
            let kept = self.keep.min(piece.len());
            self.append(&piece[..kept]);
            return Err(WriteFailed);
        }
        if self.append(piece) {
            return Ok(());
        }
        self.faults = self.faults.saturating_add(1);
        Err(WriteFailed)
    }
}
