//! The limits of the language and of its command, by name.

/// The reductions of a run, summed over its activities.
pub const MOST_REDUCTIONS: u64 = 10_000_000;

/// The bytes of a program.
pub const MOST_PROGRAM_BYTES: usize = 1_048_576;

/// The bytes of a report that is read.
pub const MOST_REPORT_BYTES: usize = 16_777_216;

/// The bytes of a trace that is read.
pub const MOST_TRACE_BYTES: usize = 67_108_864;

/// The bytes of a checkpoint that is read.
pub const MOST_CHECKPOINT_BYTES: usize = 268_435_456;

/// The activities of a checkpoint.
pub const MOST_SAVED_ACTIVITIES: usize = 10_000_000;

/// The futures of a checkpoint that have a home.
pub const MOST_SAVED_HOMES: usize = 10_000_000;

/// How deep the terms of a checkpoint are nested. No run of a program that was read goes deeper.
pub const MOST_NESTED: u64 = 25_000;

/// How deep a term of a checkpoint may be nested for which there is memory.
pub const MOST_READ_NESTED: u64 = 200;

/// The nodes of one term of a checkpoint for which there is memory.
pub const MOST_NODES: usize = 16_777_216;

/// The different places in one method of a checkpoint for which there is memory.
pub const MOST_PLACES: usize = 4_096;

/// The captured places of a checkpoint, for each of its bytes, for which there is memory.
pub const MOST_CAPTURED: u64 = 16;

/// The names that are tried for the places of one term of a checkpoint.
pub const MOST_NAMINGS: u32 = 16;

/// The level that a token of a program may reach.
pub const MOST_LEVEL: u32 = 200;

/// The parameters of a method beside self, and the arguments of a call.
pub const MOST_PARAMETERS: usize = 8;

/// The pairs of a generated program.
pub const MOST_PAIRS: u64 = 2_000;

/// The reductions that one lease is granted.
pub const MOST_GRANTED: u64 = 64;

/// The cells of a value that is read without the turn.
pub const MOST_PEEKED: usize = 64;

/// The workers of a run.
pub const MOST_WORKERS: u32 = 64;

/// The seats among which a turn goes round, at most. A run takes two for each worker, and the
/// caller's.
pub const MOST_SEATS: u32 = 129;

/// The depth to which a report shows the state of its activities.
pub const MOST_DEPTH: u32 = 4;
