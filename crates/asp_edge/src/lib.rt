//! Where a program's bytes come from and where its output goes.
#![tactic(auto)]

mod edge;
mod history;
mod memory_sink;
mod memory_source;
mod system;

pub use edge::{ReadError, Sink, Source, WriteFailed};
pub use history::{Ask, Asked, Piece, Taken};
pub use memory_sink::MemorySink;
pub use memory_source::MemorySource;
pub use system::{FileSource, StdSink};
