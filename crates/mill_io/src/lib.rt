//! The outside world as traits: sources and sinks of bytes that count their faults, over memory and
//! over std, and the call that reads a source to its end.
#![tactic(auto)]

mod block;
mod growing;
mod history;
mod laws;
mod memory;
mod read;
mod standard;
mod steady;
mod stream;

pub use block::{BLOCK, Block};
pub use growing::VecSink;
pub use laws::block_size;
pub use memory::{MemSink, MemSource};
pub use read::{ReadError, read_all};
pub use standard::{StdSink, StdSource};
pub use steady::{SteadySink, SteadySource};
pub use stream::{Failed, Sink, Source};

#[cfg(test)]
mod tests;
