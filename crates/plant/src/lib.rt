//! The outside as the gate sees it: a disk and a signer, a clock, random bytes, and streams of bytes; in memory and real.
#![tactic(auto)]

mod clock;
mod connection;
mod device;
mod entropy;
mod fault;
mod file_plant;
mod ghost_list;
mod journal_file;
mod law;
mod list_clock;
mod list_entropy;
mod loopback;
mod memory_disk;
mod memory_plant;
mod memory_sink;
mod memory_source;
mod size_limit;
mod standard_numbers;
mod standard_stream;
mod stream;
mod system;

pub use clock::Clock;
pub use device::{MAX_BYTES, Plant, SIGNATURE_ROOM};
pub use entropy::Entropy;
pub use fault::{
    ClockFault, DiskFault, EntropyFault, Fail, Fails, PutFault, SignerFault, TakeFault,
};
pub use file_plant::{FilePlant, Signer};
pub use journal_file::{FileFault, JournalFile};
pub use law::{runs_join, writes_are_torn};
pub use list_clock::{ListClock, Readings};
pub use list_entropy::{Draws, ListEntropy};
pub use memory_plant::MemoryPlant;
pub use memory_sink::MemorySink;
pub use memory_source::{Calls, MemorySource};
pub use standard_numbers::StandardNumbers;
pub use standard_stream::{StdSink, StdSource};
pub use stream::{Sink, Source};
pub use system::{SystemClock, SystemEntropy};

#[cfg(test)]
mod tests;
