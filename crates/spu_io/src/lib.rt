//! The outside: files by name, and a sink that texts are put to. In memory, and by the system.
#![tactic(auto)]

mod disk;
mod fault_log;
mod faults;
mod memory;
mod names;
mod outside;
mod quiet;
mod transfer;

pub use disk::{DiskFiles, StdSink};
pub use fault_log::LastFault;
pub use faults::{FileFault, SinkFault};
pub use memory::{MemFiles, MemSink};
pub use outside::{Files, Sink};
pub use quiet::{QuietFiles, QuietSink};
