//! Generated workloads: large programs, each a function of a seed and a count.
#![tactic(auto)]

pub mod lines;
pub mod workloads;

pub use lines::{Line, MAX_SENDERS};
pub use workloads::workload;
