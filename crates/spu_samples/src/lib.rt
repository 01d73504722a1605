//! Small programs on which judgements and texts of programs are tried, each of them well formed.
#![tactic(auto)]

mod programs;

pub use programs::{CALLER, LEAF, MIDDLE, NONE, Step, Taken, name_at, program};
