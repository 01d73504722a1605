//! Objects from assembly texts.
#![tactic(auto)]

pub mod accumulating;
mod assembly;
mod contents;
pub mod directives;
mod faults;
mod laws;
pub mod names;
pub mod objects;
pub mod operands;
pub mod parts;
pub mod progress;
mod quotes;
mod refusals;
pub mod sections;
pub mod slots;
pub mod statement_reading;
pub mod statements;
pub mod symbols;
pub mod tables;
pub mod values;

pub use assembly::{assemble, one_answer};
pub use faults::{AsmFault, AsmKind};
pub use laws::{operands_in_range, relocations_fit};
