//! Relocations: their numbers, the instructions that they fit, and the fields that they patch.
#![tactic(auto)]

pub mod field;
mod law;

pub use field::{RelocKind, fits, fitting, kind_of, patch};
pub use law::{patched_word, relocated_word};
