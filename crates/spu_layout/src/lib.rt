//! Where a plan puts the functions of a program in the local store.
#![tactic(auto)]

pub mod laws;
mod layout;
mod placing;
pub mod planned;
#[cfg(test)]
mod tests;

pub use layout::{Areas, Layout, Span};
pub use placing::{lay_out, section_sizes};
