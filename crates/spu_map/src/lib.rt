//! Printed texts of programs and executables.
#![tactic(auto)]

mod map;
#[cfg(test)]
mod map_tests;
mod stack;
mod texts;

pub use map::map_text;
pub use stack::stack_text;
