//! Tests that cross crates.
#![tactic(auto)]

#[cfg(test)]
mod assembly;
#[cfg(test)]
mod links;
#[cfg(test)]
mod loader;
#[cfg(test)]
mod texts;
#[cfg(test)]
mod tours;
