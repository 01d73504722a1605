//! Tests of the instruction table, and of what instructions compute.
#![tactic(auto)]

#[cfg(test)]
mod results;
#[cfg(test)]
mod table;
