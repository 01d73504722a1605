//! Tests of the local-store machine: loads, steps, transfers and runs.
#![tactic(auto)]

#[cfg(test)]
mod loads;
#[cfg(test)]
mod running;
#[cfg(test)]
mod transfers;
