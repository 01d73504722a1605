//! Tests of images.
#![tactic(auto)]

#[cfg(test)]
mod overlays;
