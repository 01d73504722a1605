//! Tests of files: objects, executables, and executables embedded in objects.
#![tactic(auto)]

#[cfg(test)]
mod embedded;
#[cfg(test)]
mod files;
