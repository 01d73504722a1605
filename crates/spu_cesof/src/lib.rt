//! Executables of the SPU in objects for the PowerPC.
#![tactic(auto)]

pub mod checking;
pub mod constants;
mod embedding;
mod faults;
pub mod naming;
pub mod object;
pub mod places;
mod unpacking;

pub use embedding::embed;
pub use faults::CesofFault;
pub use unpacking::unpack;
