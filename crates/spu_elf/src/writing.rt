//! Objects and executables as files.

pub mod drafts;
pub mod executable;
pub mod lengths;
pub mod object;
pub mod tables;
