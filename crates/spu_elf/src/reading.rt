//! Objects and executables, read from their files.

pub mod entries;
pub mod executable;
pub mod executable_symbols;
pub mod fields;
pub mod headers;
pub mod object;
pub mod program_headers;
pub mod section_headers;
pub mod symbols;
pub mod tables;
