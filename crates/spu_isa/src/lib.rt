//! The instruction table of the SPU: which word is which instruction, by SPU ISA 1.2. Left out are floating point, `mfspr`,
//! `mtspr`, `iret`, `bisled`, `stopd`, `hbrp`, `rotqmbybi`, `syncc` and the branches that enable or disable interrupts.
#![tactic(auto)]

mod decoding;
mod encoding;
mod instruction;
mod laws;
mod names;
mod operation;
mod registers;
mod table;

pub use decoding::decode;
pub use encoding::encode;
pub use instruction::Inst;
pub use laws::{decoding_follows_the_table, one_instruction, one_word};
pub use names::op_named;
pub use operation::{Format, Kind, OP_COUNT, Op, OpInfo};
pub use registers::{has_ra, has_rb, has_rc};
pub use table::{info, mnemonic};
