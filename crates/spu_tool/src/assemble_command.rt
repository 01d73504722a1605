//! What `asm` makes of a text.

ghost use Rattle.std.specs.Prelude.{IfOk};
ghost use Rattle.spu_tool.specs.Makes.{MakesAssemble};

use crate::fault_lines::asm_refusal;
use crate::made::Made;
use crate::status::Status;
use spu_asm::{AsmFault, assemble};
use spu_elf::write_object;
use spu_word::{OutOfMemory, Seq};
use std::alloc::Global;

/// What is made of a text: its object, or its first faulty line.
pub fn assemble_command(alloc: Global, text: &[u8]) -> Result<Made, OutOfMemory>
    ensures { IfOk result (MakesAssemble text.now) }
{
    match assemble(alloc, text) {
        Ok(object) => Ok(Made {
            status: Status::Ok,
            file: Some(write_object(alloc, &object)?),
            text: Seq::new(alloc),
        }),
        Err(AsmFault::Fault { kind, line }) => asm_refusal(alloc, kind, line),
        Err(AsmFault::OutOfMemory) => Err(OutOfMemory),
    }
}
