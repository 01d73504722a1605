//! What `map` makes of an executable's bytes.

ghost use Rattle.std.specs.Prelude.{IfOk};
ghost use Rattle.spu_tool.specs.Makes.{MakesMap};

use crate::fault_lines::elf_refusal;
use crate::made::Made;
use crate::status::Status;
use spu_elf::{ElfFault, read_exec};
use spu_map::map_text;
use spu_word::OutOfMemory;
use std::alloc::Global;

/// What is made of an executable's bytes: its map.
pub fn map_command(alloc: Global, name: &str, bytes: &[u8]) -> Result<Made, OutOfMemory>
    ensures { IfOk result (MakesMap name.now bytes.now) }
{
    match read_exec(alloc, bytes) {
        Ok(exec) => Ok(Made {
            status: Status::Ok,
            file: None,
            text: map_text(alloc, &exec)?,
        }),
        Err(ElfFault::Fault { kind, place }) => elf_refusal(alloc, kind, name, place),
        Err(ElfFault::OutOfMemory) => Err(OutOfMemory),
    }
}
