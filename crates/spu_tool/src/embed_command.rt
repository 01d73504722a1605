//! What `embed` makes of an executable's bytes, and `run` of an object that embeds one.

ghost use Rattle.std.specs.Prelude.{◌≡◌, ◌⊎◌, length, None, true, IfOk};
ghost use Rattle.spu_tool.specs.Options.{AreSound};
ghost use Rattle.spu_cesof.specs.Unpacking.{cesof_fault};
ghost use Rattle.spu_elf.specs.Executables.{exec_fault};
ghost use Rattle.spu_elf.specs.Spelling.{spell_exec};
ghost use Rattle.spu_elf.specs.Validity.{IsName, IsValidExec};
ghost use Rattle.spu_tool.specs.FaultLines.{cesof_line};
ghost use Rattle.spu_tool.specs.Makes.{MakesEmbed, EmbedsTo, EmbedsNot, count_line, is_embedded, MakesRunOf, RunsEmbedded, UnpacksNot, refused};
ghost use Rattle.spu_cesof.specs.declared.faults.CesofFault.TheVariants as cesof;

use crate::fault_lines::{elf_refusal, refusal};
use crate::made::Made;
use crate::options::RunOptions;
use crate::run_command::run_command;
use crate::status::Status;
use crate::texts::count_line;
use spu_cesof::{CesofFault, embed, unpack};
use spu_elf::constants::{E_MACHINE, EM_PPC};
use spu_elf::spelling::part;
use spu_elf::{ElfFault, Exec, read_exec};
use spu_word::{Bytes, OutOfMemory, Seq};
use std::alloc::Global;

/// A fault, and its place or size.
fn number_refusal(alloc: Global, what: &str, number: u64) -> Result<Made, OutOfMemory>
    ensures { IfOk result (λ m. m ≡ refused (count_line what.now number)) }
{
    let line = count_line(alloc, what, number)?;
    refusal(alloc, line.as_str())
}

/// What is made of an executable of this file.
fn embedded(alloc: Global, handle: &[u8], exec: &Exec, file: &[u8]) -> Result<Made, OutOfMemory>
    requires handle { IsName handle.now }
    requires valid { IsValidExec exec.now }
    requires file { file.now ≡ spell_exec exec.now }
    requires read { exec_fault file.now ≡ None }
    ensures { IfOk result (λ m. EmbedsTo handle.now file.now m ⊎ EmbedsNot handle.now file.now m) }
{
    match embed(alloc, handle, exec, file) {
        Ok(object) => Ok(Made {
            status: Status::Ok,
            file: Some(object),
            text: Seq::new(alloc),
        }),
        Err(CesofFault::TooLarge(size)) => number_refusal(alloc, "C4 TooLarge", size),
        Err(CesofFault::OutOfMemory) => Err(OutOfMemory),
        Err(CesofFault::NotCesof(_)) => unreachable!(),
        Err(CesofFault::BadHandle(_)) => unreachable!(),
        Err(CesofFault::BadToe(_)) => unreachable!(),
    }
}

/// What is made of an executable's bytes: the object that embeds it with a handle of this name.
pub fn embed_command(
    alloc: Global,
    handle: &[u8],
    name: &str,
    bytes: &[u8],
) -> Result<Made, OutOfMemory>
    requires { IsName handle.now }
    ensures { IfOk result (MakesEmbed handle.now name.now bytes.now) }
{
    match read_exec(alloc, bytes) {
        Ok(exec) => embedded(alloc, handle, &exec, bytes),
        Err(ElfFault::Fault { kind, place }) => elf_refusal(alloc, kind, name, place),
        Err(ElfFault::OutOfMemory) => Err(OutOfMemory),
    }
}

/// Whether bytes are those of an object for the PowerPC.
fn is_embedded(bytes: &[u8]) -> bool
    ensures { result ≡ is_embedded bytes.now }
{
    part(bytes, E_MACHINE, 2) == [0, EM_PPC as u8].as_slice()
}

/// What is made of an object that embeds an executable: what is made of the executable.
fn embedded_run(
    alloc: Global,
    options: RunOptions,
    name: &str,
    bytes: &[u8],
    files: &[Bytes],
) -> Result<Made, OutOfMemory>
    requires options { AreSound options }
    requires files { length files.now ≡ length options.places }
    requires embedded { is_embedded bytes.now ≡ true }
    ensures { IfOk result (λ m. RunsEmbedded options name.now bytes.now files.now m ⊎ UnpacksNot bytes.now m) }
{
    match unpack(alloc, bytes) {
        Ok(file) => run_command(alloc, options, name, file.as_slice(), files),
        Err(CesofFault::NotCesof(place)) => number_refusal(alloc, "C1 NotCesof", place),
        Err(CesofFault::BadHandle(place)) => number_refusal(alloc, "C2 BadHandle", place),
        Err(CesofFault::BadToe(place)) => number_refusal(alloc, "C3 BadToe", place),
        Err(CesofFault::TooLarge(size)) => number_refusal(alloc, "C4 TooLarge", size),
        Err(CesofFault::OutOfMemory) => Err(OutOfMemory),
    }
}

/// What is made of the bytes of an executable, or of an object that embeds one. The areas' files hold these bytes.
pub fn run_any(
    alloc: Global,
    options: RunOptions,
    name: &str,
    bytes: &[u8],
    files: &[Bytes],
) -> Result<Made, OutOfMemory>
    requires sound { AreSound options }
    requires files { length files.now ≡ length options.places }
    ensures { IfOk result (MakesRunOf options name.now bytes.now files.now) }
{
    if is_embedded(bytes) {
        embedded_run(alloc, options, name, bytes, files)
    } else {
        run_command(alloc, options, name, bytes, files)
    }
}
