//! What is made of input that has a fault: the fault's line.

ghost use Rattle.std.specs.Prelude.{◌≡◌, ◌≢◌, string_bytes, IfOk};
ghost use Rattle.spu_tool.specs.FaultLines.{asm_name, elf_name, asm_line, elf_line, name_line, load_line};
ghost use Rattle.spu_tool.specs.Makes.{refused};
ghost use Rattle.spu_word.specs.declared.load.LoadFault.TheVariants as loads;

use crate::made::Made;
use crate::status::Status;
use spu_asm::AsmKind;
use spu_elf::ElfKind;
use spu_word::{LoadFault, OutOfMemory, Seq};
use std::alloc::Global;

/// A refusal with this line.
pub fn refusal(alloc: Global, line: &str) -> Result<Made, OutOfMemory>
    ensures { IfOk result (λ m. m ≡ refused line.now) }
{
    Ok(Made {
        status: Status::Refused,
        file: None,
        text: Seq::copied(alloc, line.as_bytes())?,
    })
}

/// The number and the name of a text's fault.
fn asm_name(kind: AsmKind) -> &'static str
    ensures { result.now ≡ asm_name kind }
{
    match kind {
        AsmKind::NotAscii => "A1 NotAscii",
        AsmKind::LineTooLong => "A2 LineTooLong",
        AsmKind::BadNumber => "A3 BadNumber",
        AsmKind::UnknownMnemonic => "A4 UnknownMnemonic",
        AsmKind::BadOperand => "A5 BadOperand",
        AsmKind::Range => "A6 Range",
        AsmKind::DuplicateLabel => "A7 DuplicateLabel",
        AsmKind::BadDirective => "A8 BadDirective",
        AsmKind::SectionTooLarge => "A9 SectionTooLarge",
        AsmKind::TooLarge => "A10 TooLarge",
    }
}

/// The number and the name of a file's fault.
fn elf_name(kind: ElfKind) -> &'static str
    ensures { result.now ≡ elf_name kind }
{
    match kind {
        ElfKind::Truncated => "E1 Truncated",
        ElfKind::NotElf => "E2 NotElf",
        ElfKind::WrongClass => "E3 WrongClass",
        ElfKind::WrongMachine => "E4 WrongMachine",
        ElfKind::WrongKind => "E5 WrongKind",
        ElfKind::BadTable => "E6 BadTable",
        ElfKind::BadName => "E7 BadName",
        ElfKind::BadSymbol => "E8 BadSymbol",
        ElfKind::BadReloc => "E9 BadReloc",
        ElfKind::Compressed => "E10 Compressed",
        ElfKind::TooLarge => "E11 TooLarge",
    }
}

/// A text's fault, at a line.
pub fn asm_refusal(alloc: Global, kind: AsmKind, line: u32) -> Result<Made, OutOfMemory>
    ensures { IfOk result (λ m. m ≡ refused (asm_line kind line)) }
{
    let name = asm_name(kind);
    let text = format!(in alloc; "{name} {line}\n")?;
    refusal(alloc, text.as_str())
}

/// The line of a file's fault, at an offset.
fn elf_line(alloc: Global, kind: ElfKind, file: &str, offset: u32) -> Result<String, OutOfMemory>
    ensures { IfOk result (λ t. string_bytes t ≡ elf_line kind file.now offset) }
{
    let name = elf_name(kind);
    Ok(format!(in alloc; "{name} {file} {offset}\n")?)
}

/// A file's fault, at an offset.
pub fn elf_refusal(
    alloc: Global,
    kind: ElfKind,
    file: &str,
    offset: u32,
) -> Result<Made, OutOfMemory>
    ensures { IfOk result (λ m. m ≡ refused (elf_line kind file.now offset)) }
{
    let line = elf_line(alloc, kind, file, offset)?;
    refusal(alloc, line.as_str())
}

/// A fault that names an area.
fn name_refusal(alloc: Global, what: &[u8], name: &[u8]) -> Result<Made, OutOfMemory>
    ensures { IfOk result (λ m. m ≡ refused (name_line what.now name.now)) }
{
    let mut text = Seq::copied(alloc, what)?;
    text.extend(name)?;
    text.extend(b"\n")?;
    Ok(Made {
        status: Status::Refused,
        file: None,
        text,
    })
}

/// A segment of this number that doesn't lie in the local store.
fn segment_refusal(alloc: Global, number: u32) -> Result<Made, OutOfMemory>
    ensures { IfOk result (λ m. m ≡ refused (load_line (loads.SegmentRange number))) }
{
    let text = format!(in alloc; "M4 SegmentRange {number}\n")?;
    refusal(alloc, text.as_str())
}

/// An executable that could not be loaded.
pub fn load_refusal(alloc: Global, fault: &LoadFault) -> Result<Made, OutOfMemory>
    ensures line { IfOk result (λ m. m ≡ refused (load_line fault.now)) }
    ensures told { IfOk result (λ m. fault.now ≢ loads.OutOfMemory) }
{
    match fault {
        LoadFault::UnresolvedName(name) => {
            name_refusal(alloc, b"M1 UnresolvedName ", name.as_slice())
        }
        LoadFault::AreasOverlap(name) => {
            name_refusal(alloc, b"M2 AreasOverlap ", name.as_slice())
        }
        LoadFault::AreaRange(name) => name_refusal(alloc, b"M3 AreaRange ", name.as_slice()),
        LoadFault::SegmentRange(number) => segment_refusal(alloc, *number),
        LoadFault::OutOfMemory => Err(OutOfMemory),
    }
}
