//! Executables taken out of the objects that embed them.

ghost use Rattle.std.specs.Prelude.{◌≡◌, ◌+◌, ◌*◌, ◌≤◌, ◌<◌, ◌^◌, ◌++◌, ℕ, List, length, take, OnOk, IfOk};
ghost use Rattle.std.specs.List.{flat_map, All};
ghost use Rattle.spu_word.specs.declared.limits.TheConstants.{MAX_FILE_SIZE, MAX_SYMBOLS};
ghost use Rattle.spu_elf.specs.declared.constants.TheConstants.{RELA_SIZE, SHDR_SIZE};
ghost use Rattle.spu_elf.specs.Checks.{Names, ◌then_check◌, bytes_check};
ghost use Rattle.spu_elf.specs.declared.faults.ElfKind.TheVariants as kinds;
ghost use Rattle.spu_elf.specs.Spelling.{relocation, spell_exec};
ghost use Rattle.spu_elf.specs.Executables.{exec_fault, exec_in};
ghost use Rattle.spu_elf.specs.Validity.{IsValidExec};
ghost use Rattle.spu_cesof.specs.declared.constants.TheConstants.{IMAGE_ALIGN};
ghost use Rattle.spu_cesof.specs.declared.faults.CesofFault.TheVariants as faults;
ghost use Rattle.spu_cesof.specs.Answers.{Says, IsEmbedded, Unpacks};
ghost use Rattle.spu_cesof.specs.Bounds.{IsFar, IsInside};
ghost use Rattle.spu_cesof.specs.Embedding.{entry_names, toe_relocs, Embeds};
ghost use Rattle.spu_cesof.specs.Outline.{places_in, image_of, section_count};
ghost use Rattle.spu_cesof.specs.Unpacking.{name_in, entry_names_in, joined, symbols_check, strings_check, end_check, object_check, handle_check, toe_check, found, fault_with, cesof_fault, image_in};

use crate::checking::{check_end, check_front, check_heads, check_padding};
use crate::constants::{IMAGE_ALIGN, TOE_ENTRY_SIZE};
use crate::faults::CesofFault;
use crate::naming::{Naming, check_strings, check_symbols, naming_in};
use crate::object::{entry_names, handle_bytes, handle_relocs, toe_relocs};
use crate::places::{Places, places_in};
use spu_elf::constants::{SH_SIZE, SHDR_SIZE};
use spu_elf::spelling::{check_bytes, check_zeros, fault, part, relocation_entries};
use spu_elf::{ElfFault, ElfKind, Exec, read_exec};
use spu_word::{Bytes, Name, OutOfMemory, Seq};
use std::alloc::Global;

/// The parts of an object, and the names of its symbols.
#[derive(Drop)]
struct Parts {
    places: Places,
    names: Naming,
}

/// The names of an object whose header, section headers and padding are as they must be, if its
/// symbols are, too.
fn read_names(alloc: Global, bytes: &[u8], p: &Places) -> Result<Naming, ElfFault>
    requires small { length bytes.now ≤ MAX_FILE_SIZE }
    requires far { IsFar p.now }
    requires inside { IsInside p.now }
    ensures checks { Names result (symbols_check bytes.now p.now then_check strings_check bytes.now p.now then_check end_check bytes.now (p.now.headers + SHDR_SIZE * section_count p.now.entries)) }
    ensures handle { IfOk result (λ n. n.handle ≡ name_in bytes.now p.now) }
    ensures entries { IfOk result (λ n. n.entries ≡ entry_names_in bytes.now p.now) }
    ensures short { IfOk result (λ n. length n.handle ≤ MAX_FILE_SIZE) }
    ensures count { IfOk result (λ n. length n.entries ≡ p.now.entries) }
{
    let names = naming_in(alloc, bytes, p)?;
    check_symbols(alloc, bytes, p, &names)?;
    check_strings(bytes, p, &names)?;
    check_end(bytes, p)?;
    Ok(names)
}

/// The parts of an object, if all but its three sections and their relocations are as they must be.
#[tactic(auto, unfolding(crate::specs::Unpacking::object_check))]
fn read_parts(alloc: Global, bytes: &[u8]) -> Result<Parts, ElfFault>
    ensures checks { Names result (object_check bytes.now (places_in bytes.now)) }
    ensures small { OnOk result (length bytes.now ≤ MAX_FILE_SIZE) }
    ensures places { IfOk result (λ r. r.places ≡ places_in bytes.now) }
    ensures far { IfOk result (λ r. IsFar r.places) }
    ensures inside { IfOk result (λ r. IsInside r.places) }
    ensures handle { IfOk result (λ r. r.names.handle ≡ name_in bytes.now (places_in bytes.now)) }
    ensures entries { IfOk result (λ r. r.names.entries ≡ entry_names_in bytes.now (places_in bytes.now)) }
    ensures short { IfOk result (λ r. length r.names.handle ≤ MAX_FILE_SIZE) }
    ensures count { IfOk result (λ r. length r.names.entries ≡ r.places.entries) }
{
    check_front(bytes)?;
    let places = places_in(bytes);
    check_heads(bytes, &places)?;
    check_padding(bytes, &places)?;
    let names = read_names(alloc, bytes, &places)?;
    Ok(Parts { places, names })
}

/// The parts of an object, as far as they are as they must be.
fn parts_in(alloc: Global, bytes: &[u8]) -> Result<Parts, CesofFault>
    ensures fault { Says result (found faults.NotCesof 0 (object_check bytes.now (places_in bytes.now))) }
    ensures small { OnOk result (length bytes.now ≤ MAX_FILE_SIZE) }
    ensures places { IfOk result (λ r. r.places ≡ places_in bytes.now) }
    ensures far { IfOk result (λ r. IsFar r.places) }
    ensures inside { IfOk result (λ r. IsInside r.places) }
    ensures handle { IfOk result (λ r. r.names.handle ≡ name_in bytes.now (places_in bytes.now)) }
    ensures entries { IfOk result (λ r. r.names.entries ≡ entry_names_in bytes.now (places_in bytes.now)) }
    ensures short { IfOk result (λ r. length r.names.handle ≤ MAX_FILE_SIZE) }
    ensures count { IfOk result (λ r. length r.names.entries ≡ r.places.entries) }
{
    match read_parts(alloc, bytes) {
        Ok(parts) => Ok(parts),
        Err(ElfFault::Fault { kind: _, place }) => Err(CesofFault::NotCesof(u64::from(place))),
        Err(ElfFault::OutOfMemory) => Err(CesofFault::OutOfMemory),
    }
}

/// The executable of a file that stands at 128.
fn exec_in(alloc: Global, file: &[u8]) -> Result<Exec, CesofFault>
    ensures fault { Says result (found faults.NotCesof IMAGE_ALIGN (exec_fault file.now)) }
    ensures valid { IfOk result (λ x. IsValidExec x) }
    ensures file { IfOk result (λ x. spell_exec x ≡ file.now) }
    ensures value { IfOk result (λ x. x ≡ exec_in file.now) }
{
    match read_exec(alloc, file) {
        Ok(x) => Ok(x),
        Err(ElfFault::Fault { kind: _, place }) => {
            Err(CesofFault::NotCesof(IMAGE_ALIGN as u64 + u64::from(place)))
        }
        Err(ElfFault::OutOfMemory) => Err(CesofFault::OutOfMemory),
    }
}

/// The handle and its relocations.
#[tactic(auto, unfolding(crate::specs::Unpacking::handle_check))]
fn check_handle(alloc: Global, bytes: &[u8], p: &Places) -> Result<(), ElfFault>
    requires small { length bytes.now ≤ MAX_FILE_SIZE }
    requires far { IsFar p.now }
    ensures { Names result (handle_check bytes.now p.now) }
{
    let kind = ElfKind::BadTable;
    check_bytes(bytes, kind, p.handle, &handle_bytes())?;
    let entries = relocation_entries(alloc, &handle_relocs())?;
    check_bytes(bytes, kind, p.handle_relocs, entries.as_slice())
}

/// The handle and its relocations, if they are as they must be.
fn handle_in(alloc: Global, bytes: &[u8], p: &Places) -> Result<(), CesofFault>
    requires small { length bytes.now ≤ MAX_FILE_SIZE }
    requires far { IsFar p.now }
    ensures { Says result (found faults.BadHandle 0 (handle_check bytes.now p.now)) }
{
    match check_handle(alloc, bytes, p) {
        Ok(()) => Ok(()),
        Err(ElfFault::Fault { kind: _, place }) => Err(CesofFault::BadHandle(u64::from(place))),
        Err(ElfFault::OutOfMemory) => Err(CesofFault::OutOfMemory),
    }
}

/// Names one behind the other, each with a zero byte.
fn joined(alloc: Global, names: &[Name]) -> Result<Bytes, OutOfMemory>
    ensures { IfOk result (λ all. all ≡ joined names.now) }
{
    let mut all = Seq::new(alloc);
    for name in names {
        all.extend(name.as_slice())?;
        all.push(0)?;
    }
    Ok(all)
}

/// The names stand where those of the entries are to stand, as far as there are entries.
fn check_entry_names(
    alloc: Global,
    bytes: &[u8],
    p: &Places,
    handle: &Name,
    names: &[Name],
) -> Result<(), ElfFault>
    requires small { length bytes.now ≤ MAX_FILE_SIZE }
    requires far { IsFar p.now }
    requires short { length handle.now ≤ MAX_FILE_SIZE }
    ensures { Names result (bytes_check bytes.now kinds.BadTable (p.now.strings + 1 + length handle.now + 1) (joined (take p.now.entries names.now))) }
{
    let both = p.entries.min(names.len());
    let expected = joined(alloc, &names[..both])?;
    let at = p.strings + 1 + handle.len() + 1;
    check_bytes(bytes, ElfKind::BadTable, at, expected.as_slice())
}

/// The table, its relocations, and its names, which are to be these.
#[tactic(auto, unfolding(crate::specs::Unpacking::toe_check))]
fn check_toe(
    alloc: Global,
    bytes: &[u8],
    p: &Places,
    read: &Naming,
    names: &[Name],
) -> Result<(), ElfFault>
    requires small { length bytes.now ≤ MAX_FILE_SIZE }
    requires far { IsFar p.now }
    requires inside { IsInside p.now }
    requires handle { read.now.handle ≡ name_in bytes.now p.now }
    requires entries { read.now.entries ≡ entry_names_in bytes.now p.now }
    requires short { length read.now.handle ≤ MAX_FILE_SIZE }
    requires count { length read.now.entries ≡ p.now.entries }
    ensures { Names result (toe_check bytes.now p.now names.now) }
{
    let kind = ElfKind::BadTable;
    check_zeros(bytes, p.toe, TOE_ENTRY_SIZE * p.entries)?;
    let relocs = toe_relocs(alloc, read.entries.as_slice())?;
    let entries = relocation_entries(alloc, relocs.as_slice())?;
    check_bytes(bytes, kind, p.toe_relocs, entries.as_slice())?;
    check_entry_names(alloc, bytes, p, &read.handle, names)?;
    if p.entries != names.len() {
        return fault(kind, p.headers + (2 * SHDR_SIZE + SH_SIZE));
    }
    Ok(())
}

/// The table, if it is that of the executable.
fn toe_in(
    alloc: Global,
    bytes: &[u8],
    p: &Places,
    read: &Naming,
    names: &[Name],
) -> Result<(), CesofFault>
    requires small { length bytes.now ≤ MAX_FILE_SIZE }
    requires far { IsFar p.now }
    requires inside { IsInside p.now }
    requires handle { read.now.handle ≡ name_in bytes.now p.now }
    requires entries { read.now.entries ≡ entry_names_in bytes.now p.now }
    requires short { length read.now.handle ≤ MAX_FILE_SIZE }
    requires count { length read.now.entries ≡ p.now.entries }
    ensures { Says result (found faults.BadToe 0 (toe_check bytes.now p.now names.now)) }
{
    match check_toe(alloc, bytes, p, read, names) {
        Ok(()) => Ok(()),
        Err(ElfFault::Fault { kind: _, place }) => Err(CesofFault::BadToe(u64::from(place))),
        Err(ElfFault::OutOfMemory) => Err(CesofFault::OutOfMemory),
    }
}

/// The file that stands at 128.
fn image_of<'a>(bytes: &'a [u8], p: &Places) -> &'a [u8]
    ensures { result.now ≡ image_of bytes.now p.now }
{
    part(bytes, IMAGE_ALIGN, p.image_size)
}

/// The file of the executable, if each field is as it must be.
#[tactic(auto, unfolding(crate::specs::Unpacking::fault_with))]
fn image_in(alloc: Global, bytes: &[u8]) -> Result<Bytes, CesofFault>
    ensures value { IfOk result (λ file. file ≡ image_in bytes.now) }
    ensures fault { Says result (cesof_fault bytes.now) }
{
    let parts = parts_in(alloc, bytes)?;
    let p = &parts.places;
    let file = image_of(bytes, p);
    let x = exec_in(alloc, file)?;
    handle_in(alloc, bytes, p)?;
    let names = entry_names(alloc, x.symbols.as_slice())?;
    toe_in(alloc, bytes, p, &parts.names, names.as_slice())?;
    Ok(Seq::copied(alloc, file)?)
}

/// The file of the executable that an object embeds, or what is wrong first. Fields are judged in
/// this order: the header of the file, without the place of the section headers; those headers, at
/// that place, without the info of the symbol table; the place; padding; symbols; that info; the
/// names of symbols and of sections; the end of the file; the executable, as `spu_elf::read_exec`
/// judges it; the handle and its relocations; and the table of effective addresses: its bytes, its
/// relocations, its names as far as the executable has entries, and last their number.
pub fn unpack(alloc: Global, bytes: &[u8]) -> Result<Bytes, CesofFault>
    ensures value { IfOk result (λ file. file ≡ image_in bytes.now) }
    ensures fault { Says result (cesof_fault bytes.now) }
    ensures embeds { IfOk result (λ file. IsEmbedded file bytes.now) }
    ensures takes_out { (name file : List ℕ) → Embeds name file bytes.now → Unpacks bytes.now file }
{
    image_in(alloc, bytes)
}
