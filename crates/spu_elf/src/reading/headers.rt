//! The header of a file, and section headers.

ghost use Rattle.std.specs.Prelude.{◌≡◌, ◌≢◌, ◌+◌, ◌*◌, ◌≤◌, ◌<◌, ◌^◌, ◌==◌, ℕ, List, [], length, map, drop, IfOk, OnOk, slice_index, if◌then◌else◌};
ghost use Rattle.std.specs.List.{All, range_with_len};
ghost use Rattle.spu_word.specs.Bytes.{be_number, be_half_number};
ghost use Rattle.spu_elf.specs.Checks.{Names, each};
ghost use Rattle.spu_elf.specs.Reading.{ident_checks, is_blank, front_checks, header, headers, header_or, section_checks, strings_check, header_checks};
ghost use Rattle.spu_elf.specs.Bounds.{Lies, IsNear};
ghost use Rattle.spu_word.specs.declared.limits.TheConstants.{MAX_FILE_SIZE, MAX_SECTIONS};
ghost use Rattle.spu_elf.specs.declared.constants.TheConstants.{EHDR_SIZE, E_SHNUM, E_SHOFF, E_SHSTRNDX, SHDR_SIZE};

use crate::constants::{
    E_MACHINE, E_SHENTSIZE, E_SHNUM, E_SHOFF, E_SHSTRNDX, E_TYPE, EHDR_SIZE, EI_CLASS, EI_CURRENT,
    EI_DATA, EI_VERSION, ELF_MAGIC, ELFCLASS32, ELFDATA2MSB, SH_ADDRALIGN, SH_ENTSIZE, SH_FLAGS,
    SH_INFO, SH_LINK, SH_OFFSET, SH_SIZE, SH_TYPE, SHDR_SIZE, SHF_COMPRESSED, SHT_NOBITS, SHT_NULL,
    SHT_STRTAB,
};
use crate::faults::{ElfFault, ElfKind};
use crate::reading::entries::Header;
use crate::reading::fields::fault;
use spu_word::limits::{MAX_FILE_SIZE, MAX_SECTIONS};
use spu_word::{OutOfMemory, Seq, be16, be32};
use std::alloc::Global;

/// The file is an ELF file for this machine and of this type.
#[tactic(auto, unfolding(crate::specs::Reading::ident_checks))]
pub fn check_ident(bytes: &[u8], machine: u16, kind: u16) -> Result<(), ElfFault>
    ensures checks { Names result (ident_checks machine kind bytes.now) }
    ensures long { OnOk result ((EHDR_SIZE ≤ length bytes.now) × (length bytes.now ≤ MAX_FILE_SIZE)) }
{
    if bytes.len() > MAX_FILE_SIZE as usize {
        return fault(ElfKind::TooLarge, MAX_FILE_SIZE as usize);
    }
    if bytes.len() < EHDR_SIZE {
        return fault(ElfKind::Truncated, bytes.len());
    }
    if be32(bytes, 0) != ELF_MAGIC {
        return fault(ElfKind::NotElf, 0);
    }
    if bytes[EI_CLASS] != ELFCLASS32 {
        return fault(ElfKind::WrongClass, EI_CLASS);
    }
    if bytes[EI_DATA] != ELFDATA2MSB {
        return fault(ElfKind::WrongClass, EI_DATA);
    }
    if bytes[EI_VERSION] != EI_CURRENT {
        return fault(ElfKind::WrongClass, EI_VERSION);
    }
    if be16(bytes, E_MACHINE) != machine {
        return fault(ElfKind::WrongMachine, E_MACHINE);
    }
    if be16(bytes, E_TYPE) != kind {
        return fault(ElfKind::WrongKind, E_TYPE);
    }
    Ok(())
}

/// Whether the file has no section header at all.
pub fn is_blank(bytes: &[u8]) -> bool
    requires { EHDR_SIZE ≤ length bytes.now }
    ensures { result ≡ is_blank bytes.now }
{
    be16(bytes, E_SHNUM) == 0 && be32(bytes, E_SHOFF) == 0
}

/// The table of section headers lies in the file.
#[tactic(auto, unfolding(crate::specs::Reading::front_checks))]
fn check_front(bytes: &[u8]) -> Result<(), ElfFault>
    requires { EHDR_SIZE ≤ length bytes.now }
    ensures checks { Names result (front_checks bytes.now) }
    ensures table { OnOk result ((be_number bytes.now E_SHOFF + SHDR_SIZE * be_half_number bytes.now E_SHNUM ≤ length bytes.now) × (be_half_number bytes.now E_SHNUM ≤ MAX_SECTIONS)) }
    ensures some { OnOk result (be_half_number bytes.now E_SHSTRNDX < be_half_number bytes.now E_SHNUM) }
{
    let count = be16(bytes, E_SHNUM) as usize;
    if be16(bytes, E_SHENTSIZE) as usize != SHDR_SIZE {
        return fault(ElfKind::BadTable, E_SHENTSIZE);
    }
    if count == 0 || count > MAX_SECTIONS as usize {
        return fault(ElfKind::BadTable, E_SHNUM);
    }
    if be16(bytes, E_SHSTRNDX) as usize >= count {
        return fault(ElfKind::BadTable, E_SHSTRNDX);
    }
    if bytes.len() < be32(bytes, E_SHOFF) as usize + SHDR_SIZE * count {
        return fault(ElfKind::Truncated, E_SHOFF);
    }
    Ok(())
}

/// The header of section k.
#[tactic(auto, unfolding(crate::specs::Reading::header))]
fn header_of(bytes: &[u8], k: usize) -> Header
    requires table { be_number bytes.now E_SHOFF + SHDR_SIZE * k + SHDR_SIZE ≤ length bytes.now }
    requires front { EHDR_SIZE ≤ length bytes.now }
    requires small { length bytes.now ≤ MAX_FILE_SIZE }
    ensures value { result ≡ header bytes.now k }
    ensures near { IsNear result }
{
    let at = be32(bytes, E_SHOFF) as usize + SHDR_SIZE * k;
    Header {
        place: at,
        name: be32(bytes, at),
        kind: if k == 0 {
            SHT_NULL
        } else {
            be32(bytes, at + SH_TYPE)
        },
        flags: be32(bytes, at + SH_FLAGS),
        offset: be32(bytes, at + SH_OFFSET),
        size: be32(bytes, at + SH_SIZE),
        link: be32(bytes, at + SH_LINK),
        info: be32(bytes, at + SH_INFO),
        align: be32(bytes, at + SH_ADDRALIGN),
        entry_size: be32(bytes, at + SH_ENTSIZE),
    }
}

/// The section headers.
fn headers_of(alloc: Global, bytes: &[u8]) -> Result<Seq<Header>, OutOfMemory>
    requires table { be_number bytes.now E_SHOFF + SHDR_SIZE * be_half_number bytes.now E_SHNUM ≤ length bytes.now }
    requires front { EHDR_SIZE ≤ length bytes.now }
    requires small { length bytes.now ≤ MAX_FILE_SIZE }
    ensures value { IfOk result (λ v. v ≡ headers bytes.now) }
    ensures near { IfOk result (λ v. All IsNear v) }
{
    let mut all = Seq::new(alloc);
    for k in 0..be16(bytes, E_SHNUM) as usize {
        all.push(header_of(bytes, k))?;
    }
    Ok(all)
}

/// A section isn't compressed, lies in the file, and has a good alignment.
fn check_section(len: usize, h: &Header) -> Result<(), ElfFault>
    requires { IsNear h.now }
    ensures checks { Names result (section_checks len h.now) }
    ensures lies { OnOk result (Lies len h.now) }
{
    if h.flags & SHF_COMPRESSED != 0 {
        return fault(ElfKind::Compressed, h.place + SH_FLAGS);
    }
    if h.kind != SHT_NOBITS && len < h.offset as usize + h.size as usize {
        return fault(ElfKind::Truncated, h.place + SH_OFFSET);
    }
    if h.align != 0 && !h.align.is_power_of_two() {
        return fault(ElfKind::BadTable, h.place + SH_ADDRALIGN);
    }
    Ok(())
}

/// Each section is so.
fn check_sections(len: usize, headers: &[Header]) -> Result<(), ElfFault>
    requires { All IsNear headers.now }
    ensures checks { Names result (each (section_checks len) headers.now) }
    ensures lie { OnOk result (All (Lies len) headers.now) }
{
    for h in headers {
        check_section(len, h)?;
    }
    Ok(())
}

/// The section with the names of sections is a string table.
#[tactic(auto, unfolding(crate::specs::Reading::strings_check))]
fn check_strings(h: &Header) -> Result<(), ElfFault>
    requires { IsNear h.now }
    ensures { Names result (strings_check h.now) }
{
    if h.kind != SHT_STRTAB {
        return fault(ElfKind::BadTable, h.place + SH_TYPE);
    }
    Ok(())
}

/// The header of section k, of type 0 where there is none.
pub fn header_or(headers: &[Header], k: usize) -> Header
    ensures { result ≡ header_or headers.now k }
{
    match headers.get(k) {
        Some(h) => *h,
        None => Header {
            place: 0,
            name: 0,
            kind: SHT_NULL,
            flags: 0,
            offset: 0,
            size: 0,
            link: 0,
            info: 0,
            align: 0,
            entry_size: 0,
        },
    }
}

/// The section headers: the table lies in the file, and each section is as it must be.
#[tactic(auto, using(crate::proofs::Headers::length_headers, crate::proofs::Headers::all_lie), unfolding(crate::specs::Reading::header_checks))]
pub fn check_headers(alloc: Global, bytes: &[u8]) -> Result<Seq<Header>, ElfFault>
    requires front { EHDR_SIZE ≤ length bytes.now }
    requires small { length bytes.now ≤ MAX_FILE_SIZE }
    ensures checks { Names result (header_checks bytes.now) }
    ensures value { IfOk result (λ hs. hs ≡ headers bytes.now) }
    ensures near { IfOk result (λ hs. All IsNear hs) }
    ensures lie { IfOk result (λ hs. All (Lies (length bytes.now)) hs) }
    ensures few { IfOk result (λ hs. length hs ≤ MAX_SECTIONS) }
    ensures some { IfOk result (λ hs. 0 < length hs) }
{
    check_front(bytes)?;
    let headers = headers_of(alloc, bytes)?;
    check_sections(bytes.len(), &headers.as_slice()[1..])?;
    check_strings(&header_or(headers.as_slice(), be16(bytes, E_SHSTRNDX) as usize))?;
    Ok(headers)
}
