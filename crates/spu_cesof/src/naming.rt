//! The symbols of an object, and their names.

ghost use Rattle.std.specs.Prelude.{◌≡◌, ◌+◌, ◌*◌, ◌≤◌, ◌<◌, ◌^◌, ◌∷◌, length, OnOk, IfOk};
ghost use Rattle.spu_word.specs.declared.limits.TheConstants.{MAX_FILE_SIZE, MAX_SYMBOLS};
ghost use Rattle.spu_elf.specs.declared.constants.TheConstants.{SHDR_SIZE, SYM_SIZE};
ghost use Rattle.spu_elf.specs.Checks.{Names};
ghost use Rattle.spu_cesof.specs.Bounds.{IsFar, IsInside};
ghost use Rattle.spu_cesof.specs.Embedding.{named_symbols};
ghost use Rattle.spu_cesof.specs.Outline.{section_names};
ghost use Rattle.spu_cesof.specs.declared.constants.TheConstants.{FIRST_ENTRY};
ghost use Rattle.spu_cesof.specs.Unpacking.{names_in, strings_in, name_in, entry_names_in, joined, symbol_check, named_check, named_checks, section_symbols_check, symbols_check, names_check, strings_check};

use crate::constants::FIRST_ENTRY;
use crate::object::{add_named, section_symbol};
use crate::places::{Places, symbols_number};
use spu_elf::constants::{SH_INFO, SHDR_SIZE, ST_INFO, ST_SHNDX, SYM_SIZE};
use spu_elf::spelling::{
    after_name, check_byte, check_bytes, check_half, check_name, check_null, check_word,
    check_words, fault, first_name, part, place_number, symbol_info,
};
use spu_elf::{ElfFault, ElfKind, Symbol};
use spu_word::{Name, OutOfMemory, Seq};
use std::alloc::Global;

/// The names that a table begins with, so many of them.
#[tactic(auto, using(crate::proofs::NameParts::names_done))]
fn names_in(alloc: Global, names: &[u8], count: usize) -> Result<Seq<Name>, OutOfMemory>
    requires few { count ≤ MAX_FILE_SIZE }
    requires names { length names.now ≤ MAX_FILE_SIZE }
    ensures value { IfOk result (λ all. all ≡ names_in names.now count) }
    ensures count { IfOk result (λ all. length all ≡ count) }
    ensures total { IfOk result (λ all. length (joined all) ≤ length names.now + count) }
{
    let mut rest = names;
    let mut all = Seq::new(alloc);
    for _k in 0..count {
        all.push(Seq::copied(alloc, first_name(rest))?)?;
        rest = after_name(rest);
    }
    Ok(all)
}

/// The names of the handle and of the entries.
#[derive(Drop)]
pub struct Naming {
    /// The handle's.
    pub handle: Name,
    /// Those of the entries, in order.
    pub entries: Seq<Name>,
}

/// What stands in the table of names from 1 on.
fn strings_in<'a>(bytes: &'a [u8], p: &Places) -> &'a [u8]
    ensures value { result.now ≡ strings_in bytes.now p.now }
    ensures within { length result.now ≤ length bytes.now }
{
    let strings = part(bytes, p.strings, p.strings_size);
    part(strings, 1, strings.len())
}

/// The names that are read.
pub fn naming_in(alloc: Global, bytes: &[u8], p: &Places) -> Result<Naming, OutOfMemory>
    requires small { length bytes.now ≤ MAX_FILE_SIZE }
    requires few { p.now.entries ≤ MAX_SYMBOLS }
    ensures handle { IfOk result (λ n. n.handle ≡ name_in bytes.now p.now) }
    ensures entries { IfOk result (λ n. n.entries ≡ entry_names_in bytes.now p.now) }
    ensures count { IfOk result (λ n. length n.entries ≡ p.now.entries) }
    ensures short { IfOk result (λ n. length n.handle ≤ MAX_FILE_SIZE) }
    ensures total { IfOk result (λ n. length (joined n.entries) ≤ 2 * MAX_FILE_SIZE) }
{
    let strings = strings_in(bytes, p);
    Ok(Naming {
        handle: Seq::copied(alloc, first_name(strings))?,
        entries: names_in(alloc, after_name(strings), p.entries)?,
    })
}

/// A symbol has these fields, and its name stands at `name`.
#[tactic(auto, unfolding(crate::specs::Unpacking::symbol_check))]
fn check_symbol(bytes: &[u8], place: usize, name: usize, s: &Symbol) -> Result<(), ElfFault>
    requires small { length bytes.now ≤ MAX_FILE_SIZE }
    requires near { place ≤ MAX_FILE_SIZE }
    ensures { Names result (symbol_check bytes.now place name s.now) }
{
    let kind = ElfKind::BadSymbol;
    check_words(
        bytes,
        kind,
        place,
        &[name, s.value as usize, s.size as usize],
    )?;
    let info = symbol_info(s.global, s.kind);
    check_bytes(bytes, kind, place + ST_INFO, &[info, 0])?;
    check_half(bytes, kind, place + ST_SHNDX, place_number(s.place))
}

/// A symbol with a name has these fields, and its name ends in its table.
#[tactic(auto, unfolding(crate::specs::Unpacking::named_check))]
fn check_named(
    bytes: &[u8],
    p: &Places,
    place: usize,
    at: usize,
    s: &Symbol,
) -> Result<(), ElfFault>
    requires small { length bytes.now ≤ MAX_FILE_SIZE }
    requires near { place ≤ MAX_FILE_SIZE }
    requires names { p.now.names ≤ MAX_FILE_SIZE }
    requires at { at ≤ 2 ^ 32 }
    ensures checks { Names result (named_check bytes.now p.now place at s.now) }
    ensures ends { OnOk result (at + length s.now.name < p.now.strings_size) }
{
    if at < p.strings_size && s.name.is_empty() {
        return fault(ElfKind::BadSymbol, place);
    }
    check_symbol(bytes, place, at, s)?;
    if p.strings_size <= at + s.name.len() {
        return fault(ElfKind::BadName, p.names);
    }
    Ok(())
}

/// The symbols with names, from a place on.
fn check_all_named(
    bytes: &[u8],
    p: &Places,
    from: usize,
    symbols: &[Symbol],
) -> Result<(), ElfFault>
    requires small { length bytes.now ≤ MAX_FILE_SIZE }
    requires near { from + SYM_SIZE * length symbols.now ≤ MAX_FILE_SIZE }
    requires names { p.now.names ≤ MAX_FILE_SIZE }
    requires strings { p.now.strings_size < 2 ^ 32 }
    ensures { Names result (named_checks bytes.now p.now from 1 symbols.now) }
{
    let mut place = from;
    let mut at = 1;
    for s in symbols {
        check_named(bytes, p, place, at, s)?;
        place += SYM_SIZE;
        at = at + s.name.len() + 1;
    }
    Ok(())
}

/// The null symbol, and the symbols of the three sections.
#[tactic(auto, unfolding(crate::specs::Unpacking::section_symbols_check))]
fn check_section_symbols(alloc: Global, bytes: &[u8], p: &Places) -> Result<(), ElfFault>
    requires small { length bytes.now ≤ MAX_FILE_SIZE }
    requires near { p.now.symbols + SYM_SIZE * FIRST_ENTRY ≤ MAX_FILE_SIZE }
    ensures { Names result (section_symbols_check bytes.now p.now) }
{
    check_null(bytes, p.symbols)?;
    check_symbol(bytes, p.symbols + SYM_SIZE, 0, &section_symbol(alloc, 0))?;
    check_symbol(
        bytes,
        p.symbols + 2 * SYM_SIZE,
        0,
        &section_symbol(alloc, 1),
    )?;
    check_symbol(
        bytes,
        p.symbols + 3 * SYM_SIZE,
        0,
        &section_symbol(alloc, 2),
    )
}

/// The symbol table, and the info in its header.
#[tactic(auto, unfolding(crate::specs::Unpacking::symbols_check))]
pub fn check_symbols(
    alloc: Global,
    bytes: &[u8],
    p: &Places,
    names: &Naming,
) -> Result<(), ElfFault>
    requires small { length bytes.now ≤ MAX_FILE_SIZE }
    requires far { IsFar p.now }
    requires inside { IsInside p.now }
    requires handle { names.now.handle ≡ name_in bytes.now p.now }
    requires entries { names.now.entries ≡ entry_names_in bytes.now p.now }
    requires count { length names.now.entries ≡ p.now.entries }
    ensures { Names result (symbols_check bytes.now p.now) }
{
    check_section_symbols(alloc, bytes, p)?;
    let mut symbols = Seq::new(alloc);
    add_named(
        &mut symbols,
        alloc,
        names.handle.as_slice(),
        names.entries.as_slice(),
    )?;
    let first = p.symbols + SYM_SIZE * FIRST_ENTRY;
    check_all_named(bytes, p, first, symbols.as_slice())?;
    let info = p.headers + SHDR_SIZE * symbols_number(p.entries) + SH_INFO;
    check_word(bytes, ElfKind::BadTable, info, FIRST_ENTRY)
}

/// Names are valid, and nothing stands between the last and `end`.
fn check_names(end: usize, from: usize, names: &[Name]) -> Result<(), ElfFault>
    requires { from + length (joined names.now) < 2 ^ 32 }
    ensures { Names result (names_check end from names.now) }
{
    let mut at = from;
    for name in names {
        check_name(at, name.as_slice())?;
        at = at + name.len() + 1;
    }
    if at < end {
        return fault(ElfKind::BadName, at);
    }
    Ok(())
}

/// The names of sections.
fn section_names(entries: usize) -> &'static [u8]
    ensures { result.now ≡ section_names entries }
{
    if entries == 0 {
        b"\0.rodata.speelf\0.data.spetoe\0.data.spehandle\0.rela.data.spehandle\0.symtab\0.strtab\0.shstrtab\0"
    } else {
        b"\0.rodata.speelf\0.data.spetoe\0.data.spehandle\0.rela.data.spetoe\0.rela.data.spehandle\0.symtab\0.strtab\0.shstrtab\0"
    }
}

/// Both string tables.
#[tactic(auto, unfolding(crate::specs::Unpacking::strings_check))]
pub fn check_strings(bytes: &[u8], p: &Places, names: &Naming) -> Result<(), ElfFault>
    requires small { length bytes.now ≤ MAX_FILE_SIZE }
    requires far { IsFar p.now }
    requires inside { IsInside p.now }
    requires handle { names.now.handle ≡ name_in bytes.now p.now }
    requires entries { names.now.entries ≡ entry_names_in bytes.now p.now }
    requires short { length names.now.handle ≤ MAX_FILE_SIZE }
    requires total { length (joined names.now.entries) ≤ 2 * MAX_FILE_SIZE }
    ensures { Names result (strings_check bytes.now p.now) }
{
    check_byte(bytes, ElfKind::BadName, p.strings, 0)?;
    let first = p.strings + 1;
    check_name(first, names.handle.as_slice())?;
    let next = first + names.handle.len() + 1;
    check_names(p.names, next, names.entries.as_slice())?;
    check_bytes(bytes, ElfKind::BadName, p.names, section_names(p.entries))
}
