//! Symbols and relocations, entry by entry.

ghost use Rattle.std.specs.Prelude.{◌≡◌, ◌+◌, ◌-◌, ◌*◌, ◌/◌, ◌≤◌, ◌<◌, ◌^◌, ◌∷◌, ◌++◌, ℕ, List, [], length, Option, Some, None, IfOk, OnOk, is_none};
ghost use Rattle.std.specs.List.{All, range_with_len};
ghost use Rattle.std.specs.Option.{option_map};
ghost use Rattle.spu_elf.specs.Bounds.{IsEntryNear, IsNear, IsWithin};
ghost use Rattle.spu_elf.specs.Checks.{Names, each};
ghost use Rattle.spu_elf.specs.Reading.{entry_at, entries, symbol_name_checks, passes, place_checks, symbol_checks, keeps_symbol, numbering, symbol_numbers, number_of, header_or, reloc_places, reloc_checks, relocs_checks};
ghost use Rattle.spu_word.specs.declared.limits.TheConstants.{MAX_FILE_SIZE, MAX_SYMBOLS};
ghost use Rattle.spu_elf.specs.declared.constants.TheConstants.{RELA_SIZE, SYM_SIZE};

use crate::constants::{
    R_INFO, R_NONE, R_SYM, RELA_SIZE, SHN_ABS, SHN_UNDEF, ST_BIND, ST_INFO, ST_SHNDX, ST_SIZE,
    ST_VALUE, STB_GLOBAL, STB_LOCAL, STT_FILE, STT_FUNC, SYM_SIZE,
};
use crate::faults::{ElfFault, ElfKind};
use crate::reading::entries::{Entry, Header};
use crate::reading::fields::fault;
use crate::reading::headers::header_or;
use crate::reading::tables::{is_unnamed, name_of, number_of};
use spu_word::limits::WORD_SIZE;
use spu_word::{OutOfMemory, Seq, be16, be32};
use std::alloc::Global;

/// The symbol at a place.
#[tactic(auto, unfolding(crate::specs::Reading::entry_at))]
fn entry_at(bytes: &[u8], at: usize) -> Entry
    requires inside { at + SYM_SIZE ≤ length bytes.now }
    requires small { length bytes.now ≤ MAX_FILE_SIZE }
    ensures value { result ≡ entry_at bytes.now at }
    ensures near { IsEntryNear result }
{
    Entry {
        place: at,
        name: be32(bytes, at),
        value: be32(bytes, at + ST_VALUE),
        size: be32(bytes, at + ST_SIZE),
        info: bytes[at + ST_INFO],
        shndx: be16(bytes, at + ST_SHNDX),
    }
}

/// The symbols after the null symbol.
#[tactic(auto, using(crate::proofs::Headers::length_entries))]
pub fn entries(alloc: Global, bytes: &[u8], h: &Header) -> Result<Seq<Entry>, OutOfMemory>
    requires inside { IsWithin (length bytes.now) h.now }
    requires small { length bytes.now ≤ MAX_FILE_SIZE }
    ensures value { IfOk result (λ ys. ys ≡ entries bytes.now h.now) }
    ensures near { IfOk result (λ ys. All IsEntryNear ys) }
    ensures few { IfOk result (λ ys. length ys ≤ MAX_SYMBOLS) }
{
    let at = h.offset as usize;
    let count = (h.size as usize / SYM_SIZE).saturating_sub(1);
    let mut all = Seq::new(alloc);
    for j in 0..count {
        all.push(entry_at(bytes, at + SYM_SIZE * (j + 1)))?;
    }
    Ok(all)
}

/// A symbol's name is ended, and valid or, where that may be, empty.
fn check_name(name: Option<&[u8]>, y: &Entry) -> Result<(), ElfFault>
    requires { IsEntryNear y.now }
    ensures { Names result (symbol_name_checks (option_map (λ x. x.now) name.entry) y.now) }
{
    if name.is_none() {
        return fault(ElfKind::BadName, y.place);
    }
    if is_unnamed(name) && (y.info / ST_BIND == STB_GLOBAL || y.info % ST_BIND == STT_FUNC) {
        return fault(ElfKind::BadName, y.place);
    }
    Ok(())
}

/// Whether a symbol passes the end of its section, where that is kept.
fn passes(headers: &[Header], numbers: &[Option<u32>], y: &Entry) -> bool
    ensures { result ≡ passes headers.now numbers.now y.now }
{
    let k = y.shndx as usize;
    let end = y.value as u64 + y.size as u64;
    number_of(numbers, k).is_some() && (header_or(headers, k).size as u64) < end
}

/// A symbol's kind and place are as they must be.
fn check_place(headers: &[Header], numbers: &[Option<u32>], y: &Entry) -> Result<(), ElfFault>
    requires near { IsEntryNear y.now }
    ensures { Names result (place_checks headers.now numbers.now y.now) }
{
    if y.info / ST_BIND > STB_GLOBAL || y.info % ST_BIND > STT_FILE {
        return fault(ElfKind::BadSymbol, y.place + ST_INFO);
    }
    if y.shndx != SHN_UNDEF && y.shndx != SHN_ABS && headers.len() <= y.shndx as usize {
        return fault(ElfKind::BadSymbol, y.place + ST_SHNDX);
    }
    if y.shndx == SHN_UNDEF && y.info / ST_BIND == STB_LOCAL {
        return fault(ElfKind::BadSymbol, y.place + ST_SHNDX);
    }
    if y.info % ST_BIND != STT_FILE && passes(headers, numbers, y) {
        return fault(ElfKind::BadSymbol, y.place + ST_VALUE);
    }
    Ok(())
}

/// A symbol is as it must be.
fn check_symbol(
    headers: &[Header],
    numbers: &[Option<u32>],
    table: &[u8],
    y: &Entry,
) -> Result<(), ElfFault>
    requires near { IsEntryNear y.now }
    ensures { Names result (symbol_checks headers.now numbers.now table.now y.now) }
{
    check_name(name_of(table, y.name as usize), y)?;
    check_place(headers, numbers, y)
}

/// Each symbol is.
pub fn check_symbols(
    headers: &[Header],
    numbers: &[Option<u32>],
    table: &[u8],
    entries: &[Entry],
) -> Result<(), ElfFault>
    requires near { All IsEntryNear entries.now }
    ensures { Names result (each (symbol_checks headers.now numbers.now table.now) entries.now) }
{
    for y in entries {
        check_symbol(headers, numbers, table, y)?;
    }
    Ok(())
}

/// Whether a symbol is kept.
pub fn keeps_symbol(numbers: &[Option<u32>], y: &Entry) -> bool
    ensures { result ≡ keeps_symbol numbers.now y.now }
{
    y.info % ST_BIND != STT_FILE
        && (y.shndx == SHN_UNDEF
            || y.shndx == SHN_ABS
            || number_of(numbers, y.shndx as usize).is_some())
}

/// The new numbers of symbols, of which the null symbol has none.
pub fn symbol_numbers(
    alloc: Global,
    numbers: &[Option<u32>],
    entries: &[Entry],
) -> Result<Seq<Option<u32>>, OutOfMemory>
    requires { length entries.now ≤ MAX_SYMBOLS }
    ensures { IfOk result (λ xs. xs ≡ symbol_numbers numbers.now entries.now) }
{
    let mut all = Seq::new(alloc);
    all.push(None)?;
    let mut next = 0;
    for y in entries {
        if keeps_symbol(numbers, y) {
            all.push(Some(next))?;
            next += 1;
        } else {
            all.push(None)?;
        }
    }
    Ok(all)
}

/// A relocation is as it must be, for a target of this size.
#[tactic(auto, unfolding(crate::specs::Reading::reloc_checks))]
fn check_reloc(bytes: &[u8], size: u32, symbols: &[Option<u32>], at: usize) -> Result<(), ElfFault>
    requires inside { at + RELA_SIZE ≤ length bytes.now }
    requires small { length bytes.now ≤ MAX_FILE_SIZE }
    ensures { Names result (reloc_checks bytes.now size symbols.now at) }
{
    let info = be32(bytes, at + R_INFO);
    if info % R_SYM == R_NONE {
        return Ok(());
    }
    if (size as u64) < be32(bytes, at) as u64 + WORD_SIZE as u64 {
        return fault(ElfKind::BadReloc, at);
    }
    if number_of(symbols, (info / R_SYM) as usize).is_none() {
        return fault(ElfKind::BadReloc, at + R_INFO);
    }
    Ok(())
}

/// Each relocation of a table is.
#[tactic(auto, using(crate::proofs::Ranges::at_from, crate::proofs::Ranges::at_done))]
fn check_table(
    bytes: &[u8],
    headers: &[Header],
    symbols: &[Option<u32>],
    h: &Header,
) -> Result<(), ElfFault>
    requires inside { IsWithin (length bytes.now) h.now }
    requires small { length bytes.now ≤ MAX_FILE_SIZE }
    ensures { Names result (relocs_checks bytes.now headers.now symbols.now h.now) }
{
    let size = header_or(headers, h.info as usize).size;
    let at = h.offset as usize;
    let n = h.size as usize / RELA_SIZE;
    for j in 0..n {
        check_reloc(bytes, size, symbols, at + RELA_SIZE * j)?;
    }
    Ok(())
}

/// Each relocation of each table is.
pub fn check_relocs(
    bytes: &[u8],
    headers: &[Header],
    symbols: &[Option<u32>],
    tables: &[Header],
) -> Result<(), ElfFault>
    requires within { All (IsWithin (length bytes.now)) tables.now }
    requires small { length bytes.now ≤ MAX_FILE_SIZE }
    ensures { Names result (each (relocs_checks bytes.now headers.now symbols.now) tables.now) }
{
    for h in tables {
        check_table(bytes, headers, symbols, h)?;
    }
    Ok(())
}
