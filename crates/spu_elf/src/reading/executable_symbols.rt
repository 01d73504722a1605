//! The symbol table and the string tables of an executable.

ghost use Rattle.std.specs.Prelude.{◌≡◌, ◌+◌, ◌≤◌, ◌<◌, ◌^◌, ◌∷◌, ◌++◌, ◌==◌, ◌&&◌, length, take, slice_index_or, nat_le, IfOk, false};
ghost use Rattle.std.specs.List.{All};
ghost use Rattle.spu_elf.specs.Bounds.{IsEntryNear, IsFar};
ghost use Rattle.spu_elf.specs.Checks.{Names};
ghost use Rattle.spu_elf.specs.Executables.{null_check, is_info, symbol_check, symbols_check, locals_listed, symbol_table_check, name_len, after_name, valid_len, name_check, names_check, segment_names, table_names, strings_check, strings_of, symbols_listed};
ghost use Rattle.spu_word.specs.declared.limits.TheConstants.{MAX_FILE_SIZE, MAX_SYMBOLS};
ghost use Rattle.spu_elf.specs.declared.constants.TheConstants.{MAX_SEGMENTS};

use crate::constants::{
    SH_INFO, SHN_ABS, SHN_UNDEF, ST_BIND, ST_INFO, ST_OTHER, ST_SHNDX, STB_GLOBAL, STT_FUNC,
};
use crate::faults::{ElfFault, ElfKind};
use crate::names::is_printed;
use crate::reading::entries::Entry;
use crate::reading::fields::{
    check_byte, check_bytes, check_half, check_word, check_words, fault, part,
};
use crate::reading::program_headers::Load;
use crate::reading::section_headers::Tables;
use crate::rows::segment_name;
use spu_word::limits::MAX_NAME_SIZE;
use spu_word::{Bytes, OutOfMemory, Seq};
use std::alloc::Global;

/// How long the name is that the rest of a string table begins with.
pub fn name_len(rest: &[u8]) -> usize
    ensures value { result ≡ name_len rest.now }
    ensures within { result ≤ length rest.now }
{
    for (i, c) in rest.iter().enumerate() {
        if *c == 0 {
            return i;
        }
    }
    rest.len()
}

/// The name that the rest of a string table begins with.
pub fn first_name(rest: &[u8]) -> &[u8]
    ensures { result.now ≡ take (name_len rest.now) rest.now }
{
    &rest[..name_len(rest)]
}

/// What is after that name and its zero byte.
pub fn after_name(rest: &[u8]) -> &[u8]
    ensures { result.now ≡ after_name rest.now }
{
    part(rest, name_len(rest) + 1, rest.len())
}

/// The names of symbols.
pub fn strings_of<'a>(bytes: &'a [u8], t: &Tables) -> &'a [u8]
    ensures { result.now ≡ strings_of bytes.now t.now }
{
    part(bytes, t.strings, t.strings_size)
}

/// Whether the rest of a string table begins with a zero byte.
fn is_empty_name(rest: &[u8]) -> bool
    ensures { result ≡ (slice_index_or rest.now 0 1 == 0) }
{
    match rest.get(0) {
        Some(c) => *c == 0,
        None => false,
    }
}

/// Whether this is the info of a local or global symbol of type 0, 1 or 2.
fn is_info(info: u8) -> bool
    ensures { result ≡ is_info info }
{
    info / ST_BIND <= STB_GLOBAL && info % ST_BIND <= STT_FUNC
}

/// The null symbol.
#[tactic(auto, unfolding(crate::specs::Executables::null_check))]
pub fn check_null(bytes: &[u8], at: usize) -> Result<(), ElfFault>
    requires small { length bytes.now ≤ MAX_FILE_SIZE }
    requires near { at ≤ MAX_FILE_SIZE }
    ensures { Names result (null_check bytes.now at) }
{
    let kind = ElfKind::BadSymbol;
    check_words(bytes, kind, at, &[0, 0, 0])?;
    check_bytes(bytes, kind, at + ST_INFO, &[0, 0])?;
    check_half(bytes, kind, at + ST_SHNDX, 0)
}

/// A symbol of an executable of n segments, whose name is to stand at `at`, where the string table
/// goes on with `rest` and ends at `end`; `seen` is whether the symbol before it is global.
#[tactic(auto, unfolding(crate::specs::Executables::symbol_check))]
fn check_symbol(
    bytes: &[u8],
    n: usize,
    end: usize,
    at: usize,
    seen: bool,
    rest: &[u8],
    y: &Entry,
) -> Result<(), ElfFault>
    requires small { length bytes.now ≤ MAX_FILE_SIZE }
    requires end { end ≤ MAX_FILE_SIZE }
    requires near { IsEntryNear y.now }
    ensures { Names result (symbol_check bytes.now n end at seen rest.now y.now) }
{
    let kind = ElfKind::BadSymbol;
    if y.name as usize != at || is_empty_name(rest) {
        return fault(kind, y.place);
    }
    if !is_info(y.info) || seen && y.info < ST_BIND {
        return fault(kind, y.place + ST_INFO);
    }
    check_byte(bytes, kind, y.place + ST_OTHER, 0)?;
    if y.shndx != SHN_ABS && (y.shndx == SHN_UNDEF || n < y.shndx as usize) {
        return fault(kind, y.place + ST_SHNDX);
    }
    if name_len(rest) == rest.len() {
        return fault(ElfKind::BadName, end);
    }
    Ok(())
}

/// The symbols after the null symbol; `names` is what stands in the string table from 1 on.
fn check_symbols(
    bytes: &[u8],
    n: usize,
    end: usize,
    names: &[u8],
    listed: &[Entry],
) -> Result<(), ElfFault>
    requires small { length bytes.now ≤ MAX_FILE_SIZE }
    requires end { end ≤ MAX_FILE_SIZE }
    requires names { length names.now ≤ MAX_FILE_SIZE }
    requires few { length listed.now ≤ MAX_SYMBOLS }
    requires near { All IsEntryNear listed.now }
    ensures { Names result (symbols_check bytes.now n end 1 false names.now listed.now) }
{
    let mut at = 1;
    let mut seen = false;
    let mut rest = names;
    for y in listed {
        check_symbol(bytes, n, end, at, seen, rest, y)?;
        at = at + name_len(rest) + 1;
        seen = y.info >= ST_BIND;
        rest = after_name(rest);
    }
    Ok(())
}

/// How many symbols stand before the first global one.
fn locals_listed(listed: &[Entry]) -> usize
    ensures value { result ≡ locals_listed listed.now }
    ensures within { result ≤ length listed.now }
{
    for (i, y) in listed.iter().enumerate() {
        if y.info >= ST_BIND {
            return i;
        }
    }
    listed.len()
}

/// The symbol table, and the info in its header.
#[tactic(auto, unfolding(crate::specs::Executables::symbol_table_check))]
pub fn check_symbol_table(
    bytes: &[u8],
    n: usize,
    t: &Tables,
    listed: &[Entry],
) -> Result<(), ElfFault>
    requires small { length bytes.now ≤ MAX_FILE_SIZE }
    requires inside { t.now.names ≤ length bytes.now }
    requires far { IsFar t.now }
    requires few { length listed.now ≤ MAX_SYMBOLS }
    requires near { All IsEntryNear listed.now }
    requires listed { listed.now ≡ symbols_listed bytes.now t.now }
    ensures { Names result (symbol_table_check bytes.now n t.now) }
{
    check_null(bytes, t.symbols)?;
    let strings = strings_of(bytes, t);
    check_symbols(bytes, n, t.names, part(strings, 1, strings.len()), listed)?;
    check_word(
        bytes,
        ElfKind::BadTable,
        t.head + SH_INFO,
        locals_listed(listed) + 1,
    )
}

/// How much of a name is valid.
fn valid_len(name: &[u8]) -> usize
    ensures value { result ≡ valid_len name.now }
    ensures within { result ≤ length name.now }
{
    let text = part(name, 0, MAX_NAME_SIZE as usize);
    for (i, c) in text.iter().enumerate() {
        if !is_printed(*c) {
            return i;
        }
    }
    text.len()
}

/// A name is valid.
pub fn check_name(at: usize, name: &[u8]) -> Result<(), ElfFault>
    requires { at + length name.now < 2 ^ 32 }
    ensures { Names result (name_check at name.now) }
{
    let valid = valid_len(name);
    if valid < name.len() {
        return fault(ElfKind::BadName, at + valid);
    }
    Ok(())
}

/// There is one name for each symbol, and nothing after the last.
#[tactic(auto, using(crate::proofs::ExecutableLoops::each_name_from))]
fn check_names(from: usize, names: &[u8], listed: &[Entry]) -> Result<(), ElfFault>
    requires from { from ≤ MAX_FILE_SIZE + 1 }
    requires names { length names.now ≤ MAX_FILE_SIZE }
    requires few { length listed.now ≤ MAX_SYMBOLS }
    ensures { Names result (names_check from names.now listed.now) }
{
    let mut at = from;
    let mut rest = names;
    for _symbol in listed {
        check_name(at, first_name(rest))?;
        at = at + name_len(rest) + 1;
        rest = after_name(rest);
    }
    if !rest.is_empty() {
        return fault(ElfKind::BadName, at);
    }
    Ok(())
}

/// The names of sections.
fn section_names(alloc: Global, loads: &[Load]) -> Result<Bytes, OutOfMemory>
    ensures { IfOk result (λ b. b ≡ 0 ∷ segment_names 0 loads.now ++ table_names) }
{
    let mut all = Seq::new(alloc);
    all.push(0)?;
    for (k, _load) in loads.iter().enumerate() {
        all.extend(segment_name(alloc, k)?.as_slice())?;
        all.push(0)?;
    }
    all.extend(b".symtab\0.strtab\0.shstrtab\0")?;
    Ok(all)
}

/// Both string tables.
#[tactic(auto, unfolding(crate::specs::Executables::strings_check))]
pub fn check_strings(
    alloc: Global,
    bytes: &[u8],
    loads: &[Load],
    t: &Tables,
    listed: &[Entry],
) -> Result<(), ElfFault>
    requires small { length bytes.now ≤ MAX_FILE_SIZE }
    requires inside { t.now.names ≤ length bytes.now }
    requires far { IsFar t.now }
    requires few { length listed.now ≤ MAX_SYMBOLS }
    requires segments { length loads.now ≤ MAX_SEGMENTS }
    requires listed { listed.now ≡ symbols_listed bytes.now t.now }
    ensures { Names result (strings_check bytes.now loads.now t.now) }
{
    check_byte(bytes, ElfKind::BadName, t.strings, 0)?;
    let strings = strings_of(bytes, t);
    check_names(t.strings + 1, part(strings, 1, strings.len()), listed)?;
    let expected = section_names(alloc, loads)?;
    check_bytes(bytes, ElfKind::BadName, t.names, expected.as_slice())
}
