//! The section headers of an executable, and its padding.

ghost use Rattle.std.specs.Prelude.{◌≡◌, ◌+◌, ◌*◌, ◌≤◌, ◌<◌, ◌^◌, length, OnOk};
ghost use Rattle.spu_elf.specs.Checks.{Names};
ghost use Rattle.spu_elf.specs.Bounds.{IsFar};
ghost use Rattle.spu_elf.specs.Executables.{names_end, tables_with, tables_in, head_check, heads_check, symbols_head_check, strings_heads_check, section_heads_check, padding_check};
ghost use Rattle.spu_word.specs.declared.limits.TheConstants.{MAX_FILE_SIZE};
ghost use Rattle.spu_elf.specs.declared.constants.TheConstants.{EHDR_SIZE, MAX_SEGMENTS, SHDR_SIZE};

use crate::constants::{E_SHOFF, SH_ADDRALIGN, SH_LINK, SH_SIZE, SHDR_SIZE, SYM_SIZE, TABLE_ALIGN};
use crate::faults::{ElfFault, ElfKind};
use crate::reading::fields::{check_word, check_words, check_zeros, fault, word_at};
use crate::reading::program_headers::{Load, check_gaps, is_uneven, loads_end};
use crate::rows::{Head, begins, front_size, gap};
use crate::writing::lengths::segment_name_len;
use spu_word::be32;

/// The places and sizes of the tables of an executable.
#[derive(Clone, Copy)]
pub struct Tables {
    /// Where the section headers begin.
    pub headers: usize,
    /// Where the header of the symbol table stands.
    pub head: usize,
    /// Where the symbol table begins.
    pub symbols: usize,
    /// How long it is.
    pub symbols_size: usize,
    /// Where the names of symbols begin.
    pub strings: usize,
    /// How long their table is.
    pub strings_size: usize,
    /// Where the names of sections begin.
    pub names: usize,
    /// How long the names of the segments' sections are, with the zero byte before them.
    pub segment_names: usize,
    /// Where the tables end.
    pub end: usize,
}

/// How long the names of the segments' sections are, with the zero byte before them.
fn names_end(loads: &[Load]) -> usize
    requires few { length loads.now ≤ MAX_SEGMENTS }
    ensures value { result ≡ names_end 1 0 loads.now }
    ensures small { result ≤ 1000000 }
{
    let mut len = 1;
    for (k, _load) in loads.iter().enumerate() {
        len = len + segment_name_len(k) as usize + 1;
    }
    len
}

/// Tables with these places and sizes.
fn tables_with(
    headers: usize,
    head: usize,
    symbols: usize,
    symbols_size: usize,
    strings_size: usize,
    segment_names: usize,
) -> Tables
    requires symbols { symbols < 2 ^ 60 }
    requires symbols_size { symbols_size < 2 ^ 60 }
    requires strings_size { strings_size < 2 ^ 60 }
    requires segment_names { segment_names < 2 ^ 60 }
    ensures { result ≡ tables_with headers head symbols symbols_size strings_size segment_names }
{
    let strings = symbols + symbols_size;
    let names = strings + strings_size;
    Tables {
        headers,
        head,
        symbols,
        symbols_size,
        strings,
        strings_size,
        names,
        segment_names,
        end: names + (segment_names + 26),
    }
}

/// The tables behind these segments.
#[tactic(auto, unfolding(crate::specs::Executables::tables_in))]
pub fn tables_in(bytes: &[u8], loads: &[Load]) -> Tables
    requires front { EHDR_SIZE ≤ length bytes.now }
    requires few { length loads.now ≤ MAX_SEGMENTS }
    ensures value { result ≡ tables_in bytes.now loads.now }
    ensures near { IsFar result }
    ensures head { result.head ≡ result.headers + SHDR_SIZE * (length loads.now + 1) }
{
    let headers = be32(bytes, E_SHOFF) as usize;
    let head = headers + SHDR_SIZE * (loads.len() + 1);
    tables_with(
        headers,
        head,
        loads_end(front_size(loads.len()), loads),
        word_at(bytes, head + SH_SIZE) as usize,
        word_at(bytes, head + (SHDR_SIZE + SH_SIZE)) as usize,
        names_end(loads),
    )
}

/// The section header of segment k, where the bytes before the segment end at `at`.
fn check_head(
    bytes: &[u8],
    headers: usize,
    k: usize,
    at: usize,
    place: usize,
    l: &Load,
) -> Result<(), ElfFault>
    requires small { length bytes.now ≤ MAX_FILE_SIZE }
    requires headers { headers < 2 ^ 32 }
    requires few { k < MAX_SEGMENTS }
    requires near { at < 2 ^ 60 }
    ensures { Names result (head_check bytes.now headers k at place l.now) }
{
    let head = Head::segment(k, l.address, l.size as usize);
    check_words(
        bytes,
        ElfKind::BadTable,
        headers + SHDR_SIZE * (k + 1),
        &head.words(place, begins(at)),
    )
}

/// The section headers of segments.
fn check_heads(bytes: &[u8], headers: usize, from: usize, loads: &[Load]) -> Result<(), ElfFault>
    requires small { length bytes.now ≤ MAX_FILE_SIZE }
    requires headers { headers < 2 ^ 32 }
    requires few { length loads.now ≤ MAX_SEGMENTS }
    requires near { from ≤ 1000000 }
    ensures { Names result (heads_check bytes.now headers 0 from 1 loads.now) }
{
    let mut at = from;
    let mut place = 1;
    for (k, l) in loads.iter().enumerate() {
        check_head(bytes, headers, k, at, place, l)?;
        at = begins(at) + l.size as usize;
        place = place + segment_name_len(k) as usize + 1;
    }
    Ok(())
}

/// The header of the symbol table, without its info.
#[tactic(auto, unfolding(crate::specs::Executables::symbols_head_check))]
fn check_symbols_head(bytes: &[u8], n: usize, t: &Tables) -> Result<(), ElfFault>
    requires small { length bytes.now ≤ MAX_FILE_SIZE }
    requires few { n ≤ MAX_SEGMENTS }
    requires far { IsFar t.now }
    ensures { Names result (symbols_head_check bytes.now n t.now) }
{
    let kind = ElfKind::BadTable;
    let row = Head::symbols(n + 2, t.symbols_size, 0).words(t.segment_names, t.symbols);
    check_words(bytes, kind, t.head, &row[..6])?;
    if is_uneven(SYM_SIZE, t.symbols_size) {
        return fault(kind, t.head + SH_SIZE);
    }
    check_word(bytes, kind, t.head + SH_LINK, n + 2)?;
    check_words(bytes, kind, t.head + SH_ADDRALIGN, &row[8..])
}

/// The headers of both string tables.
#[tactic(auto, unfolding(crate::specs::Executables::strings_heads_check))]
fn check_strings_heads(bytes: &[u8], t: &Tables) -> Result<(), ElfFault>
    requires small { length bytes.now ≤ MAX_FILE_SIZE }
    requires far { IsFar t.now }
    ensures checks { Names result (strings_heads_check bytes.now t.now) }
    ensures inside { OnOk result (t.now.head + 3 * SHDR_SIZE ≤ length bytes.now) }
{
    let kind = ElfKind::BadTable;
    let place = t.segment_names;
    let row = Head::strings(t.strings_size).words(place + 8, t.strings);
    check_words(bytes, kind, t.head + SHDR_SIZE, &row[..6])?;
    if t.strings_size == 0 {
        return fault(kind, t.head + (SHDR_SIZE + SH_SIZE));
    }
    check_words(bytes, kind, t.head + (SHDR_SIZE + SH_LINK), &row[6..])?;
    let row = Head::strings(place + 26).words(place + 16, t.names);
    check_words(bytes, kind, t.head + 2 * SHDR_SIZE, &row)
}

/// The section headers, and the place that the header of the file gives them.
#[tactic(auto, unfolding(crate::specs::Executables::section_heads_check))]
pub fn check_section_heads(bytes: &[u8], loads: &[Load], t: &Tables) -> Result<(), ElfFault>
    requires small { length bytes.now ≤ MAX_FILE_SIZE }
    requires few { length loads.now ≤ MAX_SEGMENTS }
    requires far { IsFar t.now }
    ensures checks { Names result (section_heads_check bytes.now loads.now t.now) }
    ensures inside { OnOk result (t.now.head + 3 * SHDR_SIZE ≤ length bytes.now) }
    ensures ends { OnOk result (t.now.end ≤ t.now.headers) }
{
    let kind = ElfKind::BadTable;
    check_words(bytes, kind, t.headers, &[0; 10])?;
    check_heads(bytes, t.headers, front_size(loads.len()), loads)?;
    check_symbols_head(bytes, loads.len(), t)?;
    check_strings_heads(bytes, t)?;
    if t.headers != t.end + gap(TABLE_ALIGN, t.end) {
        return fault(kind, E_SHOFF);
    }
    Ok(())
}

/// The padding before each segment and before the section headers.
#[tactic(auto, unfolding(crate::specs::Executables::padding_check))]
pub fn check_padding(bytes: &[u8], loads: &[Load], t: &Tables) -> Result<(), ElfFault>
    requires small { length bytes.now ≤ MAX_FILE_SIZE }
    requires few { length loads.now ≤ MAX_SEGMENTS }
    requires far { IsFar t.now }
    ensures { Names result (padding_check bytes.now loads.now t.now) }
{
    check_gaps(bytes, front_size(loads.len()), loads)?;
    check_zeros(bytes, t.end, gap(TABLE_ALIGN, t.end))
}
