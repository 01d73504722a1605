//! Where the parts of an object lie that embeds an executable, and its section headers.

ghost use Rattle.std.specs.Prelude.{◌≡◌, ◌+◌, ◌*◌, ◌≤◌, ◌<◌, ◌^◌, ◌-◌, length};
ghost use Rattle.spu_word.specs.Bytes.{be_number};
ghost use Rattle.spu_elf.specs.declared.constants.TheConstants.{EHDR_SIZE, SHDR_SIZE, SH_SIZE};
ghost use Rattle.spu_cesof.specs.Outline.{with_entries, section_count, symbols_number, later_names, table_names, names_size, sections_in, at_least_one, entries_in, places_from, places_with, places_in};
ghost use Rattle.spu_cesof.specs.Bounds.{IsFar};

use crate::constants::{
    FIRST_ENTRY, HANDLE_ALIGN, HANDLE_NAME, HANDLE_RELOCS_NAME_SIZE, HANDLE_SIZE, IMAGE_ALIGN,
    IMAGE_NAME, NAMES_NAME_SIZE, RELOCS_NAME, SECTION_COUNT, TABLE_NAME_SIZE, TOE_ENTRY_SIZE,
    TOE_NAME, TOE_RELOCS_NAME_SIZE,
};
use spu_elf::SecKind;
use spu_elf::constants::{E_SHNUM, E_SHOFF, RELA_SIZE, SECTION_STEP, SH_SIZE, SHDR_SIZE, SYM_SIZE};
use spu_elf::spelling::{Head, gap, word_at};
use spu_word::be16;

/// The places and sizes of the parts of an object.
#[derive(Clone, Copy)]
pub struct Places {
    /// Where the section headers begin.
    pub headers: usize,
    /// How long the executable's file is, which begins at 128.
    pub image_size: usize,
    /// How many entries the table has.
    pub entries: usize,
    /// Where the table begins.
    pub toe: usize,
    /// Where the handle begins.
    pub handle: usize,
    /// Where the table's relocations begin.
    pub toe_relocs: usize,
    /// Where the handle's relocations begin.
    pub handle_relocs: usize,
    /// Where the symbol table begins.
    pub symbols: usize,
    /// Where the names of symbols begin.
    pub strings: usize,
    /// How long their table is.
    pub strings_size: usize,
    /// Where the names of sections begin.
    pub names: usize,
    /// Where they end.
    pub end: usize,
}

/// A number, or 0 where there are no entries.
fn with_entries(entries: usize, n: usize) -> usize
    ensures value { result ≡ with_entries entries n }
    ensures small { result ≤ n }
{
    if entries == 0 { 0 } else { n }
}

/// How many section headers there are.
pub fn section_count(entries: usize) -> usize
    ensures value { result ≡ section_count entries }
    ensures from { 8 ≤ result }
    ensures to { result ≤ 9 }
{
    SECTION_COUNT - 1 + with_entries(entries, 1)
}

/// The number of the symbol table.
pub fn symbols_number(entries: usize) -> usize
    ensures value { result ≡ symbols_number entries }
    ensures from { 5 ≤ result }
    ensures to { result ≤ 6 }
{
    section_count(entries) - 3
}

/// Where the names of the sections behind the table's relocations begin.
fn later_names(entries: usize) -> usize
    ensures value { result ≡ later_names entries }
    ensures small { result ≤ 100 }
{
    RELOCS_NAME + with_entries(entries, TOE_RELOCS_NAME_SIZE)
}

/// Where the names of the three tables begin.
fn table_names(entries: usize) -> usize
    ensures value { result ≡ table_names entries }
    ensures small { result ≤ 200 }
{
    later_names(entries) + HANDLE_RELOCS_NAME_SIZE
}

/// How long the names of all sections are.
fn names_size(entries: usize) -> usize
    ensures value { result ≡ names_size entries }
    ensures small { result ≤ 300 }
{
    table_names(entries) + 2 * TABLE_NAME_SIZE + NAMES_NAME_SIZE
}

/// The parts, where the table begins at `toe`.
fn places_from(
    headers: usize,
    image_size: usize,
    entries: usize,
    strings_size: usize,
    toe: usize,
) -> Places
    requires entries { entries < 2 ^ 32 }
    requires strings_size { strings_size < 2 ^ 32 }
    requires toe { toe < 2 ^ 34 }
    ensures { result ≡ places_from headers image_size entries strings_size toe }
{
    let handle = toe + TOE_ENTRY_SIZE * entries;
    let toe_relocs = handle + HANDLE_SIZE;
    let handle_relocs = toe_relocs + RELA_SIZE * entries;
    let symbols = handle_relocs + 2 * RELA_SIZE;
    let strings = symbols + SYM_SIZE * (1 + FIRST_ENTRY + entries);
    let names = strings + strings_size;
    let end = names + names_size(entries);
    Places {
        headers,
        image_size,
        entries,
        toe,
        handle,
        toe_relocs,
        handle_relocs,
        symbols,
        strings,
        strings_size,
        names,
        end,
    }
}

/// The parts of these sizes.
fn places_with(headers: usize, image_size: usize, entries: usize, strings_size: usize) -> Places
    requires image_size { image_size < 2 ^ 32 }
    requires entries { entries < 2 ^ 32 }
    requires strings_size { strings_size < 2 ^ 32 }
    ensures { result ≡ places_with headers image_size entries strings_size }
{
    let end = IMAGE_ALIGN + image_size;
    let toe = end + gap(SECTION_STEP, end);
    places_from(headers, image_size, entries, strings_size, toe)
}

/// How many section headers there are to be.
pub fn sections_in(bytes: &[u8]) -> usize
    requires { EHDR_SIZE ≤ length bytes.now }
    ensures value { result ≡ sections_in bytes.now }
    ensures from { 8 ≤ result }
    ensures to { result ≤ 9 }
{
    if be16(bytes, E_SHNUM) as usize == SECTION_COUNT - 1 {
        SECTION_COUNT - 1
    } else {
        SECTION_COUNT
    }
}

/// A number, or 1 for 0.
fn at_least_one(n: usize) -> usize
    ensures value { result ≡ at_least_one n }
    ensures small { result ≤ n + 1 }
{
    if n == 0 { 1 } else { n }
}

/// How many entries there are.
fn entries_in(bytes: &[u8]) -> usize
    requires { EHDR_SIZE ≤ length bytes.now }
    ensures value { result ≡ entries_in bytes.now }
    ensures small { result < 2 ^ 32 }
{
    if sections_in(bytes) != SECTION_COUNT {
        return 0;
    }
    let headers = word_at(bytes, E_SHOFF) as usize;
    let size = word_at(bytes, headers + (2 * SHDR_SIZE + SH_SIZE)) as usize;
    at_least_one(size / TOE_ENTRY_SIZE)
}

/// How long the table of the names of symbols is.
fn strings_size_in(bytes: &[u8], headers: usize) -> usize
    requires front { EHDR_SIZE ≤ length bytes.now }
    requires near { headers < 2 ^ 32 }
    ensures value { result ≡ at_least_one (be_number bytes.now (headers + (SHDR_SIZE * (sections_in bytes.now - 2) + SH_SIZE))) }
    ensures small { result < 2 ^ 32 }
{
    let place = SHDR_SIZE * (sections_in(bytes) - 2) + SH_SIZE;
    let size = word_at(bytes, headers + place);
    if size == 0 { 1 } else { size as usize }
}

/// The parts by the sizes that are read.
#[tactic(auto, unfolding(crate::specs::Outline::places_in))]
pub fn places_in(bytes: &[u8]) -> Places
    requires { EHDR_SIZE ≤ length bytes.now }
    ensures value { result ≡ places_in bytes.now }
    ensures far { IsFar result }
{
    let headers = word_at(bytes, E_SHOFF) as usize;
    let image_size = word_at(bytes, headers + (SHDR_SIZE + SH_SIZE)) as usize;
    let strings_size = strings_size_in(bytes, headers);
    places_with(headers, image_size, entries_in(bytes), strings_size)
}

impl Places {
    ghost use Rattle.std.specs.Prelude.{◌≡◌, ◌*◌};
    ghost use Rattle.spu_elf.specs.declared.constants.TheConstants.{RELA_SIZE};
    ghost use Rattle.spu_elf.specs.Rows.{section_words, relocations_head};
    ghost use Rattle.spu_cesof.specs.declared.constants.TheConstants.{RELOCS_NAME};
    ghost use Rattle.spu_cesof.specs.Outline.{symbols_number, image_row, toe_row, handle_row, handle_relocs_row, symbols_row, strings_row, names_row};
    ghost use Rattle.spu_cesof.specs.Bounds.{IsFar};

    /// The header of the executable.
    pub fn image_row(&self) -> [usize; 10]
        ensures { result ≡ image_row self.now }
    {
        Head::data(SecKind::Const, self.image_size, IMAGE_ALIGN).words(IMAGE_NAME, IMAGE_ALIGN)
    }

    /// The header of the table.
    pub fn toe_row(&self) -> [usize; 10]
        requires { IsFar self.now }
        ensures { result ≡ toe_row self.now }
    {
        let size = TOE_ENTRY_SIZE * self.entries;
        Head::data(SecKind::Vars, size, TOE_ENTRY_SIZE).words(TOE_NAME, self.toe)
    }

    /// The header of the handle.
    pub fn handle_row(&self) -> [usize; 10]
        ensures { result ≡ handle_row self.now }
    {
        Head::data(SecKind::Vars, HANDLE_SIZE, HANDLE_ALIGN).words(HANDLE_NAME, self.handle)
    }

    /// The header of the table's relocations, where there are entries.
    pub fn toe_relocs_row(&self) -> [usize; 10]
        requires { IsFar self.now }
        ensures { result ≡ section_words RELOCS_NAME self.now.toe_relocs (relocations_head (symbols_number self.now.entries) 2 (RELA_SIZE * self.now.entries)) }
    {
        Head::relocations(symbols_number(self.entries), 2, RELA_SIZE * self.entries).words(
            RELOCS_NAME,
            self.toe_relocs,
        )
    }

    /// The header of the handle's relocations.
    pub fn handle_relocs_row(&self) -> [usize; 10]
        ensures { result ≡ handle_relocs_row self.now }
    {
        Head::relocations(symbols_number(self.entries), 3, 2 * RELA_SIZE).words(
            later_names(self.entries),
            self.handle_relocs,
        )
    }

    /// The header of the symbol table.
    pub fn symbols_row(&self) -> [usize; 10]
        requires { IsFar self.now }
        ensures { result ≡ symbols_row self.now }
    {
        let size = SYM_SIZE * (1 + FIRST_ENTRY + self.entries);
        Head::symbols(symbols_number(self.entries) + 1, size, FIRST_ENTRY).words(
            table_names(self.entries),
            self.symbols,
        )
    }

    /// The header of the names of symbols.
    pub fn strings_row(&self) -> [usize; 10]
        ensures { result ≡ strings_row self.now }
    {
        Head::strings(self.strings_size).words(
            table_names(self.entries) + TABLE_NAME_SIZE,
            self.strings,
        )
    }

    /// The header of the names of sections.
    pub fn names_row(&self) -> [usize; 10]
        ensures { result ≡ names_row self.now }
    {
        Head::strings(names_size(self.entries)).words(
            table_names(self.entries) + 2 * TABLE_NAME_SIZE,
            self.names,
        )
    }
}
