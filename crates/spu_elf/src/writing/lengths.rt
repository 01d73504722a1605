//! How long files are, without writing them.

ghost use Rattle.std.specs.Prelude.{◌≡◌, ◌+◌, ◌*◌, ◌^◌, ◌<◌, ◌≤◌, ℕ, List, length};
ghost use Rattle.std.specs.List.{fold, sum_by};
ghost use Rattle.spu_elf.specs.Rows.{segment_name};
ghost use Rattle.spu_elf.specs.Spelling.{groups, group_of, groups_of, spell_from, spell_exec};
ghost use Rattle.spu_elf.specs.Lengths.{grown, ended_len, blank_extent, section_grown, group_grown, strings_len, tables_grown, whole_len, object_len, segments_grown, exec_len};
ghost use Rattle.spu_word.specs.declared.limits.TheConstants.{MAX_SECTIONS};
ghost use Rattle.spu_elf.specs.declared.constants.TheConstants.{EHDR_SIZE, MAX_SEGMENTS};

use crate::constants::{
    EHDR_SIZE, PHDR_SIZE, RELA_SIZE, SECTION_STEP, SEGMENT_ALIGN, SHDR_SIZE, SYM_SIZE, TABLE_ALIGN,
};
use crate::executables::{Exec, Segment};
use crate::objects::{Object, Reloc, Section, Symbol};
use crate::writing::tables::group_len;

/// How long a file that grows is so far: its bytes, the section headers, and their names.
#[derive(Clone, Copy)]
pub struct Extent {
    file: u128,
    heads: u128,
    names: u128,
}

/// How much of a string table a name of this length takes.
fn ended_len(n: u128) -> u128
    requires { n < 2 ^ 127 }
    ensures { result ≡ ended_len n }
{
    if n == 0 { 0 } else { n + 1 }
}

/// A file with no part.
fn blank_extent(front: u128) -> Extent
    ensures { result ≡ blank_extent front }
{
    Extent {
        file: front,
        heads: SHDR_SIZE as u128,
        names: 1,
    }
}

impl Extent {
    /// The file with one more part.
    fn grown(&self, step: u128, name: u128, len: u128) -> Extent
        requires step_from { 0 < step }
        requires step_to { step ≤ 128 }
        requires file { self.now.file + len < 2 ^ 127 }
        requires heads { self.now.heads < 2 ^ 127 }
        requires names { self.now.names + name < 2 ^ 127 }
        ensures { result ≡ grown self.now step name len }
    {
        Extent {
            file: self.file + (step - self.file % step) % step + len,
            heads: self.heads + SHDR_SIZE as u128,
            names: self.names + ended_len(name),
        }
    }

    /// The file with a section.
    fn section_grown(&self, s: &Section) -> Extent
        requires file { self.now.file < 2 ^ 100 }
        requires heads { self.now.heads < 2 ^ 100 }
        requires names { self.now.names < 2 ^ 100 }
        ensures value { result ≡ section_grown self.now s.now }
        ensures file { result.file ≤ self.now.file + 2 ^ 64 }
        ensures names { result.names ≤ self.now.names + 2 ^ 64 }
    {
        self.grown(
            SECTION_STEP as u128,
            s.name.len() as u128,
            s.bytes.len() as u128,
        )
    }

    /// The file with the relocations of section k, if it has any.
    fn own_grown(&self, k: usize, s: &Section, own: &[Reloc]) -> Extent
        requires file { self.now.file < 2 ^ 100 }
        requires heads { self.now.heads < 2 ^ 100 }
        requires names { self.now.names < 2 ^ 100 }
        ensures value { result ≡ fold group_grown self.now (group_of k s.now own.now) }
        ensures file { result.file ≤ self.now.file + 2 ^ 68 }
        ensures heads { result.heads ≤ self.now.heads + 40 }
        ensures names { result.names ≤ self.now.names + 2 ^ 64 }
    {
        match own {
            [] => *self,
            [_, ..] => self.grown(
                TABLE_ALIGN as u128,
                5 + s.name.len() as u128,
                RELA_SIZE as u128 * own.len() as u128,
            ),
        }
    }
}

/// The file with the sections.
fn sections_extent(e: &Extent, sections: &[Section]) -> Extent
    requires few { length sections.now ≤ MAX_SECTIONS }
    requires file { e.now.file ≤ 1000 }
    requires heads { e.now.heads ≤ 1000 }
    requires names { e.now.names ≤ 1000 }
    ensures value { result ≡ fold section_grown e.now sections.now }
    ensures file { result.file < 2 ^ 80 }
    ensures heads { result.heads < 2 ^ 20 }
    ensures names { result.names < 2 ^ 80 }
{
    let mut extent = *e;
    for s in sections {
        extent = extent.section_grown(s);
    }
    extent
}

/// The file with the relocations of the sections.
#[tactic(auto, using(crate::proofs::Groups::extent_from, crate::proofs::Groups::extent_done))]
fn groups_extent(e: &Extent, sections: &[Section], relocs: &[Reloc]) -> Extent
    requires few { length sections.now ≤ MAX_SECTIONS }
    requires file { e.now.file < 2 ^ 80 }
    requires heads { e.now.heads < 2 ^ 20 }
    requires names { e.now.names < 2 ^ 80 }
    ensures value { result ≡ fold group_grown e.now (groups 0 sections.now relocs.now) }
    ensures file { result.file < 2 ^ 90 }
    ensures heads { result.heads < 2 ^ 30 }
    ensures names { result.names < 2 ^ 90 }
{
    let mut extent = *e;
    let mut rest = relocs;
    for (k, s) in sections.iter().enumerate() {
        let (own, others) = rest.split_at(group_len(rest, k));
        extent = extent.own_grown(k, s, own);
        rest = others;
    }
    extent
}

/// How long the string table of some symbols is.
fn strings_len(symbols: &[Symbol]) -> u128
    requires { length symbols.now < 2 ^ 40 }
    ensures value { result ≡ strings_len symbols.now }
    ensures small { result < 2 ^ 110 }
{
    let mut len = 1;
    for s in symbols {
        len += ended_len(s.name.len() as u128);
    }
    len
}

/// The file with the symbol table and the two string tables.
fn tables_grown(e: &Extent, symbols: u128, strings: u128) -> Extent
    requires file { e.now.file < 2 ^ 100 }
    requires heads { e.now.heads < 2 ^ 100 }
    requires names { e.now.names < 2 ^ 100 }
    requires symbols { symbols < 2 ^ 64 }
    requires strings { strings < 2 ^ 110 }
    ensures value { result ≡ tables_grown e.now symbols strings }
    ensures file { result.file < 2 ^ 120 }
    ensures heads { result.heads < 2 ^ 120 }
{
    let entry = SYM_SIZE as u128;
    let symbols_in = e.grown(TABLE_ALIGN as u128, 7, entry + entry * symbols);
    let strings_in = symbols_in.grown(1, 7, strings);
    strings_in.grown(1, 9, strings_in.names + 10)
}

/// How long the whole file is.
fn whole_len(e: &Extent) -> u128
    requires file { e.now.file < 2 ^ 120 }
    requires heads { e.now.heads < 2 ^ 120 }
    ensures { result ≡ whole_len e.now }
{
    let step = TABLE_ALIGN as u128;
    e.file + (step - e.file % step) % step + e.heads
}

/// How long the file of an object is whose sections begin at `start`, part by part.
fn parts_len(o: &Object, start: usize) -> u128
    requires sections { length o.now.sections ≤ MAX_SECTIONS }
    requires symbols { length o.now.symbols < 2 ^ 40 }
    requires to { start ≤ 1000 }
    ensures { result ≡ object_len start o.now }
{
    let sections = sections_extent(&blank_extent(start as u128), o.sections.as_slice());
    let groups = groups_extent(&sections, o.sections.as_slice(), o.relocs.as_slice());
    let strings = strings_len(o.symbols.as_slice());
    whole_len(&tables_grown(&groups, o.symbols.len() as u128, strings))
}

/// How long the file of an object is whose sections begin at `start`, whatever the machine.
pub fn object_len(o: &Object, start: usize) -> u128
    requires sections { length o.now.sections ≤ MAX_SECTIONS }
    requires symbols { length o.now.symbols < 2 ^ 40 }
    requires from { EHDR_SIZE ≤ start }
    requires to { start ≤ 1000 }
    ensures { (machine : ℕ) → result ≡ length (spell_from machine start o.now) }
{
    parts_len(o, start)
}

/// How long the name of segment k is.
#[tactic(auto, using(crate::proofs::SegmentNames::length_1, crate::proofs::SegmentNames::length_2, crate::proofs::SegmentNames::length_3, crate::proofs::SegmentNames::length_4, crate::proofs::SegmentNames::length_5))]
pub fn segment_name_len(k: usize) -> u128
    requires { k < 100000 }
    ensures value { result ≡ length (segment_name k) }
    ensures small { result ≤ 7 }
{
    if k == 0 {
        5
    } else if k < 10 {
        3
    } else if k < 100 {
        4
    } else if k < 1000 {
        5
    } else if k < 10000 {
        6
    } else {
        7
    }
}

/// The file with the segments.
#[tactic(auto, using(crate::proofs::SegmentNames::segments_from, crate::proofs::SegmentNames::segments_done))]
fn segments_extent(e: &Extent, segments: &[Segment]) -> Extent
    requires few { length segments.now ≤ MAX_SEGMENTS }
    requires file { e.now.file ≤ 1000000 }
    requires heads { e.now.heads ≤ 1000 }
    requires names { e.now.names ≤ 1000 }
    ensures value { result ≡ segments_grown e.now 0 segments.now }
    ensures file { result.file < 2 ^ 80 }
    ensures heads { result.heads < 2 ^ 30 }
    ensures names { result.names < 2 ^ 30 }
{
    let mut extent = *e;
    for (k, s) in segments.iter().enumerate() {
        extent = extent.grown(
            SEGMENT_ALIGN as u128,
            segment_name_len(k),
            s.bytes.len() as u128,
        );
    }
    extent
}

/// How long the file of an executable is.
#[tactic(auto, using(crate::proofs::ExtentLemmas::spell_exec_length))]
pub fn exec_len(x: &Exec) -> u128
    requires segments { length x.now.segments ≤ MAX_SEGMENTS }
    requires symbols { length x.now.symbols < 2 ^ 40 }
    ensures { result ≡ length (spell_exec x.now) }
{
    let front = EHDR_SIZE as u128 + PHDR_SIZE as u128 * x.segments.len() as u128;
    let segments = segments_extent(&blank_extent(front), x.segments.as_slice());
    let strings = strings_len(x.symbols.as_slice());
    whole_len(&tables_grown(&segments, x.symbols.len() as u128, strings))
}
