//! Objects as files.

ghost use Rattle.std.specs.Prelude.{◌≡◌, ◌+◌, ◌^◌, ◌<◌, ◌≤◌, ℕ, List, length, map, None, OnOk, IfOk};
ghost use Rattle.std.specs.List.{fold};
ghost use Rattle.spu_elf.specs.Spelling.{added, section_part, groups, group_of, relocation_part, symbols_number, draft_from, spell_from, spell};
ghost use Rattle.spu_elf.specs.Reading.{object_fault, object_in};
ghost use Rattle.spu_elf.specs.Validity.{IsValid};
ghost use Rattle.spu_elf.specs.Views.{draft_of};
ghost use Rattle.spu_word.specs.declared.limits.TheConstants.{MAX_SECTIONS};
ghost use Rattle.spu_elf.specs.declared.constants.TheConstants.{EHDR_SIZE};

use crate::constants::{EHDR_SIZE, EM_SPU, ET_REL, SECTION_STEP};
use crate::objects::{Object, Reloc, Section};
use crate::rows::Head;
use crate::writing::drafts::{Front, Growing, elf_header};
use crate::writing::tables::{Group, group_len};
use spu_word::{Bytes, OutOfMemory};
use std::alloc::Global;

/// How many sections have relocations.
#[tactic(auto, using(crate::proofs::Groups::count_some, crate::proofs::Groups::count_none, crate::proofs::Groups::count_done))]
pub fn group_count(sections: &[Section], relocs: &[Reloc]) -> usize
    ensures value { result ≡ length (groups 0 sections.now relocs.now) }
    ensures few { result ≤ length sections.now }
{
    let mut count = 0;
    let mut rest = relocs;
    for (k, _) in sections.iter().enumerate() {
        let (own, others) = rest.split_at(group_len(rest, k));
        if !own.is_empty() {
            count += 1;
        }
        rest = others;
    }
    count
}

/// Adds the relocations of section k, if it has any.
fn add_own(
    file: &mut Growing,
    alloc: Global,
    symbols: usize,
    k: usize,
    s: &Section,
    own: &[Reloc],
) -> Result<(), OutOfMemory>
    requires { k < 2 ^ 32 }
    ensures { OnOk result (draft_of file.new ≡ fold added (draft_of file.old) (map (relocation_part symbols) (group_of k s.now own.now))) }
{
    match own {
        [] => Ok(()),
        [_, ..] => {
            let group = Group {
                target: k,
                name: s.name.as_slice(),
                relocs: own,
            };
            file.add_group(alloc, symbols, &group)
        }
    }
}

/// Adds the relocations, section by section; `symbols` is the number of the symbol table.
#[tactic(auto, using(crate::proofs::Groups::draft_from, crate::proofs::Groups::draft_done))]
fn add_groups(
    file: &mut Growing,
    alloc: Global,
    symbols: usize,
    sections: &[Section],
    relocs: &[Reloc],
) -> Result<(), OutOfMemory>
    requires { length sections.now ≤ MAX_SECTIONS }
    ensures { OnOk result (draft_of file.new ≡ fold added (draft_of file.old) (map (relocation_part symbols) (groups 0 sections.now relocs.now))) }
{
    let mut rest = relocs;
    for (k, s) in sections.iter().enumerate() {
        let (own, others) = rest.split_at(group_len(rest, k));
        add_own(file, alloc, symbols, k, s, own)?;
        rest = others;
    }
    Ok(())
}

/// Adds the sections.
fn add_sections(file: &mut Growing, sections: &[Section]) -> Result<(), OutOfMemory>
    ensures { OnOk result (draft_of file.new ≡ fold added (draft_of file.old) (map section_part sections.now)) }
{
    for s in sections {
        let head = Head::section(s);
        file.add(s.name.as_slice(), &head, SECTION_STEP, s.bytes.as_slice())?;
    }
    Ok(())
}

/// The file of an object whose sections begin at `start`, its header still to be filled; `symbols` is
/// the number of the symbol table.
fn draft_from(
    alloc: Global,
    start: usize,
    o: &Object,
    symbols: usize,
) -> Result<Growing, OutOfMemory>
    requires number { symbols ≡ symbols_number o.now }
    requires few { symbols < MAX_SECTIONS }
    ensures { IfOk result (λ g. draft_of g ≡ draft_from start o.now) }
{
    let mut file = Growing::blank(alloc, start)?;
    add_sections(&mut file, o.sections.as_slice())?;
    add_groups(
        &mut file,
        alloc,
        symbols,
        o.sections.as_slice(),
        o.relocs.as_slice(),
    )?;
    file.add_tables(alloc, symbols, &o.symbols)?;
    Ok(file)
}

/// The spelling of an object for a machine, whose sections begin at `start`.
#[tactic(auto, using(crate::proofs::Growth::object_has_room))]
pub fn spelled_from(
    alloc: Global,
    machine: u16,
    start: usize,
    o: &Object,
) -> Result<Bytes, OutOfMemory>
    requires few { symbols_number o.now + 3 ≤ MAX_SECTIONS }
    requires room { EHDR_SIZE ≤ start }
    ensures { IfOk result (λ b. b ≡ spell_from machine start o.now) }
{
    let symbols = 1 + o.sections.len() + group_count(o.sections.as_slice(), o.relocs.as_slice());
    let file = draft_from(alloc, start, o, symbols)?;
    let front = Front {
        machine,
        kind: ET_REL,
        entry: 0,
        phoff: 0,
        shoff: file.headers_place(),
        phentsize: 0,
        phnum: 0,
        shnum: symbols + 3,
    };
    let header = elf_header(alloc, &front)?;
    file.finish(alloc, header.as_slice())
}

/// The ELF file of an object, which is read as that object again. SPU ABI, "Object Files".

pub fn write_object(alloc: Global, o: &Object) -> Result<Bytes, OutOfMemory>
    requires { IsValid o.now }
    ensures spelling { IfOk result (λ b. b ≡ spell o.now) }
    ensures passes { IfOk result (λ b. object_fault b ≡ None) }
    ensures read_again { IfOk result (λ b. object_in b ≡ o.now) }
{
    spelled_from(alloc, EM_SPU, EHDR_SIZE, o)
}
