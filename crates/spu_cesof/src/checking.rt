//! Checks that the header, the section headers and the padding of an object are as its parts have them.

ghost use Rattle.std.specs.Prelude.{◌≡◌, ◌+◌, ◌*◌, ◌≤◌, ◌<◌, ◌^◌, length, take, OnOk, IfOk};
ghost use Rattle.spu_word.specs.declared.limits.TheConstants.{MAX_FILE_SIZE};
ghost use Rattle.spu_elf.specs.declared.constants.TheConstants.{SHDR_SIZE};
ghost use Rattle.spu_elf.specs.Checks.{Names};
ghost use Rattle.spu_cesof.specs.Bounds.{IsFar};
ghost use Rattle.spu_cesof.specs.Outline.{section_count, places_in, toe_relocs_row};
ghost use Rattle.spu_cesof.specs.Unpacking.{row_check, front_check, sections_check, relocs_rows_check, tables_check, heads_check, padding_check, end_check};

use crate::constants::IMAGE_ALIGN;
use crate::places::{Places, places_in, section_count, sections_in, symbols_number};
use spu_elf::constants::{
    E_EHSIZE, E_SHOFF, E_VERSION, EHDR_SIZE, EI_PAD, EI_PAD_SIZE, EM_PPC, ET_REL, SECTION_STEP,
    SH_ADDRALIGN, SHDR_SIZE, TABLE_ALIGN,
};
use spu_elf::spelling::{
    check_halves, check_ident, check_words, check_zeros, fault, front_halves, front_words, gap,
    word_at,
};
use spu_elf::{ElfFault, ElfKind};

/// The header of the file.
#[tactic(auto, unfolding(crate::specs::Unpacking::front_check))]
pub fn check_front(bytes: &[u8]) -> Result<(), ElfFault>
    ensures checks { Names result (front_check bytes.now) }
    ensures long { OnOk result ((EHDR_SIZE ≤ length bytes.now) × (length bytes.now ≤ MAX_FILE_SIZE)) }
{
    check_ident(bytes, EM_PPC, ET_REL)?;
    check_zeros(bytes, EI_PAD, EI_PAD_SIZE)?;
    let headers = word_at(bytes, E_SHOFF) as usize;
    let kind = ElfKind::BadTable;
    check_words(bytes, kind, E_VERSION, &front_words(0, 0, headers))?;
    check_halves(
        bytes,
        kind,
        E_EHSIZE,
        &front_halves(0, 0, sections_in(bytes)),
    )
}

/// Section header k has these words.
fn check_row(bytes: &[u8], p: &Places, k: usize, row: &[usize]) -> Result<(), ElfFault>
    requires small { length bytes.now ≤ MAX_FILE_SIZE }
    requires far { IsFar p.now }
    requires few { k ≤ 9 }
    requires row { length row.now ≤ 10 }
    ensures checks { Names result (row_check bytes.now p.now k row.now) }
    ensures inside { OnOk result (0 < length row.now → p.now.headers + SHDR_SIZE * k + 4 * length row.now ≤ length bytes.now) }
{
    check_words(bytes, ElfKind::BadTable, p.headers + SHDR_SIZE * k, row)
}

/// The null header, and those of the three sections.
#[tactic(auto, unfolding(crate::specs::Unpacking::sections_check))]
fn check_sections(bytes: &[u8], p: &Places) -> Result<(), ElfFault>
    requires small { length bytes.now ≤ MAX_FILE_SIZE }
    requires far { IsFar p.now }
    ensures { Names result (sections_check bytes.now p.now) }
{
    check_row(bytes, p, 0, &[0; 10])?;
    check_row(bytes, p, 1, &p.image_row())?;
    check_row(bytes, p, 2, &p.toe_row())?;
    check_row(bytes, p, 3, &p.handle_row())
}

/// The header of the table's relocations, where there are entries.
fn check_toe_relocs_row(bytes: &[u8], p: &Places) -> Result<(), ElfFault>
    requires small { length bytes.now ≤ MAX_FILE_SIZE }
    requires far { IsFar p.now }
    ensures { Names result (row_check bytes.now p.now 4 (toe_relocs_row p.now)) }
{
    if p.entries == 0 {
        return Ok(());
    }
    check_row(bytes, p, 4, &p.toe_relocs_row())
}

/// The headers of the relocations.
#[tactic(auto, unfolding(crate::specs::Unpacking::relocs_rows_check))]
fn check_relocs_rows(bytes: &[u8], p: &Places) -> Result<(), ElfFault>
    requires small { length bytes.now ≤ MAX_FILE_SIZE }
    requires far { IsFar p.now }
    ensures { Names result (relocs_rows_check bytes.now p.now) }
{
    check_toe_relocs_row(bytes, p)?;
    let row = p.handle_relocs_row();
    check_row(bytes, p, symbols_number(p.entries) - 1, &row)
}

/// The headers of the three tables, without the info of the symbol table.
#[tactic(auto, unfolding(crate::specs::Unpacking::tables_check))]
fn check_tables(bytes: &[u8], p: &Places) -> Result<(), ElfFault>
    requires small { length bytes.now ≤ MAX_FILE_SIZE }
    requires far { IsFar p.now }
    ensures checks { Names result (tables_check bytes.now p.now) }
    ensures inside { OnOk result (p.now.headers + SHDR_SIZE * section_count p.now.entries ≤ length bytes.now) }
{
    let n = symbols_number(p.entries);
    let row = p.symbols_row();
    check_row(bytes, p, n, &row[..7])?;
    let rest = p.headers + SHDR_SIZE * n + SH_ADDRALIGN;
    check_words(bytes, ElfKind::BadTable, rest, &row[8..])?;
    check_row(bytes, p, n + 1, &p.strings_row())?;
    check_row(bytes, p, n + 2, &p.names_row())
}

/// The section headers, and the place that the header of the file gives them.
#[tactic(auto, unfolding(crate::specs::Unpacking::heads_check))]
pub fn check_heads(bytes: &[u8], p: &Places) -> Result<(), ElfFault>
    requires small { length bytes.now ≤ MAX_FILE_SIZE }
    requires far { IsFar p.now }
    ensures checks { Names result (heads_check bytes.now p.now) }
    ensures inside { OnOk result (p.now.headers + SHDR_SIZE * section_count p.now.entries ≤ length bytes.now) }
    ensures ends { OnOk result (p.now.end ≤ p.now.headers) }
{
    check_sections(bytes, p)?;
    check_relocs_rows(bytes, p)?;
    check_tables(bytes, p)?;
    if p.headers != p.end + gap(TABLE_ALIGN, p.end) {
        return fault(ElfKind::BadTable, E_SHOFF);
    }
    Ok(())
}

/// What stands between the parts.
#[tactic(auto, unfolding(crate::specs::Unpacking::padding_check))]
pub fn check_padding(bytes: &[u8], p: &Places) -> Result<(), ElfFault>
    requires small { length bytes.now ≤ MAX_FILE_SIZE }
    requires far { IsFar p.now }
    ensures { Names result (padding_check bytes.now p.now) }
{
    check_zeros(bytes, EHDR_SIZE, IMAGE_ALIGN - EHDR_SIZE)?;
    let end = IMAGE_ALIGN + p.image_size;
    check_zeros(bytes, end, gap(SECTION_STEP, end))?;
    check_zeros(bytes, p.end, gap(TABLE_ALIGN, p.end))
}

/// The file ends behind the section headers.
pub fn check_end(bytes: &[u8], p: &Places) -> Result<(), ElfFault>
    requires { p.now.headers ≤ MAX_FILE_SIZE }
    ensures { Names result (end_check bytes.now (p.now.headers + SHDR_SIZE * section_count p.now.entries)) }
{
    let end = p.headers + SHDR_SIZE * section_count(p.entries);
    if end < bytes.len() {
        return fault(ElfKind::BadTable, end);
    }
    Ok(())
}
