//! The header of an executable, and its program headers.

ghost use Rattle.std.specs.Prelude.{◌≡◌, ◌+◌, ◌≤◌, ◌<◌, ◌^◌, length, OnOk, IfOk};
ghost use Rattle.spu_word.specs.Bytes.{be_half_number};
ghost use Rattle.spu_elf.specs.Rows.{padding};
ghost use Rattle.spu_elf.specs.Checks.{Names, zeros_check};
ghost use Rattle.spu_elf.specs.Executables.{loads, loads_end, is_uneven, load_check, loads_check, gaps_check, front_words_check, counts_check, front_check};
ghost use Rattle.spu_word.specs.declared.limits.TheConstants.{MAX_FILE_SIZE};
ghost use Rattle.spu_elf.specs.declared.constants.TheConstants.{EHDR_SIZE, E_PHNUM, MAX_SEGMENTS, SEGMENT_ALIGN};

use crate::constants::{
    E_EHSIZE, E_ENTRY, E_PHNUM, E_SHENTSIZE, E_SHOFF, E_VERSION, EHDR_SIZE, EI_PAD, EI_PAD_SIZE,
    EM_SPU, ET_EXEC, MAX_SEGMENTS, P_FILESZ, P_MEMSZ, P_VADDR, PHDR_SIZE, SEGMENT_ALIGN,
    SEGMENT_STEP,
};
use crate::faults::{ElfFault, ElfKind};
use crate::reading::fields::{check_halves, check_words, check_zeros, fault, word_at};
use crate::reading::headers::check_ident;
use crate::rows::{begins, front_halves, front_size, front_words, gap, program_words};
use spu_word::{OutOfMemory, Seq, be16, be32};
use std::alloc::Global;

/// The fields of the header up to the size of a program header; the entry and the place of the section
/// headers are as they are.
#[tactic(auto, unfolding(crate::specs::Executables::front_words_check))]
fn check_front_words(bytes: &[u8]) -> Result<(), ElfFault>
    requires front { EHDR_SIZE ≤ length bytes.now }
    requires small { length bytes.now ≤ MAX_FILE_SIZE }
    ensures { Names result (front_words_check bytes.now) }
{
    let kind = ElfKind::BadTable;
    let (entry, shoff) = (be32(bytes, E_ENTRY), be32(bytes, E_SHOFF) as usize);
    let n = be16(bytes, E_PHNUM) as usize;
    check_zeros(bytes, EI_PAD, EI_PAD_SIZE)?;
    check_words(
        bytes,
        kind,
        E_VERSION,
        &front_words(entry, EHDR_SIZE, shoff),
    )?;
    check_halves(
        bytes,
        kind,
        E_EHSIZE,
        &front_halves(PHDR_SIZE, n, n + 4)[..2],
    )
}

/// How many segments there are, 1 to 16,384, and how many sections.
#[tactic(auto, unfolding(crate::specs::Executables::counts_check))]
fn check_counts(bytes: &[u8]) -> Result<(), ElfFault>
    requires front { EHDR_SIZE ≤ length bytes.now }
    requires small { length bytes.now ≤ MAX_FILE_SIZE }
    ensures checks { Names result (counts_check bytes.now) }
    ensures few { OnOk result (be_half_number bytes.now E_PHNUM ≤ MAX_SEGMENTS) }
{
    let kind = ElfKind::BadTable;
    let n = be16(bytes, E_PHNUM) as usize;
    if n == 0 || n > MAX_SEGMENTS {
        return fault(kind, E_PHNUM);
    }
    check_halves(
        bytes,
        kind,
        E_SHENTSIZE,
        &front_halves(PHDR_SIZE, n, n + 4)[3..],
    )
}

/// The address and the size of a segment.
#[derive(Clone, Copy)]
pub struct Load {
    pub address: u32,
    pub size: u32,
}

/// The segments that the program headers name.
fn loads(alloc: Global, bytes: &[u8]) -> Result<Seq<Load>, OutOfMemory>
    requires front { EHDR_SIZE ≤ length bytes.now }
    ensures value { IfOk result (λ ls. ls ≡ loads bytes.now) }
    ensures few { IfOk result (λ ls. length ls ≡ be_half_number bytes.now E_PHNUM) }
{
    let mut all = Seq::new(alloc);
    for k in 0..be16(bytes, E_PHNUM) as usize {
        let at = EHDR_SIZE + PHDR_SIZE * k;
        all.push(Load {
            address: word_at(bytes, at + P_VADDR),
            size: word_at(bytes, at + P_FILESZ),
        })?;
    }
    Ok(all)
}

/// Whether a size is 0 or no multiple of `step`.
pub fn is_uneven(step: usize, size: usize) -> bool
    requires { 0 < step }
    ensures { result ≡ is_uneven step size }
{
    size == 0 || size % step != 0
}

/// The program header of segment k, where the bytes before the segment end at `at`.
#[tactic(auto, unfolding(crate::specs::Executables::load_check))]
fn check_load(bytes: &[u8], k: usize, at: usize, l: &Load) -> Result<(), ElfFault>
    requires small { length bytes.now ≤ MAX_FILE_SIZE }
    requires few { k < MAX_SEGMENTS }
    requires near { at < 2 ^ 60 }
    ensures { Names result (load_check bytes.now k at l.now) }
{
    let p = EHDR_SIZE + PHDR_SIZE * k;
    let kind = ElfKind::BadTable;
    let size = l.size as usize;
    let row = program_words(at, l.address, size, k != 0);
    check_words(bytes, kind, p, &row[..5])?;
    if is_uneven(SEGMENT_STEP, size) {
        return fault(kind, p + P_FILESZ);
    }
    check_words(bytes, kind, p + P_MEMSZ, &row[5..])
}

/// The program headers.
fn check_loads(bytes: &[u8], from: usize, loads: &[Load]) -> Result<(), ElfFault>
    requires small { length bytes.now ≤ MAX_FILE_SIZE }
    requires few { length loads.now ≤ MAX_SEGMENTS }
    requires near { from ≤ 1000000 }
    ensures { Names result (loads_check bytes.now 0 from loads.now) }
{
    let mut at = from;
    for (k, l) in loads.iter().enumerate() {
        check_load(bytes, k, at, l)?;
        at = begins(at) + l.size as usize;
    }
    Ok(())
}

/// Where the segments end.
pub fn loads_end(from: usize, loads: &[Load]) -> usize
    requires few { length loads.now ≤ MAX_SEGMENTS }
    requires near { from ≤ 1000000 }
    ensures value { result ≡ loads_end from loads.now }
    ensures near { result ≤ 2 ^ 50 }
{
    let mut at = from;
    for l in loads {
        at = begins(at) + l.size as usize;
    }
    at
}

/// The padding before a segment.
fn check_gap(bytes: &[u8], at: usize) -> Result<(), ElfFault>
    requires small { length bytes.now ≤ MAX_FILE_SIZE }
    requires near { at < 2 ^ 60 }
    ensures { Names result (zeros_check bytes.now at (padding SEGMENT_ALIGN at)) }
{
    check_zeros(bytes, at, gap(SEGMENT_ALIGN, at))
}

/// The padding before each segment.
#[tactic(auto, using(crate::proofs::ExecutableLoops::gaps_from))]
pub fn check_gaps(bytes: &[u8], from: usize, loads: &[Load]) -> Result<(), ElfFault>
    requires small { length bytes.now ≤ MAX_FILE_SIZE }
    requires few { length loads.now ≤ MAX_SEGMENTS }
    requires near { from ≤ 1000000 }
    ensures { Names result (gaps_check bytes.now from loads.now) }
{
    let mut at = from;
    for l in loads {
        check_gap(bytes, at)?;
        at = begins(at) + l.size as usize;
    }
    Ok(())
}

/// The segments, if the header and the program headers are as they must be.
#[tactic(auto, unfolding(crate::specs::Executables::front_check))]
pub fn check_front(alloc: Global, bytes: &[u8]) -> Result<Seq<Load>, ElfFault>
    ensures checks { Names result (front_check bytes.now) }
    ensures value { IfOk result (λ ls. ls ≡ loads bytes.now) }
    ensures few { IfOk result (λ ls. length ls ≤ MAX_SEGMENTS) }
    ensures long { OnOk result ((EHDR_SIZE ≤ length bytes.now) × (length bytes.now ≤ MAX_FILE_SIZE)) }
{
    check_ident(bytes, EM_SPU, ET_EXEC)?;
    check_front_words(bytes)?;
    check_counts(bytes)?;
    let loads = loads(alloc, bytes)?;
    check_loads(bytes, front_size(loads.len()), loads.as_slice())?;
    Ok(loads)
}
