//! Executables as files.

ghost use Rattle.std.specs.Prelude.{◌≡◌, ◌+◌, ◌*◌, ◌^◌, ◌<◌, ◌≤◌, ◌++◌, length, None, OnOk, IfOk};
ghost use Rattle.std.specs.List.{All};
ghost use Rattle.spu_elf.specs.Spelling.{program_header, program_headers, image_draft, image_front, spell_exec};
ghost use Rattle.spu_elf.specs.Rows.{front_size};
ghost use Rattle.spu_elf.specs.Executables.{exec_fault, exec_in};
ghost use Rattle.spu_elf.specs.Validity.{IsValidExec};
ghost use Rattle.spu_elf.specs.Views.{draft_of};
ghost use Rattle.spu_word.specs.declared.limits.TheConstants.{MAX_FILE_SIZE};
ghost use Rattle.spu_elf.specs.declared.constants.TheConstants.{MAX_SEGMENTS};

use crate::constants::{EHDR_SIZE, EM_SPU, ET_EXEC, PHDR_SIZE, SEGMENT_ALIGN};
use crate::executables::{Exec, Segment};
use crate::rows::{Head, begins, front_size, program_words, segment_name};
use crate::writing::drafts::{Front, Growing, elf_header, put_words};
use spu_word::{Bytes, OutOfMemory, Seq};
use std::alloc::Global;

/// The file of an executable, its front still to be filled.
#[tactic(auto, using(crate::proofs::ImageFiles::parts_from, crate::proofs::ImageFiles::parts_done))]
fn image_draft(alloc: Global, x: &Exec) -> Result<Growing, OutOfMemory>
    requires { length x.now.segments ≤ MAX_SEGMENTS }
    ensures { IfOk result (λ g. draft_of g ≡ image_draft x.now) }
{
    let n = x.segments.len();
    let mut file = Growing::blank(alloc, front_size(n))?;
    for (k, s) in x.segments.as_slice().iter().enumerate() {
        let name = segment_name(alloc, k)?;
        let head = Head::segment(k, s.address, s.bytes.len());
        file.add(name.as_slice(), &head, SEGMENT_ALIGN, s.bytes.as_slice())?;
    }
    file.add_tables(alloc, 1 + n, &x.symbols)?;
    Ok(file)
}

/// Adds the program header of a segment.
fn add_program_header(out: &mut Bytes, at: usize, s: &Segment) -> Result<(), OutOfMemory>
    requires { at < 2 ^ 63 }
    ensures { OnOk result (out.new ≡ out.old ++ program_header at s.now) }
{
    put_words(out, &program_words(at, s.address, s.bytes.len(), s.overlay))
}

/// Adds the program headers.
#[tactic(auto, using(crate::proofs::ImageFiles::headers_from, crate::proofs::ImageFiles::headers_done))]
fn add_program_headers(
    out: &mut Bytes,
    from: usize,
    segments: &[Segment],
) -> Result<(), OutOfMemory>
    requires few { length segments.now ≤ MAX_SEGMENTS }
    requires near { from ≤ 1000000 }
    requires small { All (λ (s : Segment). length s.bytes ≤ MAX_FILE_SIZE) segments.now }
    ensures { OnOk result (out.new ≡ out.old ++ program_headers from segments.now) }
{
    let mut at = from;
    for s in segments {
        add_program_header(out, at, s)?;
        at = begins(at) + s.bytes.len();
    }
    Ok(())
}

/// What stands before the first segment: the header and the program headers.
#[tactic(auto, using(crate::proofs::ImageFiles::length_program_headers))]
fn image_front(alloc: Global, x: &Exec, shoff: usize) -> Result<Bytes, OutOfMemory>
    requires few { length x.now.segments ≤ MAX_SEGMENTS }
    requires small { All (λ (s : Segment). length s.bytes ≤ MAX_FILE_SIZE) x.now.segments }
    ensures value { IfOk result (λ b. b ≡ image_front x.now shoff) }
    ensures len { IfOk result (λ b. length b ≡ front_size (length x.now.segments)) }
{
    let n = x.segments.len();
    let front = Front {
        machine: EM_SPU,
        kind: ET_EXEC,
        entry: x.entry,
        phoff: EHDR_SIZE,
        shoff,
        phentsize: PHDR_SIZE,
        phnum: n,
        shnum: n + 4,
    };
    let mut header = elf_header(alloc, &front)?;
    add_program_headers(&mut header, front_size(n), x.segments.as_slice())?;
    Ok(header)
}

/// The spelling of an executable.
#[tactic(auto, using(crate::proofs::ImageFiles::has_room, crate::proofs::ImageFiles::small_segments), unfolding(crate::specs::Spelling::spell_exec))]
fn spelled(alloc: Global, x: &Exec) -> Result<Bytes, OutOfMemory>
    requires { IsValidExec x.now }
    ensures { IfOk result (λ b. b ≡ spell_exec x.now) }
{
    let file = image_draft(alloc, x)?;
    let front = image_front(alloc, x, file.headers_place())?;
    file.finish(alloc, front.as_slice())
}

/// The ELF file of an executable, which is read as that executable again. SPU ABI, "Object Files".
#[tactic(auto, using(crate::proofs::ExecutableRound::written_again))]
pub fn write_exec(alloc: Global, x: &Exec) -> Result<Bytes, OutOfMemory>
    requires { IsValidExec x.now }
    ensures spelling { IfOk result (λ b. b ≡ spell_exec x.now) }
    ensures passes { IfOk result (λ b. exec_fault b ≡ None) }
    ensures read_again { IfOk result (λ b. exec_in b ≡ x.now) }
{
    spelled(alloc, x)
}
