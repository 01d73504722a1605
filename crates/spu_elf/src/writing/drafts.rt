//! Files that grow by one part for each section header.

ghost use Rattle.std.specs.Prelude.{◌≡◌, ◌+◌, ◌^◌, ◌<◌, ◌≤◌, ℕ, List, [], ◌∷◌, ◌++◌, length, codes, OnOk, IfOk};
ghost use Rattle.std.specs.List.{flat_map};
ghost use Rattle.spu_word.specs.Bytes.{be_digits, be_half_digits};
ghost use Rattle.spu_elf.specs.Rows.{aligned, ended, name_place, elf_header};
ghost use Rattle.spu_elf.specs.Spelling.{added, blank, closed, string_table, file_of};
ghost use Rattle.spu_elf.specs.Views.{draft_of};
ghost use Rattle.spu_elf.specs.declared.constants.TheConstants.{TABLE_ALIGN};

use crate::constants::{
    EI_CURRENT, EI_PAD_SIZE, ELF_MAGIC, ELFCLASS32, ELFDATA2MSB, SHDR_SIZE, TABLE_ALIGN,
};
use crate::rows::{Head, front_halves, front_words, gap};
use spu_word::{Bytes, OutOfMemory, Seq};
use std::alloc::Global;

/// The four bytes of a number, modulo 2^32.
fn word_bytes(n: usize) -> [u8; 4]
    ensures { result ≡ be_digits n }
{
    ((n % 0x1_0000_0000) as u32).to_be_bytes()
}

/// The two bytes of a number, modulo 2^16.
pub fn half_bytes(n: usize) -> [u8; 2]
    ensures { result ≡ be_half_digits n }
{
    ((n % 0x1_0000) as u16).to_be_bytes()
}

/// Adds words, each modulo 2^32.
pub fn put_words(out: &mut Bytes, words: &[usize]) -> Result<(), OutOfMemory>
    ensures { OnOk result (out.new ≡ out.old ++ flat_map be_digits words.now) }
{
    for w in words {
        out.extend(&word_bytes(*w))?;
    }
    Ok(())
}

/// Adds halfwords, each modulo 2^16.
fn put_halves(out: &mut Bytes, halves: &[usize]) -> Result<(), OutOfMemory>
    ensures { OnOk result (out.new ≡ out.old ++ flat_map be_half_digits halves.now) }
{
    for h in halves {
        out.extend(&half_bytes(*h))?;
    }
    Ok(())
}

/// Adds zeros up to the next multiple.
pub fn align(file: &mut Bytes, step: usize) -> Result<(), OutOfMemory>
    requires { 0 < step }
    ensures { OnOk result (file.new ≡ aligned step file.old) }
{
    file.extend_zeros(gap(step, file.len()))
}

/// Adds a name and the zero byte that ends it, and says where it begins. An empty name adds nothing.
pub fn add_name(names: &mut Bytes, name: &[u8]) -> Result<usize, OutOfMemory>
    ensures { IfOk result (λ at. (at ≡ name_place names.old name.now) × (names.new ≡ names.old ++ ended name.now)) }
{
    match name {
        [] => Ok(0),
        [_, ..] => {
            let at = names.len();
            names.extend(name)?;
            names.push(0)?;
            Ok(at)
        }
    }
}

/// A file that grows, its front still to be filled: its bytes so far, the section headers, and
/// their names.
#[derive(Drop)]
pub struct Growing {
    file: Bytes,
    heads: Bytes,
    names: Bytes,
}

impl Growing {
    /// A file with no part, whose front has that many bytes.
    #[tactic(auto, unfolding(crate::specs::Spelling::blank))]
    pub fn blank(alloc: Global, front: usize) -> Result<Growing, OutOfMemory>
        ensures { IfOk result (λ g. draft_of g ≡ blank front) }
    {
        let mut file = Seq::new(alloc);
        file.extend_zeros(front)?;
        let mut heads = Seq::new(alloc);
        heads.extend_zeros(SHDR_SIZE)?;
        let mut names = Seq::new(alloc);
        names.push(0)?;
        Ok(Growing { file, heads, names })
    }

    /// Adds what stands under a section header. It begins at a multiple of `step`.
    #[tactic(auto, unfolding(crate::specs::Spelling::added))]
    pub fn add(
        &mut self,
        name: &[u8],
        head: &Head,
        step: usize,
        bytes: &[u8],
    ) -> Result<(), OutOfMemory>
        requires { 0 < step }
        ensures { OnOk result (draft_of self.new ≡ added (draft_of self.old) (record { name = name.now; head = head.now; step = step; bytes = bytes.now })) }
    {
        align(&mut self.file, step)?;
        let offset = self.file.len();
        self.file.extend(bytes)?;
        let name = add_name(&mut self.names, name)?;
        put_words(&mut self.heads, &head.words(name, offset))
    }

    /// Adds a string table.
    pub fn add_strings(&mut self, name: &[u8], bytes: &[u8]) -> Result<(), OutOfMemory>
        ensures { OnOk result (draft_of self.new ≡ added (draft_of self.old) (string_table name.now bytes.now)) }
    {
        self.add(name, &Head::strings(bytes.len()), 1, bytes)
    }

    /// Adds the names of the sections.
    #[tactic(auto, unfolding(crate::specs::Spelling::closed))]
    pub fn close(&mut self, alloc: Global) -> Result<(), OutOfMemory>
        ensures { OnOk result (draft_of self.new ≡ closed (draft_of self.old)) }
    {
        let mut bytes = Seq::copied(alloc, self.names.as_slice())?;
        bytes.extend(b".shstrtab")?;
        bytes.push(0)?;
        self.add_strings(b".shstrtab", bytes.as_slice())
    }

    /// Where the section headers will stand.
    pub fn headers_place(&self) -> usize
        ensures { result ≡ length (aligned TABLE_ALIGN self.now.file) }
    {
        self.file.len() + gap(TABLE_ALIGN, self.file.len())
    }

    /// The whole file, whose front is this.
    pub fn finish(mut self, alloc: Global, front: &[u8]) -> Result<Bytes, OutOfMemory>
        requires { length front.now ≤ length self.file }
        ensures { IfOk result (λ all. all ≡ file_of front.now (draft_of self)) }
    {
        align(&mut self.file, TABLE_ALIGN)?;
        let mut all = Seq::copied(alloc, front)?;
        all.extend(&self.file.as_slice()[front.len()..])?;
        all.extend(self.heads.as_slice())?;
        Ok(all)
    }
}

/// The fields of the header of a file that differ from file to file.
#[derive(Clone, Copy)]
pub struct Front {
    pub machine: u16,
    pub kind: u16,
    pub entry: u32,
    pub phoff: usize,
    pub shoff: usize,
    pub phentsize: usize,
    pub phnum: usize,
    pub shnum: usize,
}

/// The header of a file.
pub fn elf_header(alloc: Global, f: &Front) -> Result<Bytes, OutOfMemory>
    requires { 0 < f.now.shnum }
    ensures { IfOk result (λ h. h ≡ elf_header f.now.machine f.now.kind f.now.entry f.now.phoff f.now.shoff f.now.phentsize f.now.phnum f.now.shnum) }
{
    let mut h = Seq::copied(alloc, &ELF_MAGIC.to_be_bytes())?;
    h.extend(&[ELFCLASS32, ELFDATA2MSB, EI_CURRENT])?;
    h.extend_zeros(EI_PAD_SIZE)?;
    put_halves(&mut h, &[f.kind as usize, f.machine as usize])?;
    put_words(&mut h, &front_words(f.entry, f.phoff, f.shoff))?;
    put_halves(&mut h, &front_halves(f.phentsize, f.phnum, f.shnum))?;
    Ok(h)
}
