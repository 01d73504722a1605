//! The rows of an ELF file: the words of its headers, which are written and checked alike.

ghost use Rattle.std.specs.Prelude.{◌≡◌, ◌+◌, ◌*◌, ◌≤◌, ◌<◌, ◌^◌, IfOk};
ghost use Rattle.spu_elf.specs.Rows.{padding, begins, front_size, front_words, front_halves, program_words, segment_name, kind_number, symbol_info, place_number, section_type, section_flags};
ghost use Rattle.spu_elf.specs.declared.constants.TheConstants.{MAX_SEGMENTS};

use crate::constants::{
    EHDR_SIZE, EV_CURRENT, PF_OVERLAY, PF_R, PF_W, PF_X, PHDR_SIZE, PT_LOAD, RELA_SIZE,
    SEGMENT_ALIGN, SHDR_SIZE, SHF_ALLOC, SHF_EXECINSTR, SHF_WRITE, SHN_ABS, SHN_UNDEF, SHT_NOBITS,
    SHT_PROGBITS, SHT_RELA, SHT_STRTAB, SHT_SYMTAB, ST_BIND, STB_GLOBAL, STT_FUNC, STT_NOTYPE,
    STT_OBJECT, STT_SECTION, SYM_SIZE, TABLE_ALIGN,
};
use crate::objects::{SecKind, Section, SymKind, SymPlace};
use spu_word::{Bytes, OutOfMemory, Seq};
use std::alloc::Global;

/// How many zeros lead to the next multiple of `step`.
pub fn gap(step: usize, at: usize) -> usize
    requires { 0 < step }
    ensures value { result ≡ padding step at }
    ensures small { result < step }
{
    (step - at % step) % step
}

/// Where a segment begins, when the bytes before it end there.
pub fn begins(at: usize) -> usize
    requires { at < 2 ^ 63 }
    ensures value { result ≡ begins at }
    ensures near { result ≤ at + 127 }
{
    at + gap(SEGMENT_ALIGN, at)
}

/// Where the first segment may begin: behind the header and n program headers.
pub fn front_size(n: usize) -> usize
    requires { n ≤ MAX_SEGMENTS }
    ensures value { result ≡ front_size n }
    ensures small { result ≤ 1000000 }
{
    EHDR_SIZE + PHDR_SIZE * n
}

/// The words of the header of a file from the version on.
pub fn front_words(entry: u32, phoff: usize, shoff: usize) -> [usize; 5]
    ensures { result ≡ front_words entry phoff shoff }
{
    [EV_CURRENT as usize, entry as usize, phoff, shoff, 0]
}

/// The halfwords behind those words.
pub fn front_halves(phentsize: usize, phnum: usize, shnum: usize) -> [usize; 6]
    requires { 0 < shnum }
    ensures { result ≡ front_halves phentsize phnum shnum }
{
    [EHDR_SIZE, phentsize, phnum, SHDR_SIZE, shnum, shnum - 1]
}

/// The words of the program header of a segment, where the bytes before it end at `at`.
pub fn program_words(at: usize, address: u32, size: usize, overlay: bool) -> [usize; 8]
    requires { at < 2 ^ 63 }
    ensures { result ≡ program_words at address size overlay }
{
    let flags = if overlay {
        PF_OVERLAY + PF_R + PF_X
    } else {
        PF_R + PF_W + PF_X
    };
    let address = address as usize;
    let kind = PT_LOAD as usize;
    [
        kind,
        begins(at),
        address,
        address,
        size,
        size,
        flags as usize,
        SEGMENT_ALIGN,
    ]
}

/// The type of a section of some kind.
fn section_type(kind: SecKind) -> u32
    ensures { result ≡ section_type kind }
{
    match kind {
        SecKind::Code | SecKind::Const | SecKind::Vars => SHT_PROGBITS,
        SecKind::Zero => SHT_NOBITS,
    }
}

/// The flags of a section of some kind.
fn section_flags(kind: SecKind) -> u32
    ensures { result ≡ section_flags kind }
{
    match kind {
        SecKind::Code => SHF_ALLOC + SHF_EXECINSTR,
        SecKind::Const => SHF_ALLOC,
        SecKind::Vars | SecKind::Zero => SHF_ALLOC + SHF_WRITE,
    }
}

/// What a section header says, but for its name and its offset.
#[derive(Clone, Copy)]
pub struct Head {
    pub kind: u32,
    pub flags: u32,
    pub address: u32,
    pub size: usize,
    pub link: usize,
    pub info: usize,
    pub align: usize,
    pub entry_size: usize,
}

impl Head {
    ghost use Rattle.std.specs.Prelude.{◌≡◌};
    ghost use Rattle.spu_elf.specs.Rows.{section_words, data_head, section_head, segment_head, table_head, symbols_head, strings_head, relocations_head};

    /// The words of the header, with a name at this place and bytes at this offset.
    pub fn words(&self, name: usize, offset: usize) -> [usize; 10]
        ensures { result ≡ section_words name offset self.now }
    {
        [
            name,
            self.kind as usize,
            self.flags as usize,
            self.address as usize,
            offset,
            self.size,
            self.link,
            self.info,
            self.align,
            self.entry_size,
        ]
    }

    /// Of a section of this kind, size and alignment.
    pub fn data(kind: SecKind, size: usize, align: usize) -> Head
        ensures { result ≡ data_head kind size align }
    {
        Head {
            kind: section_type(kind),
            flags: section_flags(kind),
            address: 0,
            size,
            link: 0,
            info: 0,
            align,
            entry_size: 0,
        }
    }

    /// Of a section of an object.
    pub fn section(s: &Section) -> Head
        ensures { result ≡ section_head s.now }
    {
        Head::data(s.kind, s.size as usize, s.align as usize)
    }

    /// Of segment k.
    pub fn segment(k: usize, address: u32, size: usize) -> Head
        ensures { result ≡ segment_head k address size }
    {
        Head {
            kind: SHT_PROGBITS,
            flags: if k == 0 {
                SHF_ALLOC + SHF_EXECINSTR + SHF_WRITE
            } else {
                SHF_ALLOC + SHF_EXECINSTR
            },
            address,
            size,
            link: 0,
            info: 0,
            align: SEGMENT_ALIGN,
            entry_size: 0,
        }
    }

    /// Of a table.
    fn table(
        kind: u32,
        size: usize,
        link: usize,
        info: usize,
        align: usize,
        entry_size: usize,
    ) -> Head
        ensures { result ≡ table_head kind size link info align entry_size }
    {
        Head {
            kind,
            flags: 0,
            address: 0,
            size,
            link,
            info,
            align,
            entry_size,
        }
    }

    /// Of a symbol table.
    pub fn symbols(strings: usize, size: usize, info: usize) -> Head
        ensures { result ≡ symbols_head strings size info }
    {
        Head::table(SHT_SYMTAB, size, strings, info, TABLE_ALIGN, SYM_SIZE)
    }

    /// Of a string table.
    pub fn strings(size: usize) -> Head
        ensures { result ≡ strings_head size }
    {
        Head::table(SHT_STRTAB, size, 0, 0, 1, 0)
    }

    /// Of the relocations of section `target`.
    pub fn relocations(symbols: usize, target: usize, size: usize) -> Head
        ensures { result ≡ relocations_head symbols target size }
    {
        Head::table(SHT_RELA, size, symbols, target, TABLE_ALIGN, RELA_SIZE)
    }
}

/// The name of segment k.
pub fn segment_name(alloc: Global, k: usize) -> Result<Bytes, OutOfMemory>
    ensures { IfOk result (λ name. name ≡ segment_name k) }
{
    if k == 0 {
        return Seq::copied(alloc, b".root");
    }
    let name = format!(in alloc; ".r{k}")?;
    Seq::copied(alloc, name.as_bytes())
}

/// The number of a kind of symbol.
fn kind_number(kind: SymKind) -> u8
    ensures value { result ≡ kind_number kind }
    ensures small { result ≤ 3 }
{
    match kind {
        SymKind::Plain => STT_NOTYPE,
        SymKind::Object => STT_OBJECT,
        SymKind::Function => STT_FUNC,
        SymKind::Section => STT_SECTION,
    }
}

/// The info of a symbol: its binding and its type.
pub fn symbol_info(global: bool, kind: SymKind) -> u8
    ensures { result ≡ symbol_info global kind }
{
    let binding = if global { STB_GLOBAL * ST_BIND } else { 0 };
    binding + kind_number(kind)
}

/// The number of a place.
pub fn place_number(place: SymPlace) -> usize
    ensures { result ≡ place_number place }
{
    match place {
        SymPlace::Undefined => SHN_UNDEF as usize,
        SymPlace::Absolute => SHN_ABS as usize,
        SymPlace::Inside(k) => k as usize + 1,
    }
}
