//! How long the file of a flat executable is.

ghost use Rattle.std.specs.Prelude.{◌≡◌, ◌+◌, ◌*◌, ◌%◌, ◌^◌, ◌<◌, ◌≤◌, All, length};
ghost use Rattle.spu_word.specs.declared.limits.TheConstants.{MAX_NAME_SIZE};
ghost use Rattle.spu_elf.specs.declared.objects.Symbol.{Symbol};
ghost use Rattle.spu_elf.specs.Lengths.{ended_len, strings_len};
ghost use Rattle.spu_elf.specs.Spelling.{spell_exec};
ghost use Rattle.spu_image.specs.Filling.{HasOneSegment, segment_size};

use spu_elf::constants::{SEGMENT_ALIGN, SHDR_SIZE, SYM_SIZE, TABLE_ALIGN};
use spu_elf::{Exec, Symbol};

/// How many section headers the file has: of no section, of the segment, of the symbols, and of two tables of names.
const HEADERS: u64 = 5;

/// The bytes of the names of sections, `.root`, `.symtab`, `.strtab` and `.shstrtab`, each with a zero behind it, behind a zero.
const SECTION_NAMES_SIZE: u64 = 33;

/// How much of a table of names one of this length takes.
fn ended_len(n: u64) -> u64
    requires { n < 2 ^ 63 }
    ensures { result ≡ ended_len n }
{
    if n == 0 { 0 } else { n + 1 }
}

/// How long the table of the names of symbols is.
fn strings_len(symbols: &[Symbol]) -> u64
    requires few { length symbols.now ≤ 2 ^ 26 }
    requires short { All (λ (s : Symbol). length s.name ≤ MAX_NAME_SIZE) symbols.now }
    ensures value { result ≡ strings_len symbols.now }
    ensures small { result ≤ 1 + 1024 * length symbols.now }
{
    let mut len = 1;
    for s in symbols {
        len += ended_len(s.name.len() as u64);
    }
    len
}

/// How long the one segment of an executable is.
fn segment_len(x: &Exec) -> u64
    requires { HasOneSegment x.now }
    ensures { result ≡ segment_size x.now }
{
    match x.segments.as_slice() {
        [s] => s.bytes.len() as u64,
        [] | [_, _, ..] => unreachable!(),
    }
}

/// How long the file of an executable of one segment is: the headers before the segment, the segment, the symbols, the names of
/// symbols and of sections, and the section headers.
pub fn file_len(x: &Exec) -> u64
    requires one { HasOneSegment x.now }
    requires few { length x.now.symbols ≤ 2 ^ 26 }
    requires short { All (λ (s : Symbol). length s.name ≤ MAX_NAME_SIZE) x.now.symbols }
    ensures { result ≡ length (spell_exec x.now) }
{
    let segment = SEGMENT_ALIGN as u64 + segment_len(x);
    let symbols = SYM_SIZE as u64 * (1 + x.symbols.len() as u64);
    let names = strings_len(x.symbols.as_slice()) + SECTION_NAMES_SIZE;
    let align = TABLE_ALIGN as u64;
    (segment + symbols + names + (align - 1)) / align * align + SHDR_SIZE as u64 * HEADERS
}
