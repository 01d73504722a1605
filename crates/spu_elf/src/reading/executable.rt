//! Executables, read from their files.

ghost use Rattle.std.specs.Prelude.{◌≡◌, ◌+◌, ◌*◌, ◌≤◌, ◌<◌, ◌^◌, ℕ, length, IfOk, IsErrOf};
ghost use Rattle.std.specs.List.{All};
ghost use Rattle.spu_elf.specs.Bounds.{IsEntryNear, IsFar};
ghost use Rattle.spu_elf.specs.Spelling.{spell_exec};
ghost use Rattle.spu_elf.specs.Validity.{IsValidExec};
ghost use Rattle.spu_elf.specs.Checks.{Names};
ghost use Rattle.spu_elf.specs.Executables.{loads, symbols_listed, segments_in, place_in, symbol_in, symbols_in, exec_with, exec_in, tables_check, exec_fault, end_check};
ghost use Rattle.spu_elf.specs.declared.faults.ElfKind.{ElfKind};
ghost use Rattle.spu_elf.specs.declared.faults.ElfFault.TheVariants as faults;
ghost use Rattle.spu_word.specs.declared.limits.TheConstants.{MAX_FILE_SIZE, MAX_SYMBOLS};
ghost use Rattle.spu_elf.specs.declared.constants.TheConstants.{MAX_SEGMENTS, SHDR_SIZE};

use crate::constants::{
    E_ENTRY, SHDR_SIZE, SHN_ABS, SHT_SYMTAB, ST_BIND, STB_GLOBAL, SYM_SIZE, TABLE_ALIGN,
};
use crate::executables::{Exec, Segment};
use crate::faults::{ElfFault, ElfKind};
use crate::objects::{SymPlace, Symbol};
use crate::reading::entries::{Entry, Header};
use crate::reading::executable_symbols::{
    after_name, check_strings, check_symbol_table, first_name, strings_of,
};
use crate::reading::fields::{fault, part, word_at};
use crate::reading::object::symbol_kind;
use crate::reading::program_headers::{Load, check_front};
use crate::reading::section_headers::{Tables, check_padding, check_section_heads, tables_in};
use crate::reading::symbols::entries;
use crate::rows::{begins, front_size};
use crate::writing::executable::write_exec;
use spu_word::{OutOfMemory, Seq};
use std::alloc::Global;

/// The segments.
fn segments_in(
    alloc: Global,
    bytes: &[u8],
    from: usize,
    loads: &[Load],
) -> Result<Seq<Segment>, OutOfMemory>
    requires few { length loads.now ≤ MAX_SEGMENTS }
    requires near { from ≤ 1000000 }
    ensures { IfOk result (λ ss. ss ≡ segments_in bytes.now 0 from loads.now) }
{
    let mut at = from;
    let mut all = Seq::new(alloc);
    for (k, l) in loads.iter().enumerate() {
        let size = l.size as usize;
        all.push(Segment {
            address: l.address,
            overlay: k != 0,
            bytes: Seq::copied(alloc, part(bytes, begins(at), size))?,
        })?;
        at = begins(at) + size;
    }
    Ok(all)
}

/// Where a symbol is.
fn place_in(shndx: u16) -> SymPlace
    ensures { result ≡ place_in shndx }
{
    if shndx == SHN_ABS {
        SymPlace::Absolute
    } else {
        SymPlace::Inside(u32::from(shndx).saturating_sub(1))
    }
}

/// A symbol, whose name the rest of the string table begins with.
fn symbol_in(alloc: Global, rest: &[u8], y: &Entry) -> Result<Symbol, OutOfMemory>
    ensures { IfOk result (λ s. s ≡ symbol_in rest.now y.now) }
{
    Ok(Symbol {
        name: Seq::copied(alloc, first_name(rest))?,
        value: y.value,
        size: y.size,
        kind: symbol_kind(y.info % ST_BIND),
        global: y.info / ST_BIND == STB_GLOBAL,
        place: place_in(y.shndx),
    })
}

/// The symbols; `names` is what stands in the string table from 1 on.
fn symbols_in(alloc: Global, names: &[u8], listed: &[Entry]) -> Result<Seq<Symbol>, OutOfMemory>
    ensures { IfOk result (λ ss. ss ≡ symbols_in names.now listed.now) }
{
    let mut rest = names;
    let mut all = Seq::new(alloc);
    for y in listed {
        all.push(symbol_in(alloc, rest, y)?)?;
        rest = after_name(rest);
    }
    Ok(all)
}

/// The executable of these segments and tables.
fn exec_with(
    alloc: Global,
    bytes: &[u8],
    loads: &[Load],
    t: &Tables,
    listed: &[Entry],
) -> Result<Exec, OutOfMemory>
    requires few { length loads.now ≤ MAX_SEGMENTS }
    requires listed { listed.now ≡ symbols_listed bytes.now t.now }
    ensures { IfOk result (λ x. x ≡ exec_with bytes.now loads.now t.now) }
{
    let strings = strings_of(bytes, t);
    let names = part(strings, 1, strings.len());
    Ok(Exec {
        entry: word_at(bytes, E_ENTRY),
        segments: segments_in(alloc, bytes, front_size(loads.len()), loads)?,
        symbols: symbols_in(alloc, names, listed)?,
    })
}

/// The symbols after the null symbol.
fn listed(alloc: Global, bytes: &[u8], t: &Tables) -> Result<Seq<Entry>, OutOfMemory>
    requires small { length bytes.now ≤ MAX_FILE_SIZE }
    requires inside { t.now.names ≤ length bytes.now }
    requires far { IsFar t.now }
    ensures value { IfOk result (λ ys. ys ≡ symbols_listed bytes.now t.now) }
    ensures near { IfOk result (λ ys. All IsEntryNear ys) }
    ensures few { IfOk result (λ ys. length ys ≤ MAX_SYMBOLS) }
{
    let h = Header {
        place: 0,
        name: 0,
        kind: SHT_SYMTAB,
        flags: 0,
        offset: t.symbols as u32,
        size: t.symbols_size as u32,
        link: 0,
        info: 0,
        align: TABLE_ALIGN as u32,
        entry_size: SYM_SIZE as u32,
    };
    entries(alloc, bytes, &h)
}

/// The file ends here.
fn check_end(bytes: &[u8], end: usize) -> Result<(), ElfFault>
    requires { end < 2 ^ 32 }
    ensures { Names result (end_check bytes.now end) }
{
    if end < bytes.len() {
        return fault(ElfKind::BadTable, end);
    }
    Ok(())
}

/// The executable of these segments, if its tables are as they must be.
#[tactic(auto, unfolding(crate::specs::Executables::tables_check))]
fn read_tables(alloc: Global, bytes: &[u8], loads: &[Load], t: &Tables) -> Result<Exec, ElfFault>
    requires small { length bytes.now ≤ MAX_FILE_SIZE }
    requires few { length loads.now ≤ MAX_SEGMENTS }
    requires far { IsFar t.now }
    requires head { t.now.head ≡ t.now.headers + SHDR_SIZE * (length loads.now + 1) }
    ensures checks { Names result (tables_check bytes.now loads.now t.now) }
    ensures value { IfOk result (λ x. x ≡ exec_with bytes.now loads.now t.now) }
{
    check_section_heads(bytes, loads, t)?;
    check_padding(bytes, loads, t)?;
    let listed = listed(alloc, bytes, t)?;
    check_symbol_table(bytes, loads.len(), t, listed.as_slice())?;
    check_strings(alloc, bytes, loads, t, listed.as_slice())?;
    check_end(bytes, t.headers + SHDR_SIZE * (loads.len() + 4))?;
    let x = exec_with(alloc, bytes, loads, t, listed.as_slice())?;
    Ok(x)
}

/// The executable of a file, if each of its fields is as it must be.
#[tactic(auto, unfolding(crate::specs::Executables::exec_fault, crate::specs::Executables::exec_in))]
fn read_fields(alloc: Global, bytes: &[u8]) -> Result<Exec, ElfFault>
    ensures checks { Names result (exec_fault bytes.now) }
    ensures value { IfOk result (λ x. x ≡ exec_in bytes.now) }
{
    let loads = check_front(alloc, bytes)?;
    let t = tables_in(bytes, loads.as_slice());
    read_tables(alloc, bytes, loads.as_slice(), &t)
}

/// The executable whose file this is (System V ELF, "Object Files"; SPU ABI, "Object Files"), or what
/// is wrong first, with its offset in the file. Each executable has one file, which `write_exec`
/// writes, and no other is read. Fields are judged in this order: the header, without the entry and
/// the place of the section headers, which are only read; program headers, of 1 to 16,384 segments;
/// section headers, at the place that the header gives, without the info of the symbol table; that
/// place; padding; symbols; that info; the names of symbols and of sections; the end of the file,
/// which has at most 4,194,304 bytes. `BadTable`, `BadSymbol` and `BadName` are a field, a field of a
/// symbol, and a byte of a string table that isn't as the fields read before have it, and
/// `Truncated` is a field that the file doesn't reach.
pub fn read_exec(alloc: Global, bytes: &[u8]) -> Result<Exec, ElfFault>
    ensures value { IfOk result (λ x. IsValidExec x × (spell_exec x ≡ bytes.now)) }
    ensures checks { Names result (exec_fault bytes.now) }
{
    read_fields(alloc, bytes)
}

/// What is written is read again.
#[tactic(auto)]
pub fn read_written_exec(alloc: Global, x: &Exec) -> Result<Exec, ElfFault>
    requires { IsValidExec x.now }
    ensures same { IfOk result (λ y. y ≡ x.now) }
    ensures passes { (kind : ElfKind) (place : ℕ) → IsErrOf result (faults.Fault kind place) → ⊥ }
{
    let bytes = write_exec(alloc, x)?;
    read_exec(alloc, bytes.as_slice())
}
