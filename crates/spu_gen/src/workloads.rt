//! The object of a workload.

ghost use Rattle.std.specs.Prelude.{◌≡◌, ◌≤◌, ◌∷◌, [], ◌++◌, length, option_to_list, OnOk, IfOk};
ghost use Rattle.spu_word.specs.Bytes.{be_digits};
ghost use Rattle.spu_elf.specs.declared.objects.Section.{Section};
ghost use Rattle.spu_elf.specs.WellFormed.{IsWellFormed};
ghost use Rattle.spu_gen.specs.Workloads.{AreWords, IsSectionOf, IsWorkload, next, relocation_of, relocations, section_name, symbol_name, symbol_of};

use crate::lines::{Line, MAX_LINES, MAX_SENDERS, code_of};
use spu_elf::{Object, Reloc, SecKind, Section, SymKind, SymPlace, Symbol};
use spu_isa::encode;
use spu_word::limits::{QUAD_SIZE, WORD_SIZE};
use spu_word::{Bytes, Name, OutOfMemory, Seq, put32};
use std::alloc::Global;

/// The relocation of an address of 18 bits, on `ila` (SPU ABI, "Relocation types").
pub const R_SPU_ADDR18: u32 = 5;

/// The relocation of a distance in words, on `brsl`.
pub const R_SPU_REL16: u32 = 7;

/// The next number of the row: 1,664,525 times the last one plus 1,013,904,223, modulo 2^32.
fn next(draw: u32) -> u32
    ensures { result ≡ next draw }
{
    ((1_664_525 * u64::from(draw) + 1_013_904_223) % 0x1_0000_0000) as u32
}

/// The name of a function's section.
fn section_name(alloc: Global, index: u32) -> Result<Name, OutOfMemory>
    ensures { IfOk result (λ name. name ≡ section_name index) }
{
    if index == 0 {
        return Seq::copied(alloc, b".text");
    }
    let name = format!(in alloc; ".text.f{index}")?;
    Seq::copied(alloc, name.as_bytes())
}

/// The name of a function.
fn symbol_name(alloc: Global, index: u32) -> Result<Name, OutOfMemory>
    ensures { IfOk result (λ name. name ≡ symbol_name index) }
{
    if index == 0 {
        return Seq::copied(alloc, b"main");
    }
    let name = format!(in alloc; "f{index}")?;
    Seq::copied(alloc, name.as_bytes())
}

/// The bytes of a word.
fn digits(word: u32) -> [u8; 4]
    ensures { result ≡ be_digits word }
{
    let mut bytes = [0; 4];
    put32(&mut bytes, 0, word);
    bytes
}

#[tactic(auto, using(crate::proofs::Words::no_words))]
/// The words of lines.
fn words_of(alloc: Global, lines: &[Line]) -> Result<Bytes, OutOfMemory>
    ensures { IfOk result (AreWords lines.now) }
{
    let mut bytes = Seq::new(alloc);
    for line in lines {
        bytes.extend(&digits(encode(&line.bare())))?;
    }
    Ok(bytes)
}

/// The section of a function's lines.
fn section_of(alloc: Global, index: u32, lines: &[Line]) -> Result<Section, OutOfMemory>
    requires { length lines.now ≤ MAX_LINES }
    ensures { IfOk result (IsSectionOf index lines.now) }
{
    Ok(Section {
        name: section_name(alloc, index)?,
        kind: SecKind::Code,
        align: QUAD_SIZE,
        size: WORD_SIZE * lines.len() as u32,
        bytes: words_of(alloc, lines)?,
    })
}

/// The symbol of a function's lines.
fn symbol_of(alloc: Global, index: u32, lines: &[Line]) -> Result<Symbol, OutOfMemory>
    requires { length lines.now ≤ MAX_LINES }
    ensures { IfOk result (λ s. s ≡ symbol_of index lines.now) }
{
    Ok(Symbol {
        name: symbol_name(alloc, index)?,
        value: 0,
        size: WORD_SIZE * lines.len() as u32,
        kind: SymKind::Function,
        global: true,
        place: SymPlace::Inside(index),
    })
}

/// The relocation of a line at an offset in a section, where it names a function.
fn relocation(section: u32, offset: u32, line: Line) -> Option<Reloc>
    ensures { option_to_list result ≡ relocation_of section offset line }
{
    let (symbol, kind) = match line {
        Line::Call(index) => (index, R_SPU_REL16),
        Line::Address(index) => (index, R_SPU_ADDR18),
        _ => return None,
    };
    Some(Reloc {
        section,
        offset,
        symbol,
        kind,
        addend: 0,
    })
}

/// Adds a relocation, if there is one.
fn add_some(relocs: &mut Seq<Reloc>, reloc: Option<Reloc>) -> Result<(), OutOfMemory>
    ensures { OnOk result (relocs.new ≡ relocs.old ++ option_to_list reloc) }
{
    match reloc {
        Some(reloc) => relocs.push(reloc),
        None => Ok(()),
    }
}

/// Adds the relocations of a function's lines.
fn add_relocations(relocs: &mut Seq<Reloc>, section: u32, lines: &[Line]) -> Result<(), OutOfMemory>
    requires { length lines.now ≤ MAX_LINES }
    ensures { OnOk result (relocs.new ≡ relocs.old ++ relocations section 0 lines.now) }
{
    for (k, line) in lines.iter().enumerate() {
        add_some(relocs, relocation(section, WORD_SIZE * k as u32, *line))?;
    }
    Ok(())
}

/// Adds a function with these lines.
fn add_function(
    alloc: Global,
    object: &mut Object,
    index: u32,
    lines: &[Line],
) -> Result<(), OutOfMemory>
    requires { length lines.now ≤ MAX_LINES }
    ensures section { OnOk result ((t : Section) × (object.new.sections ≡ object.old.sections ++ t ∷ []) × IsSectionOf index lines.now t) }
    ensures symbol { OnOk result (object.new.symbols ≡ object.old.symbols ++ symbol_of index lines.now ∷ []) }
    ensures relocs { OnOk result (object.new.relocs ≡ object.old.relocs ++ relocations index 0 lines.now) }
{
    object.sections.push(section_of(alloc, index, lines)?)?;
    object.symbols.push(symbol_of(alloc, index, lines)?)?;
    add_relocations(&mut object.relocs, index, lines)
}

#[tactic(auto, using(crate::proofs::Growing::no_functions))]
/// The object of a workload: `main` and so many functions beside it, 1 to 400, each in a section of its own. Each of them sends a
/// number that the seed determines, and is called once.
pub fn workload(alloc: Global, seed: u32, count: u32) -> Result<Object, OutOfMemory>
    requires least { 1 ≤ count }
    requires most { count ≤ MAX_SENDERS }
    ensures exact { IfOk result (IsWorkload seed count) }
    ensures formed { IfOk result IsWellFormed }
{
    let mut object = Object {
        sections: Seq::new(alloc),
        symbols: Seq::new(alloc),
        relocs: Seq::new(alloc),
    };
    let mut draw = seed;
    for index in 0..count + 1 {
        let lines = code_of(alloc, count, index, draw)?;
        add_function(alloc, &mut object, index, &lines)?;
        draw = next(draw);
    }
    Ok(object)
}

#[cfg(test)]
mod tests {
    use super::*;
    use spu_word::be32;
    use std::test::Fail;

    /// The word at an offset of the section with this number.
    fn word(object: &Object, section: usize, offset: usize) -> Option<u32> {
        let bytes = object.sections.get(section)?.bytes.as_slice();
        if offset > bytes.len() || bytes.len() - offset < 4 {
            return None;
        }
        Some(be32(bytes, offset))
    }

    #[test]
    fn two_senders(rt: HostRuntime) -> Result<(), Fail> {
        let object = workload(rt.alloc(), 0, 2).ok().ok_or("memory")?;
        assert!(rt; object.valid());
        let sections: [(&[u8], &[u8], u32); 3] = [
            (b".text", b"main", 32),
            (b".text.f1", b"f1", 1008),
            (b".text.f2", b"f2", 196),
        ];
        assert_eq!(rt; object.sections.len(), 3);
        assert_eq!(rt; object.symbols.len(), 3);
        for (i, (section_name, name, size)) in sections.into_iter().enumerate() {
            let section = object.sections.get(i).ok_or("a section")?;
            let symbol = object.symbols.get(i).ok_or("a symbol")?;
            assert_eq!(rt; section.name.as_slice(), section_name);
            assert_eq!(rt; symbol.name.as_slice(), name);
            assert_eq!(rt; (section.size, symbol.size), (size, size));
        }
        let words = [
            (0, 0, 0x2400_4080),
            (0, 4, 0x24ff_8081),
            (0, 8, 0x1cf8_0081),
            (0, 12, 0x4200_0002),
            (0, 16, 0x3520_0100),
            (0, 20, 0x1c08_0081),
            (0, 24, 0x3400_4080),
            (0, 28, 0x3500_0000),
            (1, 12, 0x408f_1b83),
            (1, 16, 0x21a0_0e03),
            (1, 20, 0x4020_0000),
            (1, 988, 0x4020_0000),
            (1, 992, 0x3300_0000),
            (1, 996, 0x1c08_0081),
            (2, 12, 0x4091_d403),
            (2, 180, 0x4020_0000),
            (2, 184, 0x1c08_0081),
        ];
        for (section, offset, expected) in words {
            let found = word(&object, section, offset);
            assert_eq!(rt; found, Some(expected), "at {section} {offset}");
        }
        assert_eq!(rt; object.relocs.len(), 2);
        assert_eq!(rt;
            object.relocs.get(0).copied(),
            relocation(0, 12, Line::Address(1))
        );
        let call = object.relocs.get(1).ok_or("a relocation")?;
        assert_eq!(rt;
            (call.section, call.offset, call.symbol, call.kind),
            (1, 992, 2, 7)
        );
        Ok(())
    }
}
