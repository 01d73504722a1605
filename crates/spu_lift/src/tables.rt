//! Objects with the tables that lifting looks things up in.

ghost use Rattle.std.specs.Prelude.{◌≡◌, ◌≤◌, ◌+◌, ◌↔◌, All, length, true, false, IfOk, IfSome, IfNone, IsSome, IsTrue, pos, ◌+ℤ◌};
ghost use Rattle.std.specs.Option.{option_and_then, option_copied, option_map, option_map_or};
ghost use Rattle.spu_isa.specs.declared.instruction.Inst.{Inst};
ghost use Rattle.spu_elf.specs.WellFormed.{IsWellFormed};
ghost use Rattle.spu_elf.specs.declared.objects.SymKind.TheVariants as names;
ghost use Rattle.spu_word.specs.declared.limits.TheConstants.{MAX_OBJECTS};
ghost use Rattle.spu_lift.specs.Tables.{Definition, is_code, reloc_at, reloc_on, resolved, section_at, symbol_at, target_of};
ghost use Rattle.spu_lift.specs.Meanings.{is_hint, meaning_by, meaning_of, modulo};
ghost use Rattle.spu_lift.specs.Defined.{id_of};
ghost use Rattle.spu_lift.specs.LookUps.{AreTables, HasWord, IsHintAt, IsFunctionTarget, IsWordOf, word_at};

use crate::definitions::{Definitions, SymbolId};
use crate::relocations::{Relocations, Spot};
use crate::sections::{Placing, Sections};
use spu_elf::{Object, Reloc, SecKind, Section, SymKind, SymPlace, Symbol};
use spu_isa::{Inst, Op, decode};
use spu_word::limits::WORD_SIZE;
use spu_word::{OutOfMemory, be32};
use std::alloc::Global;

/// Objects, their sections, their global definitions, and their relocations by place.
#[derive(Drop)]
pub struct Tables<'a> {
    pub objects: &'a [Object],
    pub sections: Sections,
    pub definitions: Definitions<'a>,
    pub relocations: Relocations,
}

/// What a symbol and an addend stand for.
#[derive(Clone, Copy, PartialEq, Eq, Debug)]
pub enum Meaning {
    /// A number: an address of data, or an absolute symbol, modulo 2^32.
    Number(u32),
    /// An offset in a section of code, which may lie outside it.
    Code {
        object: u32,
        section: u32,
        offset: i64,
    },
    /// The symbol is undefined, and no object defines it.
    Unknown,
}

/// An address, an offset and an addend, modulo 2^32.
fn number(address: u64, value: u32, addend: i32) -> u32
    ensures { result ≡ modulo (pos (address + value) +ℤ addend) }
{
    (address as i128 + value as i128 + addend as i128).rem_euclid(1 << 32) as u32
}

/// Whether an instruction tells only where a branch will go.
pub fn is_hint(op: Op) -> bool
    ensures { result ≡ is_hint op }
{
    match op {
        Op::Hbr | Op::Hbra | Op::Hbrr => true,
        _ => false,
    }
}

impl<'a> Tables<'a> {
    /// The tables of these objects.
    pub fn of(alloc: Global, objects: &'a [Object]) -> Result<Tables<'a>, OutOfMemory>
        requires few { length objects.now ≤ MAX_OBJECTS }
        requires formed { All IsWellFormed objects.now }
        ensures tables { IfOk result (λ t. AreTables t) }
        ensures objects { IfOk result (λ t. t.objects.now ≡ objects.now) }
    {
        Ok(Tables {
            objects,
            sections: Sections::of(alloc, objects)?,
            definitions: Definitions::of(alloc, objects)?,
            relocations: Relocations::of(alloc, objects)?,
        })
    }

    /// A section, None where the object has none of this number.
    pub fn section(&self, object: u32, section: u32) -> Option<&'a Section>
        ensures { option_copied result ≡ section_at self.now.objects.now object section }
    {
        match self.objects.get(object as usize) {
            Some(o) => o.sections.get(section as usize),
            None => None,
        }
    }

    /// A symbol, None where the object has none of this number.
    pub fn symbol(&self, id: SymbolId) -> Option<&'a Symbol>
        ensures { option_copied result ≡ symbol_at self.now.objects.now id.object id.symbol }
    {
        match self.objects.get(id.object as usize) {
            Some(o) => o.symbols.get(id.symbol as usize),
            None => None,
        }
    }

    /// The word at a place, None where the section has no bytes for it.
    pub fn word(&self, spot: Spot) -> Option<u32>
        ensures { result ≡ word_at self.now.objects.now spot }
    {
        let section = self.section(spot.object, spot.section)?;
        let bytes = section.bytes.as_slice();
        let at = spot.offset as usize;
        if at + 4 <= bytes.len() {
            Some(be32(bytes, at))
        } else {
            None
        }
    }

    /// Whether a section holds code.
    pub fn is_code(&self, object: u32, section: u32) -> bool
        ensures { result ≡ option_map_or (λ t. is_code t.kind) (section_at self.now.objects.now object section) false }
    {
        match self.section(object, section) {
            Some(s) => s.kind == SecKind::Code,
            None => false,
        }
    }

    /// The instruction that the word at a place of code decodes to.
    pub fn instruction(&self, spot: Spot) -> Option<Inst>
        ensures some { IfSome result (IsWordOf self.now.objects.now spot) }
        ensures none { IfNone result ((x : Inst) → IsWordOf self.now.objects.now spot x → ⊥) }
    {
        decode(self.word(spot)?)
    }

    /// Whether a relocation at this place is on a hint.
    pub fn is_on_hint(&self, spot: Spot) -> bool
        requires { HasWord self.now.objects.now spot }
        ensures { IsTrue result ↔ IsHintAt self.now.objects.now spot }
    {
        if spot.offset % WORD_SIZE != 0 || !self.is_code(spot.object, spot.section) {
            return false;
        }
        match self.instruction(spot) {
            Some(x) => is_hint(x.op),
            None => false,
        }
    }

    /// A relocation, None where the object has none of this number.
    fn numbered_relocation(&self, object: u32, index: usize) -> Option<&'a Reloc>
        ensures { option_copied result ≡ reloc_at self.now.objects.now object index }
    {
        match self.objects.get(object as usize) {
            Some(o) => o.relocs.get(index),
            None => None,
        }
    }

    /// The relocation of the word at a place, the first where there are several.
    pub fn relocation(&self, spot: Spot) -> Option<&'a Reloc>
        requires { AreTables self.now }
        ensures { option_copied result ≡ reloc_on self.now.objects.now spot.object spot.section spot.offset }
    {
        let index = self.relocations.first_at(spot)?;
        self.numbered_relocation(spot.object, index)
    }

    /// The symbol that a symbol stands for: an undefined one for the global definition of its name, any other for itself.
    pub fn resolved(&self, id: SymbolId) -> Option<SymbolId>
        requires { AreTables self.now }
        ensures { result ≡ option_map id_of (option_and_then (resolved self.now.objects.now id.object id.symbol) (symbol_at self.now.objects.now id.object id.symbol)) }
    {
        let symbol = self.symbol(id)?;
        match symbol.place {
            SymPlace::Undefined => self.definitions.find(symbol.name.as_slice()),
            SymPlace::Absolute | SymPlace::Inside(_) => Some(id),
        }
    }

    /// The definition of a relocation's symbol.
    pub fn target(&self, object: u32, r: &Reloc) -> Option<SymbolId>
        requires { AreTables self.now }
        ensures { result ≡ option_map id_of (target_of self.now.objects.now object r.now) }
    {
        self.resolved(SymbolId {
            object,
            symbol: r.symbol,
        })
    }

    /// What a defined symbol with an addend stands for.
    fn meaning_of(&self, id: SymbolId, symbol: &Symbol, addend: i32) -> Meaning
        requires { AreTables self.now }
        ensures { result ≡ meaning_by self.now.objects.now id.object symbol.now addend symbol.now.place }
    {
        match symbol.place {
            SymPlace::Undefined => Meaning::Unknown,
            SymPlace::Absolute => Meaning::Number(number(0, symbol.value, addend)),
            SymPlace::Inside(section) => match self.sections.placing(id.object, section) {
                Some(Placing::Data(address)) => {
                    Meaning::Number(number(address, symbol.value, addend))
                }
                Some(Placing::Code(_) | Placing::Dropped) | None => Meaning::Code {
                    object: id.object,
                    section,
                    offset: symbol.value as i64 + addend as i64,
                },
            },
        }
    }

    /// What a relocation's symbol and addend stand for.
    pub fn meaning(&self, object: u32, r: &Reloc) -> Meaning
        requires { AreTables self.now }
        ensures { result ≡ meaning_of self.now.objects.now object r.now }
    {
        match self.target(object, r) {
            Some(id) => match self.symbol(id) {
                Some(symbol) => self.meaning_of(id, symbol, r.addend),
                None => Meaning::Unknown,
            },
            None => Meaning::Unknown,
        }
    }

    /// Whether a relocation's symbol is a function.
    pub fn is_function_target(&self, object: u32, r: &Reloc) -> bool
        requires { AreTables self.now }
        ensures { IsTrue result ↔ IsFunctionTarget (target_of self.now.objects.now object r.now) }
    {
        match self.target(object, r) {
            Some(id) => match self.symbol(id) {
                Some(symbol) => symbol.kind == SymKind::Function,
                None => false,
            },
            None => false,
        }
    }
}
