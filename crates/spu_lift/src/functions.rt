//! Where functions lie: the symbols of functions in order of their places, and the functions that they name.

ghost use Rattle.std.specs.Prelude.{◌≡◌, ◌+◌, ◌-◌, ◌++◌, ◌*◌, ◌/◌, ◌^◌, ◌≤◌, ◌<◌, List, ℕ, filter, length, slice_get, true, false, not, All, OnOk, IfOk, IfSome, IfNone};
ghost use Rattle.std.specs.List.Sorted.{IsPartitionPoint, IsPartitionedBy};
ghost use Rattle.spu_word.specs.declared.limits.TheConstants.{MAX_OBJECTS, MAX_SYMBOLS, WORD_SIZE};
ghost use Rattle.spu_elf.specs.WellFormed.{IsWellFormed};
ghost use Rattle.spu_elf.specs.declared.objects.Object.{Object};
ghost use Rattle.spu_lift.specs.LiftFaults.{IsShared};
ghost use Rattle.spu_lift.specs.declared.functions.Place.{Place};
ghost use Rattle.spu_lift.specs.FunctionTables.{AreFunctions, AreSorted, AreSymbolsOf, HasPlaces, IsFirstShared, IsPlaceIn, begins_by, is_before, is_in, is_same, meets, start_of};
ghost use Rattle.spu_lift.specs.Gathered.{symbol_in, symbols_in};
ghost use Rattle.std.specs.Option.{option_map_or, option_to_list};
ghost use Rattle.spu_lift.specs.Tables.{is_code};
ghost use Rattle.spu_lift.specs.Checks.{function_section};

use crate::relocations::Spot;
use spu_elf::{Object, SecKind, Section, SymKind, SymPlace, Symbol};
use spu_word::OutOfMemory;
use spu_word::limits::WORD_SIZE;
use std::alloc::Global;

/// A symbol of a function, and where it says that the function lies. They are ordered by object, section, offset and size; of
/// those of one function the first has its name: global symbols come before local ones, and earlier ones before later ones.
#[derive(Clone, Copy, PartialEq, Eq, PartialOrd, Ord, Debug)]
pub struct FunctionSymbol {
    pub object: u32,
    pub section: u32,
    pub offset: u32,
    pub size: u32,
    pub local: bool,
    /// The symbol's number in its object.
    pub symbol: u32,
}

impl FunctionSymbol {
    /// Whether another symbol names the same function.
    fn is_same(&self, other: &FunctionSymbol) -> bool
        ensures { result ≡ is_same self.now other.now }
    {
        self.object == other.object
            && self.section == other.section
            && self.offset == other.offset
            && self.size == other.size
    }

    /// Whether the function lies in this section.
    fn is_in(&self, object: u32, section: u32) -> bool
        ensures { result ≡ is_in self.now object section }
    {
        self.object == object && self.section == section
    }

    /// Whether the function lies in a section before this one.
    fn is_before(&self, object: u32, section: u32) -> bool
        ensures { result ≡ is_before self.now object section }
    {
        self.object < object || (self.object == object && self.section < section)
    }

    /// Whether the function begins at this place or before it.
    fn begins_by(&self, spot: Spot) -> bool
        ensures { result ≡ begins_by self.now spot }
    {
        self.is_before(spot.object, spot.section)
            || (self.is_in(spot.object, spot.section) && self.offset <= spot.offset)
    }

    /// Whether a function that begins here or behind here is another one, and shares a byte.
    fn meets(&self, next: &FunctionSymbol) -> bool
        ensures { result ≡ meets self.now next.now }
    {
        next.is_in(self.object, self.section)
            && (next.offset as u64) < self.offset as u64 + self.size as u64
            && !self.is_same(next)
    }

    /// How many words the function has.
    pub fn word_count(&self) -> u32
        ensures { result ≡ self.now.size / WORD_SIZE }
    {
        self.size / WORD_SIZE
    }

    /// The place where the function begins.
    fn start(&self) -> Spot
        ensures { result ≡ start_of self.now }
    {
        Spot {
            object: self.object,
            section: self.section,
            offset: self.offset,
        }
    }

    /// The place of a word of the function.
    pub fn spot(&self, word: u32) -> Spot
        requires { self.now.offset + WORD_SIZE * word < 2 ^ 32 }
        ensures { result ≡ record { object = self.now.object; section = self.now.section; offset = self.now.offset + WORD_SIZE * word } }
    {
        Spot {
            object: self.object,
            section: self.section,
            offset: self.offset + WORD_SIZE * word,
        }
    }
}

/// Whether a section of this number holds code.
fn is_code(sections: &[Section], section: u32) -> bool
    ensures { result ≡ option_map_or (λ t. is_code t.kind) (slice_get sections.now section) false }
{
    match sections.get(section as usize) {
        Some(s) => s.kind == SecKind::Code,
        None => false,
    }
}

/// The section of code that a symbol of a function is in: None where the symbol isn't of kind Function and nonzero size inside a
/// section of code.
pub fn function_section(sections: &[Section], symbol: &Symbol) -> Option<u32>
    ensures { result ≡ function_section sections.now symbol.now }
{
    match symbol.place {
        SymPlace::Inside(section)
            if symbol.kind == SymKind::Function && symbol.size != 0 && is_code(sections, section) =>
            { Some(section) }
        SymPlace::Inside(_) | SymPlace::Undefined | SymPlace::Absolute => None,
    }
}

/// Whether a symbol names another function than the last of these does.
fn is_new(functions: &[FunctionSymbol], f: &FunctionSymbol) -> bool
    ensures { result ≡ option_map_or (λ last. not (is_same last f.now)) (slice_get functions.now (length functions.now - 1)) true }
{
    match functions.last() {
        Some(last) => !last.is_same(f),
        None => true,
    }
}

/// Adds the symbol of an object with this number, where it is of a function.
fn push_symbol(
    symbols: &mut Vec<FunctionSymbol>,
    object: u32,
    sections: &[Section],
    number: u32,
    symbol: &Symbol,
) -> Result<(), OutOfMemory>
    ensures { OnOk result (symbols.new.items ≡ symbols.old.items ++ option_to_list (symbol_in object sections.now number symbol.now)) }
{
    if let Some(section) = function_section(sections, symbol) {
        symbols.push(FunctionSymbol {
            object,
            section,
            offset: symbol.value,
            size: symbol.size,
            local: !symbol.global,
            symbol: number,
        })?;
    }
    Ok(())
}

/// Adds the symbols of functions of an object.
fn push_symbols(
    symbols: &mut Vec<FunctionSymbol>,
    object: u32,
    o: &Object,
) -> Result<(), OutOfMemory>
    requires { length o.now.symbols ≤ MAX_SYMBOLS }
    ensures { OnOk result (symbols.new.items ≡ symbols.old.items ++ symbols_in object o.now) }
{
    for (number, symbol) in o.symbols.as_slice().iter().enumerate() {
        push_symbol(
            symbols,
            object,
            o.sections.as_slice(),
            number as u32,
            symbol,
        )?;
    }
    Ok(())
}

/// All symbols of functions, in order.
#[derive(Drop)]
pub struct FunctionSymbols {
    sorted: Vec<FunctionSymbol>,
}

impl FunctionSymbols {
    /// The symbols of functions in these objects.
    pub fn of(alloc: Global, objects: &[Object]) -> Result<FunctionSymbols, OutOfMemory>
        requires few { length objects.now ≤ MAX_OBJECTS }
        requires formed { All IsWellFormed objects.now }
        ensures { IfOk result (λ fs. AreSymbolsOf objects.now fs.sorted.items) }
    {
        let mut symbols = Vec::new(alloc);
        for (object, o) in objects.iter().enumerate() {
            push_symbols(&mut symbols, object as u32, o)?;
        }
        symbols.sort()?;
        Ok(FunctionSymbols { sorted: symbols })
    }

    /// Those in a section, in order.
    pub fn within(&self, object: u32, section: u32) -> &[FunctionSymbol]
        requires { AreSorted self.now.sorted.items }
        ensures { result.now ≡ filter (λ f. is_in f object section) self.now.sorted.items }
    {
        let all = self.sorted.as_slice();
        let from = all.partition_point(|f| f.is_before(object, section));
        let rest = &all[from..];
        let count = rest.partition_point(|f| f.is_in(object, section));
        &rest[..count]
    }

    /// The first place that two different functions share.
    pub fn first_shared(&self) -> Option<Spot>
        ensures some { IfSome result (λ q. (os : List Object) → AreSymbolsOf os self.now.sorted.items → IsFirstShared os q) }
        ensures none { IfNone result ((os : List Object) → AreSymbolsOf os self.now.sorted.items → (n k offset w : ℕ) → IsShared os n k offset w → ⊥) }
    {
        let all = self.sorted.as_slice();
        for i in 1..all.len() {
            if all[i - 1].meets(&all[i]) {
                return Some(all[i].start());
            }
        }
        None
    }

    /// The functions in order, each by the symbol that has its name.
    pub fn functions(&self, alloc: Global) -> Result<Functions, OutOfMemory>
        ensures { IfOk result (λ fs. (os : List Object) → AreSymbolsOf os self.now.sorted.items → AreFunctions os fs.sorted.items) }
    {
        let mut functions: Vec<FunctionSymbol> = Vec::new(alloc);
        for f in self.sorted.as_slice() {
            if is_new(functions.as_slice(), f) {
                functions.push(*f)?;
            }
        }
        Ok(Functions { sorted: functions })
    }
}

/// A word of a function.
#[derive(Clone, Copy, PartialEq, Eq, Hash, Debug)]
pub struct Place {
    /// The function's number, from 1 on.
    pub function: u32,
    pub word: u32,
}

/// The functions in order of their places.
#[derive(Drop)]
pub struct Functions {
    sorted: Vec<FunctionSymbol>,
}

impl Functions {
    /// The functions, each by the symbol that has its name; function 1 is the first.
    pub fn as_slice(&self) -> &[FunctionSymbol]
        ensures { result.now ≡ self.now.sorted.items }
    {
        self.sorted.as_slice()
    }

    /// How many functions begin at a place or before it.
    fn count_by(&self, spot: Spot) -> usize
        requires { IsPartitionedBy (λ f. begins_by f spot) self.now.sorted.items }
        ensures splits { IsPartitionPoint (λ f. begins_by f spot ≡ true) (λ f. begins_by f spot ≡ false) self.now.sorted.items result }
        ensures within { result ≤ length self.now.sorted.items }
    {
        self.sorted
            .as_slice()
            .partition_point(|f| f.begins_by(spot))
    }

    /// The word of a function at a place, None where the place is in no function or no multiple of 4. No two functions share a
    /// word.
    pub fn place_at(&self, spot: Spot) -> Option<Place>
        requires { HasPlaces self.now.sorted.items }
        ensures some { IfSome result (IsPlaceIn self.now.sorted.items spot) }
        ensures none { IfNone result ((p : Place) → IsPlaceIn self.now.sorted.items spot p → ⊥) }
    {
        let number = self.count_by(spot);
        if number == 0 || spot.offset % WORD_SIZE != 0 {
            return None;
        }
        let f = self.sorted[number - 1];
        if f.is_in(spot.object, spot.section) && spot.offset - f.offset < f.size {
            Some(Place {
                function: number as u32,
                word: (spot.offset - f.offset) / WORD_SIZE,
            })
        } else {
            None
        }
    }
}
