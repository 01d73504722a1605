//! Global definitions by name.

ghost use Rattle.std.specs.Prelude.{◌≡◌, ◌≤◌, ℕ, List, All, length, if◌then◌else◌, Some, None, OnOk, IfOk};
ghost use Rattle.std.specs.Option.{option_or};
ghost use Rattle.std.specs.Str.{bytes_eq};
ghost use Rattle.spu_word.specs.declared.limits.TheConstants.{MAX_OBJECTS, MAX_SYMBOLS};
ghost use Rattle.spu_elf.specs.WellFormed.{IsWellFormed};
ghost use Rattle.spu_lift.specs.Tables.{definitions_in, is_definition};
ghost use Rattle.spu_lift.specs.Defined.{AreDefined, first_id, named};

use indexmap::IndexMap;
use spu_elf::{Object, SymPlace, Symbol};
use spu_word::OutOfMemory;
use std::alloc::Global;

/// A symbol, by the numbers of its object and in its object.
#[derive(Clone, Copy, PartialEq, Eq, Debug)]
pub struct SymbolId {
    pub object: u32,
    pub symbol: u32,
}

/// Whether a symbol is a definition that other objects see.
pub fn is_definition(symbol: &Symbol) -> bool
    ensures { result ≡ is_definition symbol.now }
{
    symbol.global && symbol.place != SymPlace::Undefined
}

/// The first global definition of each name, in the order in which the names come.
#[derive(Drop)]
pub struct Definitions<'a> {
    by_name: IndexMap<&'a [u8], SymbolId>,
}

impl<'a> Definitions<'a> {
    /// The definitions in no object.
    fn new(alloc: Global) -> Definitions<'a>
        ensures { (q : List ℕ) → named result q ≡ None }
    {
        Definitions {
            by_name: IndexMap::new(alloc),
        }
    }

    /// The definitions in these objects.
    pub fn of(alloc: Global, objects: &'a [Object]) -> Result<Definitions<'a>, OutOfMemory>
        requires few { length objects.now ≤ MAX_OBJECTS }
        requires formed { All IsWellFormed objects.now }
        ensures { IfOk result (AreDefined objects.now) }
    {
        let mut definitions = Definitions::new(alloc);
        for (object, o) in objects.iter().enumerate() {
            definitions.define_all(object as u32, o.symbols.as_slice())?;
        }
        Ok(definitions)
    }

    /// Takes in the symbols of an object.
    fn define_all(&mut self, object: u32, symbols: &'a [Symbol]) -> Result<(), OutOfMemory>
        requires { length symbols.now ≤ MAX_SYMBOLS }
        ensures { OnOk result ((q : List ℕ) → named self.new q ≡ option_or (named self.old q) (first_id q (definitions_in object symbols.now))) }
    {
        for (symbol, s) in symbols.iter().enumerate() {
            self.define_symbol(object, symbol as u32, s)?;
        }
        Ok(())
    }

    /// Takes in a symbol, if it is a definition that other objects see.
    fn define_symbol(&mut self, object: u32, symbol: u32, s: &'a Symbol) -> Result<(), OutOfMemory>
        ensures { OnOk result ((q : List ℕ) → named self.new q ≡ option_or (named self.old q) (if is_definition s.now then (if bytes_eq q s.now.name then Some (record { object = object; symbol = symbol }) else None) else None)) }
    {
        if is_definition(s) {
            self.define(s.name.as_slice(), SymbolId { object, symbol })
        } else {
            Ok(())
        }
    }

    /// Takes in a definition, unless its name has one.
    fn define(&mut self, name: &'a [u8], id: SymbolId) -> Result<(), OutOfMemory>
        ensures { OnOk result ((q : List ℕ) → named self.new q ≡ option_or (named self.old q) (if bytes_eq q name.now then Some id else None)) }
    {
        match self.find(name) {
            Some(_) => {}
            None => {
                self.by_name.insert(name, id)?;
            }
        }
        Ok(())
    }

    /// The first definition of a name.
    pub fn find(&self, name: &[u8]) -> Option<SymbolId>
        ensures { result ≡ named self.now name.now }
    {
        self.by_name.get(name).copied()
    }
}
