//! The faults of symbols: names that are defined twice, or that are kept for the chain's own symbols, and the missing entry.

ghost use Rattle.std.specs.Prelude.{◌≡◌, ◌≢◌, ◌≤◌, ℕ, ◌⊎◌, ◌↔◌, IsTrue, IfOk, IfErr, IfNone, IfSome, OnOk, List, [], Some, codes, length, slice_get, true};
ghost use Rattle.std.specs.List.{starts_with};
ghost use Rattle.spu_elf.specs.WellFormed.{IsWellFormed};
ghost use Rattle.spu_elf.specs.declared.objects.Symbol.{Symbol};
ghost use Rattle.spu_lift.specs.declared.fault.LiftKind.TheVariants as kinds;
ghost use Rattle.spu_lift.specs.declared.relocations.Spot.{Spot};
ghost use Rattle.spu_lift.specs.Tables.{symbol_at};
ghost use Rattle.spu_lift.specs.LiftFaults.{IsReserved, Shows};
ghost use Rattle.spu_lift.specs.LookUps.{AreTables};
ghost use Rattle.spu_lift.specs.Checks.{IsAnswer, IsBadSymbol, IsEntryAt, IsFaultySymbol, IsFunctionAt, IsNowhere, ShowsSymbol, kind_of_check, within};

use crate::definitions::{SymbolId, is_definition};
use crate::fault::{LiftFault, LiftKind};
use crate::functions::function_section;
use crate::lifting::Lifting;
use crate::relocations::Spot;
use crate::tables::Tables;
use spu_elf::{Object, Symbol, is_same};
use std::alloc::Global;

/// A question about a global definition.
#[derive(Clone, Copy, PartialEq, Eq, Debug)]
enum SymbolCheck {
    /// Whether an earlier one has its name.
    Duplicate,
    /// Whether its name is kept for the chain's own symbols.
    Reserved,
}

impl SymbolCheck {
    /// The fault's kind.
    fn kind(&self) -> LiftKind
        ensures { result ≡ kind_of_check self.now }
    {
        match self {
            SymbolCheck::Duplicate => LiftKind::DuplicateSymbol,
            SymbolCheck::Reserved => LiftKind::ReservedName,
        }
    }
}

/// Whether a name is kept for the symbols that a link adds.
fn is_reserved(name: &[u8]) -> bool
    ensures { IsTrue result ↔ IsReserved name.now }
{
    is_same(name, b"_start") || is_same(name, b"__image_ea") || name.starts_with(b"__stack_")
}

impl Tables<'_> {
    /// Whether a global definition has a fault.
    fn shows_symbol(&self, check: SymbolCheck, id: SymbolId, symbol: &Symbol) -> bool
        requires tables { AreTables self.now }
        requires there { symbol_at self.now.objects.now id.object id.symbol ≡ Some symbol.now }
        ensures { IsTrue result ↔ IsFaultySymbol check self.now.objects.now id.object id.symbol symbol.now }
    {
        match check {
            SymbolCheck::Duplicate => self.definitions.find(symbol.name.as_slice()) != Some(id),
            SymbolCheck::Reserved => is_reserved(symbol.name.as_slice()),
        }
    }

    /// Whether a symbol is a global definition that has a fault.
    fn is_bad_symbol(&self, check: SymbolCheck, id: SymbolId, symbol: &Symbol) -> bool
        requires tables { AreTables self.now }
        requires there { symbol_at self.now.objects.now id.object id.symbol ≡ Some symbol.now }
        ensures { IsTrue result ↔ IsBadSymbol check self.now.objects.now id.object id.symbol symbol.now }
    {
        is_definition(symbol) && self.shows_symbol(check, id, symbol)
    }

    /// Fails at the first global definition in an object that has a fault.
    fn check_symbols_in(
        &self,
        alloc: Global,
        check: SymbolCheck,
        object: u32,
        o: &Object,
    ) -> Result<(), LiftFault>
        requires tables { AreTables self.now }
        requires formed { IsWellFormed o.now }
        requires there { slice_get self.now.objects.now object ≡ Some o.now }
        ensures ok { OnOk result (IsNowhere (within object (ShowsSymbol check self.now.objects.now))) }
        ensures err { IfErr result (IsAnswer (within object (ShowsSymbol check self.now.objects.now))) }
    {
        for (number, symbol) in o.symbols.as_slice().iter().enumerate() {
            let id = SymbolId {
                object,
                symbol: number as u32,
            };
            if self.is_bad_symbol(check, id, symbol) {
                return Err(LiftFault::of_symbol(alloc, check.kind(), symbol));
            }
        }
        Ok(())
    }

    /// Fails at the first global definition that has a fault.
    fn check_symbols(&self, alloc: Global, check: SymbolCheck) -> Result<(), LiftFault>
        requires { AreTables self.now }
        ensures ok { OnOk result (IsNowhere (ShowsSymbol check self.now.objects.now)) }
        ensures err { IfErr result (IsAnswer (ShowsSymbol check self.now.objects.now)) }
    {
        for (object, o) in self.objects.iter().enumerate() {
            self.check_symbols_in(alloc, check, object as u32, o)?;
        }
        Ok(())
    }

    /// Fails at the first symbol whose name an earlier global definition has.
    pub fn check_duplicates(&self, alloc: Global) -> Result<(), LiftFault>
        requires { AreTables self.now }
        ensures ok { OnOk result (IsNowhere (Shows kinds.DuplicateSymbol self.now.objects.now ([]))) }
        ensures err { IfErr result (IsAnswer (Shows kinds.DuplicateSymbol self.now.objects.now ([]))) }
    {
        self.check_symbols(alloc, SymbolCheck::Duplicate)
    }

    /// Fails at the first global definition whose name is kept for the chain's own symbols.
    pub fn check_reserved(&self, alloc: Global) -> Result<(), LiftFault>
        requires { AreTables self.now }
        ensures ok { OnOk result (IsNowhere (Shows kinds.ReservedName self.now.objects.now ([]))) }
        ensures err { IfErr result (IsAnswer (Shows kinds.ReservedName self.now.objects.now ([]))) }
    {
        self.check_symbols(alloc, SymbolCheck::Reserved)
    }

    /// Where the function of a symbol begins, None where the symbol isn't of a function.
    fn function_start(&self, id: SymbolId) -> Option<Spot>
        ensures some { IfSome result (IsFunctionAt self.now.objects.now id) }
        ensures none { IfNone result ((spot : Spot) → IsFunctionAt self.now.objects.now id spot → ⊥) }
    {
        let o = self.objects.get(id.object as usize)?;
        let symbol = o.symbols.get(id.symbol as usize)?;
        let section = function_section(o.sections.as_slice(), symbol)?;
        Some(Spot {
            object: id.object,
            section,
            offset: symbol.value,
        })
    }

    /// Where the function begins whose global symbol has the entry's name; no two global definitions have one name.
    pub fn entry_start(&self, entry: &[u8]) -> Result<Spot, LiftFault>
        requires tables { AreTables self.now }
        requires unique { IsNowhere (Shows kinds.DuplicateSymbol self.now.objects.now ([])) }
        ensures ok { IfOk result (IsEntryAt self.now.objects.now entry.now) }
        ensures none { OnOk result (IsNowhere (Shows kinds.NoEntry self.now.objects.now entry.now)) }
        ensures err { IfErr result (IsAnswer (Shows kinds.NoEntry self.now.objects.now entry.now)) }
    {
        match self.definitions.find(entry) {
            Some(id) => self.function_start(id).ok_or(LiftFault::NoEntry),
            None => Err(LiftFault::NoEntry),
        }
    }
}
