//! The alignment of sections, functions and the quadwords of named areas.

ghost use Rattle.std.specs.Prelude.{◌≡◌, ◌≤◌, ℕ, ◌↔◌, List, [], IsTrue, IfErr, IsErrAnd, IsSome, Some, OnOk, false, length};
ghost use Rattle.std.specs.Option.{option_copied, option_map_or};
ghost use Rattle.spu_elf.specs.declared.objects.Section.{Section};
ghost use Rattle.spu_word.specs.declared.limits.TheConstants.{MAX_OBJECTS};
ghost use Rattle.spu_lift.specs.declared.fault.LiftKind.TheVariants as kinds;
ghost use Rattle.spu_lift.specs.declared.fault.LiftFault.TheVariants as faults;
ghost use Rattle.spu_lift.specs.Lifted.{is_ear_name};
ghost use Rattle.spu_lift.specs.LiftFaults.{IsMisalignedSection, Shows};
ghost use Rattle.spu_lift.specs.Checks.{data_section, is_ear, IsAnswer, IsMisalignedEar, IsMisalignedFunction, IsNoneIn, IsNowhere, IsSectionTold, IsSymbolTold, IsTold, is_toe, section_by};

use crate::fault::{LiftFault, LiftKind};
use crate::functions::function_section;
use crate::program::MAX_ALIGN;
use spu_elf::{Object, SecKind, Section, SymPlace, Symbol};
use spu_word::limits::{QUAD_SIZE, WORD_SIZE};
use std::alloc::Global;

/// What the names of the quadwords of named areas begin with.
pub const EAR_PREFIX: &[u8] = b"_EAR_";

/// Whether a section is aligned too far, or is code of a size that is no multiple of 4.
fn is_misaligned_section(section: &Section) -> bool
    ensures { IsTrue result ↔ IsMisalignedSection section.now }
{
    section.align > MAX_ALIGN || (section.kind == SecKind::Code && section.size % WORD_SIZE != 0)
}

/// Whether a symbol is of a function whose start or size is no multiple of 4.
fn is_misaligned_function(sections: &[Section], symbol: &Symbol) -> bool
    ensures { IsTrue result ↔ IsMisalignedFunction sections.now symbol.now }
{
    function_section(sections, symbol).is_some()
        && (symbol.value % WORD_SIZE != 0 || symbol.size % WORD_SIZE != 0)
}

/// The section of data that a symbol is in.
pub fn data_section<'a>(sections: &'a [Section], symbol: &Symbol) -> Option<&'a Section>
    ensures { option_copied result ≡ data_section sections.now symbol.now }
{
    match symbol.place {
        SymPlace::Undefined | SymPlace::Absolute => None,
        SymPlace::Inside(section) => match sections.get(section as usize) {
            Some(s) if s.kind != SecKind::Code => Some(s),
            Some(_) | None => None,
        },
    }
}

/// Whether a name begins with `_EAR_`, and goes on.
fn is_ear_name(name: &[u8]) -> bool
    ensures { result ≡ is_ear_name name.now }
{
    name.len() > EAR_PREFIX.len() && name.starts_with(EAR_PREFIX)
}

/// Whether a symbol is inside a section of data named `.toe`.
fn is_in_toe(sections: &[Section], symbol: &Symbol) -> bool
    ensures { result ≡ option_map_or is_toe (data_section sections.now symbol.now) false }
{
    match data_section(sections, symbol) {
        Some(section) => section.name.as_slice() == b".toe".as_slice(),
        None => false,
    }
}

/// Whether a symbol is of the quadword of a named area: global, named `_EAR_` and at least one byte more, inside a section of
/// data named `.toe`.
pub fn is_ear(sections: &[Section], symbol: &Symbol) -> bool
    ensures { result ≡ is_ear sections.now symbol.now }
{
    symbol.global && is_ear_name(symbol.name.as_slice()) && is_in_toe(sections, symbol)
}

/// Whether a symbol is of such a quadword that isn't at a multiple of 16 with 16 bytes left.
fn is_misaligned_ear(sections: &[Section], symbol: &Symbol) -> bool
    ensures { IsTrue result ↔ IsMisalignedEar sections.now symbol.now }
{
    match data_section(sections, symbol) {
        Some(section) => {
            is_ear(sections, symbol)
                && (symbol.value % QUAD_SIZE != 0
                    || (symbol.value as u64 + QUAD_SIZE as u64) > section.size as u64)
        }
        None => false,
    }
}

/// Fails at a symbol, which is inside a section.
fn symbol_fault(
    alloc: Global,
    object: u32,
    sections: &[Section],
    symbol: &Symbol,
) -> Result<(), LiftFault>
    requires { IsSome (section_by sections.now symbol.now.place) }
    ensures { IsErrAnd result (λ f. (t : Section) × (section_by sections.now symbol.now.place ≡ Some t)
        × IsTold f (faults.Site kinds.Misaligned object t.name symbol.now.value)) }
{
    match section_of(sections, symbol) {
        Some(section) => Err(LiftFault::of_site(
            alloc,
            LiftKind::Misaligned,
            object,
            section,
            symbol.value,
        )),
        None => Ok(()),
    }
}

/// The section that a symbol is in.
fn section_of<'a>(sections: &'a [Section], symbol: &Symbol) -> Option<&'a Section>
    ensures { option_copied result ≡ section_by sections.now symbol.now.place }
{
    match symbol.place {
        SymPlace::Undefined | SymPlace::Absolute => None,
        SymPlace::Inside(section) => sections.get(section as usize),
    }
}

/// Fails at the first section of an object that is misaligned.
fn check_sections(alloc: Global, object: u32, o: &Object) -> Result<(), LiftFault>
    ensures ok { OnOk result (IsNoneIn (λ i y. IsMisalignedSection y) o.now.sections) }
    ensures err { IfErr result (IsSectionTold object o.now) }
{
    for section in o.sections.as_slice() {
        if is_misaligned_section(section) {
            let kind = LiftKind::Misaligned;
            return Err(LiftFault::of_site(alloc, kind, object, section, 0));
        }
    }
    Ok(())
}

/// Fails at the first function of an object, in order of symbols, that is misaligned.
fn check_functions(alloc: Global, object: u32, o: &Object) -> Result<(), LiftFault>
    ensures ok { OnOk result (IsNoneIn (λ i y. IsMisalignedFunction o.now.sections y) o.now.symbols) }
    ensures err { IfErr result (IsSymbolTold IsMisalignedFunction object o.now) }
{
    let sections = o.sections.as_slice();
    for symbol in o.symbols.as_slice() {
        if is_misaligned_function(sections, symbol) {
            symbol_fault(alloc, object, sections, symbol)?;
        }
    }
    Ok(())
}

/// Fails at the first quadword of a named area in an object, in order of symbols, that is misaligned.
fn check_ears(alloc: Global, object: u32, o: &Object) -> Result<(), LiftFault>
    ensures ok { OnOk result (IsNoneIn (λ i y. IsMisalignedEar o.now.sections y) o.now.symbols) }
    ensures err { IfErr result (IsSymbolTold IsMisalignedEar object o.now) }
{
    let sections = o.sections.as_slice();
    for symbol in o.symbols.as_slice() {
        if is_misaligned_ear(sections, symbol) {
            symbol_fault(alloc, object, sections, symbol)?;
        }
    }
    Ok(())
}

/// Fails at the first place that is misaligned: in order of objects, and in each its sections, then its functions, then the
/// quadwords of named areas.
pub fn check_alignment(alloc: Global, objects: &[Object]) -> Result<(), LiftFault>
    requires { length objects.now ≤ MAX_OBJECTS }
    ensures ok { OnOk result (IsNowhere (Shows kinds.Misaligned objects.now ([]))) }
    ensures err { IfErr result (IsAnswer (Shows kinds.Misaligned objects.now ([]))) }
{
    for (object, o) in objects.iter().enumerate() {
        check_sections(alloc, object as u32, o)?;
        check_functions(alloc, object as u32, o)?;
        check_ears(alloc, object as u32, o)?;
    }
    Ok(())
}
