//! Words of code in no function, and words in two.

ghost use Rattle.std.specs.Prelude.{◌≡◌, ◌≤◌, ◌<◌, ◌*◌, ◌/◌, ◌^◌, ◌↔◌, [], IsTrue, IfErr, IsErrAnd, OnOk, MatchOption, Some, length, slice_get};
ghost use Rattle.spu_word.specs.declared.limits.TheConstants.{WORD_SIZE};
ghost use Rattle.spu_elf.specs.WellFormed.{IsWellFormed};
ghost use Rattle.spu_elf.specs.declared.objects.Section.{Section};
ghost use Rattle.spu_lift.specs.declared.fault.LiftKind.TheVariants as kinds;
ghost use Rattle.spu_lift.specs.declared.fault.LiftFault.TheVariants as faults;
ghost use Rattle.spu_lift.specs.Tables.{section_at};
ghost use Rattle.spu_lift.specs.LiftFaults.{IsFiller, Shows, is_filler};
ghost use Rattle.spu_lift.specs.FunctionTables.{IsLifting};
ghost use Rattle.spu_lift.specs.Checks.{AreCovered, AreFillers, AreLaidOut, IsAnswer, IsFirstStray, IsFirstUncovered, IsNowhere, IsTold, within};

use crate::fault::{LiftFault, LiftKind};
use crate::functions::FunctionSymbol;
use crate::lifting::Lifting;
use crate::relocations::Spot;
use spu_elf::{Object, SecKind, Section};
use spu_isa::{Op, decode};
use spu_word::be32;
use spu_word::limits::WORD_SIZE;
use std::alloc::Global;

/// Whether an operation is `lnop` or `nop`.
fn is_idle(op: Op) -> bool
    ensures { result ≡ is_filler op }
{
    match op {
        Op::Lnop | Op::Nop => true,
        _ => false,
    }
}

/// Whether a word may stand outside of functions: 0, `lnop` and `nop` may.
fn is_filler(word: u32) -> bool
    ensures { IsTrue result ↔ IsFiller word }
{
    if word == 0 {
        return true;
    }
    match decode(word) {
        Some(x) => is_idle(x.op),
        None => false,
    }
}

/// The first word from one index to another that may not stand outside of functions, as its index.
fn first_stray_between(bytes: &[u8], from: u32, to: u32) -> Option<u32>
    requires inside { WORD_SIZE * to ≤ length bytes.now }
    requires small { length bytes.now < 2 ^ 32 }
    ensures { MatchOption result (AreFillers bytes.now from to) (IsFirstStray bytes.now from to) }
{
    for i in from..to {
        if !is_filler(be32(bytes, (WORD_SIZE * i) as usize)) {
            return Some(i);
        }
    }
    None
}

/// The index of the first word of a section in none of these functions that may not stand there.
fn first_stray(bytes: &[u8], functions: &[FunctionSymbol]) -> Option<u32>
    requires laid { AreLaidOut (length bytes.now) functions.now }
    requires small { length bytes.now < 2 ^ 32 }
    ensures { MatchOption result (AreCovered bytes.now functions.now (length bytes.now / WORD_SIZE))
        (IsFirstUncovered bytes.now functions.now) }
{
    let mut covered = 0;
    for f in functions {
        if let Some(i) = first_stray_between(bytes, covered, f.offset / WORD_SIZE) {
            return Some(i);
        }
        covered = covered.max((f.offset + f.size) / WORD_SIZE);
    }
    first_stray_between(bytes, covered, bytes.len() as u32 / WORD_SIZE)
}

impl Lifting<'_> {
    /// The fault at a place; or want of memory.
    fn site_fault(&self, alloc: Global, kind: LiftKind, spot: Spot) -> Result<(), LiftFault>
        requires { (t : Section) × (section_at self.now.tables.objects.now spot.object spot.section ≡ Some t) }
        ensures { (t : Section) → section_at self.now.tables.objects.now spot.object spot.section ≡ Some t
            → IsErrAnd result (λ f. IsTold f (faults.Site kind spot.object t.name spot.offset)) }
    {
        match self.tables.section(spot.object, spot.section) {
            Some(section) => Err(LiftFault::of_site(
                alloc,
                kind,
                spot.object,
                section,
                spot.offset,
            )),
            None => Ok(()),
        }
    }

    /// Fails at the first word of a section of code in no function that isn't 0, `lnop` or `nop`.
    fn check_strays_within(
        &self,
        alloc: Global,
        object: u32,
        section: u32,
        s: &Section,
    ) -> Result<(), LiftFault>
        requires lifting { IsLifting self.now }
        requires aligned { IsNowhere (Shows kinds.Misaligned self.now.tables.objects.now ([])) }
        requires there { section_at self.now.tables.objects.now object section ≡ Some s.now }
        ensures ok { let shown = Shows kinds.CodeOutsideFunction self.now.tables.objects.now ([]) in
            OnOk result (IsNowhere (within section (within object shown))) }
        ensures err { let shown = Shows kinds.CodeOutsideFunction self.now.tables.objects.now ([]) in
            IfErr result (IsAnswer (within section (within object shown))) }
    {
        if s.kind != SecKind::Code {
            return Ok(());
        }
        match first_stray(s.bytes.as_slice(), self.symbols.within(object, section)) {
            Some(word) => Err(LiftFault::of_site(
                alloc,
                LiftKind::CodeOutsideFunction,
                object,
                s,
                WORD_SIZE * word,
            )),
            None => Ok(()),
        }
    }

    /// Fails at the first word of an object's code in no function that isn't 0, `lnop` or `nop`.
    fn check_strays_in(&self, alloc: Global, object: u32, o: &Object) -> Result<(), LiftFault>
        requires lifting { IsLifting self.now }
        requires aligned { IsNowhere (Shows kinds.Misaligned self.now.tables.objects.now ([])) }
        requires formed { IsWellFormed o.now }
        requires there { slice_get self.now.tables.objects.now object ≡ Some o.now }
        ensures ok { OnOk result (IsNowhere (within object (Shows kinds.CodeOutsideFunction self.now.tables.objects.now ([])))) }
        ensures err { IfErr result (IsAnswer (within object (Shows kinds.CodeOutsideFunction self.now.tables.objects.now ([])))) }
    {
        for (section, s) in o.sections.as_slice().iter().enumerate() {
            self.check_strays_within(alloc, object, section as u32, s)?;
        }
        Ok(())
    }

    /// Fails at the first word of code in no function that isn't 0, `lnop` or `nop`.
    pub fn check_strays(&self, alloc: Global) -> Result<(), LiftFault>
        requires lifting { IsLifting self.now }
        requires aligned { IsNowhere (Shows kinds.Misaligned self.now.tables.objects.now ([])) }
        ensures ok { OnOk result (IsNowhere (Shows kinds.CodeOutsideFunction self.now.tables.objects.now ([]))) }
        ensures err { IfErr result (IsAnswer (Shows kinds.CodeOutsideFunction self.now.tables.objects.now ([]))) }
    {
        for (object, o) in self.tables.objects.iter().enumerate() {
            self.check_strays_in(alloc, object as u32, o)?;
        }
        Ok(())
    }

    /// Fails at the first word that two functions of different extent share.
    pub fn check_overlaps(&self, alloc: Global) -> Result<(), LiftFault>
        requires lifting { IsLifting self.now }
        requires aligned { IsNowhere (Shows kinds.Misaligned self.now.tables.objects.now ([])) }
        ensures ok { OnOk result (IsNowhere (Shows kinds.FunctionOverlap self.now.tables.objects.now ([]))) }
        ensures err { IfErr result (IsAnswer (Shows kinds.FunctionOverlap self.now.tables.objects.now ([]))) }
    {
        match self.symbols.first_shared() {
            Some(spot) => self.site_fault(alloc, LiftKind::FunctionOverlap, spot),
            None => Ok(()),
        }
    }
}
