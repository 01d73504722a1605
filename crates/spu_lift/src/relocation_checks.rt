//! The faults of relocations.

ghost use Rattle.std.specs.Prelude.{◌≡◌, ◌⊎◌, ◌↔◌, [], ◌∷◌, IsTrue, IfErr, OnOk, MatchOption, Some, length, slice_get};
ghost use Rattle.spu_word.specs.Bytes.{be_number};
ghost use Rattle.spu_elf.specs.WellFormed.{IsWellFormedReloc};
ghost use Rattle.spu_elf.specs.declared.objects.Section.{Section};
ghost use Rattle.spu_lift.specs.declared.fault.LiftKind.TheVariants as kinds;
ghost use Rattle.spu_lift.specs.Tables.{section_at, target_of};
ghost use Rattle.spu_lift.specs.Extents.{IsEarlier};
ghost use Rattle.spu_lift.specs.Meanings.{meaning_of};
ghost use Rattle.spu_lift.specs.LiftFaults.{FitsIn, HasAddend, IsAstray, IsBadReloc, IsSecond, Shows};
ghost use Rattle.spu_lift.specs.LookUps.{AreTables, HasWord};
ghost use Rattle.spu_lift.specs.FunctionTables.{HasPlaces, IsLifting};
ghost use Rattle.spu_lift.specs.Checks.{IsAnswer, IsFaultyReloc, IsFirstOfTwo, IsFirstReloc, IsNoneIn, IsNowhere, IsReadyFor, IsRelocTold, IsShownBy, IsSoundReloc, MayHave, ShowsReloc, kind_of_question, spot_of, within};

use crate::fault::{LiftFault, LiftKind};
use crate::lifting::Lifting;
use crate::relocations::Spot;
use crate::tables::{Meaning, Tables};
use spu_elf::{Object, Reloc};
use spu_reloc::{RelocKind, fits, kind_of};
use spu_word::limits::WORD_SIZE;
use std::alloc::Global;

/// A question about a relocation that isn't on a hint.
#[derive(Clone, Copy, PartialEq, Eq, Debug)]
enum RelocationCheck {
    /// Whether its symbol is undefined, and no object defines it.
    Undefined,
    /// Whether it doesn't fit what it stands on.
    Unfit,
    /// Whether it adds to a function, or stands for a place of code in no function.
    CodeAddend,
}

impl RelocationCheck {
    /// The fault's kind.
    fn kind(&self) -> LiftKind
        ensures { result ≡ kind_of_question self.now }
    {
        match self {
            RelocationCheck::Undefined => LiftKind::UndefinedSymbol,
            RelocationCheck::Unfit => LiftKind::BadRelocation,
            RelocationCheck::CodeAddend => LiftKind::CodeAddend,
        }
    }
}

/// The place of a relocation in an object.
fn spot_of(object: u32, r: &Reloc) -> Spot
    ensures { result ≡ spot_of object r.now }
{
    Spot {
        object,
        section: r.section,
        offset: r.offset,
    }
}

/// Whether a relocation stands before another, by section and offset.
fn is_before(r: &Reloc, other: &Reloc) -> bool
    ensures { IsTrue result ↔ IsEarlier (r.now.section ∷ r.now.offset ∷ []) (other.now.section ∷ other.now.offset ∷ []) }
{
    r.section < other.section || (r.section == other.section && r.offset < other.offset)
}

/// The first of two relocations by section and offset, the first of them where they are at one place.
fn first_of_two(other: Reloc, r: Reloc) -> Reloc
    ensures { IsFirstOfTwo other r result }
{
    if is_before(&r, &other) { r } else { other }
}

impl Tables<'_> {
    /// Whether a relocation of an object has a kind of the profile that may stand at its place.
    fn may_stand(&self, object: u32, index: usize, r: &Reloc) -> bool
        requires { IsSoundReloc self.now.objects.now object index r.now }
        ensures { (t : Section) → section_at self.now.objects.now object r.now.section ≡ Some t
            → (IsTrue result ↔ FitsIn t.kind t r.now) }
    {
        match kind_of(r.kind) {
            Some(kind) => self.may_have(spot_of(object, r), kind),
            None => false,
        }
    }

    /// Whether a relocation of this kind may stand at a place.
    fn may_have(&self, spot: Spot, kind: RelocKind) -> bool
        requires { HasWord self.now.objects.now spot }
        ensures { (t : Section) → section_at self.now.objects.now spot.object spot.section ≡ Some t
            → (IsTrue result ↔ MayHave t.kind (be_number t.bytes spot.offset) kind) }
    {
        if !self.is_code(spot.object, spot.section) {
            return kind == RelocKind::Addr32;
        }
        match self.instruction(spot) {
            Some(x) => fits(x.op, kind),
            None => false,
        }
    }

    /// Whether an earlier relocation of an object stands where the one with this index does.
    fn is_second(&self, object: u32, index: usize, r: &Reloc) -> bool
        requires tables { AreTables self.now }
        requires sound { IsSoundReloc self.now.objects.now object index r.now }
        ensures { IsTrue result ↔ IsSecond self.now.objects.now object index r.now }
    {
        self.relocations.first_at(spot_of(object, r)) != Some(index)
    }

    /// Whether the relocation of an object with this index doesn't fit: its place is no multiple of 4 or has an earlier
    /// relocation, or its kind may not stand there.
    fn is_unfit(&self, object: u32, index: usize, r: &Reloc) -> bool
        requires tables { AreTables self.now }
        requires sound { IsSoundReloc self.now.objects.now object index r.now }
        ensures { (t : Section) → section_at self.now.objects.now object r.now.section ≡ Some t
            → (IsTrue result ↔ IsBadReloc self.now.objects.now object index r.now t) }
    {
        r.offset % WORD_SIZE != 0
            || self.is_second(object, index, r)
            || !self.may_stand(object, index, r)
    }

    /// The fault that is told of a relocation.
    fn relocation_fault(
        &self,
        alloc: Global,
        check: RelocationCheck,
        object: u32,
        o: &Object,
        r: &Reloc,
    ) -> LiftFault
        requires there { slice_get self.now.objects.now object ≡ Some o.now }
        requires formed { IsWellFormedReloc o.now.sections (length o.now.symbols) r.now }
        ensures { (t : Section) → section_at self.now.objects.now object r.now.section ≡ Some t
            → IsRelocTold check self.now.objects.now object r.now t result }
    {
        match check {
            RelocationCheck::Undefined => {
                let symbols = o.symbols.as_slice();
                LiftFault::of_symbol(alloc, check.kind(), &symbols[r.symbol as usize])
            }
            RelocationCheck::Unfit | RelocationCheck::CodeAddend => {
                let sections = o.sections.as_slice();
                let section = &sections[r.section as usize];
                LiftFault::of_site(alloc, check.kind(), object, section, r.offset)
            }
        }
    }
}

impl Lifting<'_> {
    /// Whether a place of code is meant that is in no function, or no multiple of 4.
    fn is_astray(&self, meaning: Meaning) -> bool
        requires lifting { IsLifting self.now }
        requires places { HasPlaces self.now.functions.sorted.items }
        ensures { IsTrue result ↔ IsAstray self.now.tables.objects.now meaning }
    {
        match meaning {
            Meaning::Code { .. } => self.place_meant(meaning).is_none(),
            Meaning::Number(_) | Meaning::Unknown => false,
        }
    }

    /// Whether a relocation adds to a function, or stands for a place of code in no function.
    fn adds_to_code(&self, object: u32, r: &Reloc) -> bool
        requires lifting { IsLifting self.now }
        requires places { HasPlaces self.now.functions.sorted.items }
        ensures { let os = self.now.tables.objects.now in
            IsTrue result ↔ (HasAddend r.now (target_of os object r.now) ⊎ IsAstray os (meaning_of os object r.now)) }
    {
        (self.tables.is_function_target(object, r) && r.addend != 0)
            || self.is_astray(self.tables.meaning(object, r))
    }

    /// Whether a relocation has a fault.
    fn shows_relocation(&self, check: RelocationCheck, object: u32, index: usize, r: &Reloc) -> bool
        requires lifting { IsLifting self.now }
        requires ready { IsReadyFor check self.now.functions.sorted.items }
        requires sound { IsSoundReloc self.now.tables.objects.now object index r.now }
        ensures { IsTrue result ↔ IsShownBy check self.now.tables.objects.now object index r.now }
    {
        self.has_fault(check, object, index, r) && !self.tables.is_on_hint(spot_of(object, r))
    }

    /// Whether a relocation has a fault, if it is not on a hint.
    fn has_fault(&self, check: RelocationCheck, object: u32, index: usize, r: &Reloc) -> bool
        requires lifting { IsLifting self.now }
        requires ready { IsReadyFor check self.now.functions.sorted.items }
        requires sound { IsSoundReloc self.now.tables.objects.now object index r.now }
        ensures { let os = self.now.tables.objects.now in
            (t : Section) → section_at os object r.now.section ≡ Some t → (IsTrue result ↔ IsFaultyReloc check os object index r.now t) }
    {
        match check {
            RelocationCheck::Undefined => self.tables.target(object, r).is_none(),
            RelocationCheck::Unfit => self.tables.is_unfit(object, index, r),
            RelocationCheck::CodeAddend => self.adds_to_code(object, r),
        }
    }

    /// The first relocation of an object, by section and offset, that has a fault; of several at one place the earliest.
    fn first_relocation(&self, check: RelocationCheck, object: u32, o: &Object) -> Option<Reloc>
        requires lifting { IsLifting self.now }
        requires ready { IsReadyFor check self.now.functions.sorted.items }
        requires there { slice_get self.now.tables.objects.now object ≡ Some o.now }
        ensures { let bad = IsShownBy check self.now.tables.objects.now object in
            MatchOption result (IsNoneIn bad o.now.relocs) (IsFirstReloc bad o.now.relocs (length o.now.relocs)) }
    {
        let mut first: Option<Reloc> = None;
        for (index, r) in o.relocs.as_slice().iter().enumerate() {
            if self.shows_relocation(check, object, index, r) {
                first = match first {
                    Some(other) => Some(first_of_two(other, *r)),
                    None => Some(*r),
                };
            }
        }
        first
    }

    /// Fails at the first relocation of an object that has a fault.
    fn check_relocations_in(
        &self,
        alloc: Global,
        check: RelocationCheck,
        object: u32,
        o: &Object,
    ) -> Result<(), LiftFault>
        requires lifting { IsLifting self.now }
        requires ready { IsReadyFor check self.now.functions.sorted.items }
        requires there { slice_get self.now.tables.objects.now object ≡ Some o.now }
        ensures ok { OnOk result (IsNowhere (within object (ShowsReloc check self.now.tables.objects.now))) }
        ensures err { IfErr result (IsAnswer (within object (ShowsReloc check self.now.tables.objects.now))) }
    {
        match self.first_relocation(check, object, o) {
            Some(r) => Err(self.tables.relocation_fault(alloc, check, object, o, &r)),
            None => Ok(()),
        }
    }

    /// Fails at the first relocation that has a fault.
    fn check_relocations(&self, alloc: Global, check: RelocationCheck) -> Result<(), LiftFault>
        requires lifting { IsLifting self.now }
        requires ready { IsReadyFor check self.now.functions.sorted.items }
        ensures ok { OnOk result (IsNowhere (ShowsReloc check self.now.tables.objects.now)) }
        ensures err { IfErr result (IsAnswer (ShowsReloc check self.now.tables.objects.now)) }
    {
        for (object, o) in self.tables.objects.iter().enumerate() {
            self.check_relocations_in(alloc, check, object as u32, o)?;
        }
        Ok(())
    }

    /// Fails at the first relocation, not on a hint, whose symbol no object defines.
    pub fn check_undefined(&self, alloc: Global) -> Result<(), LiftFault>
        requires { IsLifting self.now }
        ensures ok { OnOk result (IsNowhere (Shows kinds.UndefinedSymbol self.now.tables.objects.now ([]))) }
        ensures err { IfErr result (IsAnswer (Shows kinds.UndefinedSymbol self.now.tables.objects.now ([]))) }
    {
        self.check_relocations(alloc, RelocationCheck::Undefined)
    }

    /// Fails at the first relocation, not on a hint, that doesn't fit what it stands on.
    pub fn check_fits(&self, alloc: Global) -> Result<(), LiftFault>
        requires { IsLifting self.now }
        ensures ok { OnOk result (IsNowhere (Shows kinds.BadRelocation self.now.tables.objects.now ([]))) }
        ensures err { IfErr result (IsAnswer (Shows kinds.BadRelocation self.now.tables.objects.now ([]))) }
    {
        self.check_relocations(alloc, RelocationCheck::Unfit)
    }

    /// Fails at the first relocation, not on a hint, that adds to a function or stands for a place of code in no function.
    pub fn check_addends(&self, alloc: Global) -> Result<(), LiftFault>
        requires lifting { IsLifting self.now }
        requires places { HasPlaces self.now.functions.sorted.items }
        ensures ok { OnOk result (IsNowhere (Shows kinds.CodeAddend self.now.tables.objects.now ([]))) }
        ensures err { IfErr result (IsAnswer (Shows kinds.CodeAddend self.now.tables.objects.now ([]))) }
    {
        self.check_relocations(alloc, RelocationCheck::CodeAddend)
    }
}
