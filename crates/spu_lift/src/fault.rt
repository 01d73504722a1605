//! Why objects stand for no program.

ghost use Rattle.std.specs.Prelude.{◌≡◌};
ghost use Rattle.spu_lift.specs.declared.fault.LiftFault.TheVariants as faults;
ghost use Rattle.spu_lift.specs.Checks.{IsTold};

use spu_elf::{Section, Symbol};
use spu_word::{Name, OutOfMemory, Seq};
use std::alloc::Global;

/// What is wrong with a list of objects.
#[derive(Clone, Copy, PartialEq, Eq, Debug)]
pub enum LiftKind {
    /// Two global definitions have one name.
    DuplicateSymbol,
    /// A relocation has an undefined symbol that no global definition names.
    UndefinedSymbol,
    /// A global definition has a name that is kept for the chain's own symbols.
    ReservedName,
    /// No global symbol of a function has the entry's name.
    NoEntry,
    /// A section, a function or the quadword of a named area isn't aligned as it must be.
    Misaligned,
    /// A word of code in no function isn't 0, `lnop` or `nop`.
    CodeOutsideFunction,
    /// Two functions of different extent share a word.
    FunctionOverlap,
    /// A word in a function doesn't decode.
    UnknownInstruction,
    /// A relocation doesn't fit what it stands on.
    BadRelocation,
    /// A direct branch or call goes to no place that it may go to.
    BadTarget,
    /// An address of code is in no function, no multiple of 4, or a function with an addend.
    CodeAddend,
    /// A call leaves its link in another register than register 0.
    LinkRegister,
    /// A load or store names code, or a relative one has no relocation.
    ReadsCode,
}

/// Why objects stand for no program: the fault with the least number, at its first place; or want of memory.
#[derive(Drop)]
pub enum LiftFault {
    /// No global symbol of a function has the entry's name.
    NoEntry,
    /// A fault of a symbol: DuplicateSymbol, UndefinedSymbol or ReservedName.
    Symbol {
        kind: LiftKind,
        name: Name,
    },
    /// A fault at an offset of a section of an object: Misaligned, CodeOutsideFunction, FunctionOverlap,
    /// BadRelocation or CodeAddend. What Misaligned says of a whole section is at offset 0.
    Site {
        kind: LiftKind,
        /// The object's number, counted from 0.
        object: u32,
        /// The section's name.
        section: Name,
        offset: u32,
    },
    /// A fault at an offset of a function: UnknownInstruction, BadTarget, LinkRegister or ReadsCode.
    Word {
        kind: LiftKind,
        /// The function's name.
        function: Name,
        offset: u32,
    },
    /// Memory ran out.
    OutOfMemory,
}

impl LiftFault {
    /// A fault of a symbol; or want of memory.
    pub(crate) fn of_symbol(alloc: Global, kind: LiftKind, symbol: &Symbol) -> LiftFault
        ensures { IsTold result (faults.Symbol kind symbol.now.name) }
    {
        match Seq::copied(alloc, symbol.name.as_slice()) {
            Ok(name) => LiftFault::Symbol { kind, name },
            Err(_) => LiftFault::OutOfMemory,
        }
    }

    /// A fault at an offset of a section of an object; or want of memory.
    pub(crate) fn of_site(
        alloc: Global,
        kind: LiftKind,
        object: u32,
        section: &Section,
        offset: u32,
    ) -> LiftFault
        ensures { IsTold result (faults.Site kind object section.now.name offset) }
    {
        match Seq::copied(alloc, section.name.as_slice()) {
            Ok(section) => LiftFault::Site {
                kind,
                object,
                section,
                offset,
            },
            Err(_) => LiftFault::OutOfMemory,
        }
    }
}

impl From<OutOfMemory> for LiftFault {
    ghost use Rattle.spu_lift.specs.declared.fault.LiftFault.TheVariants as faults;

    ghost from_gives = { λ _ e. e ≡ faults.OutOfMemory };

    fn from(_e: OutOfMemory) -> LiftFault {
        LiftFault::OutOfMemory
    }
}
