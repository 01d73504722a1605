//! Why a text has no object.

ghost use Rattle.std.specs.Prelude.{◌≡◌};
ghost use Rattle.spu_asm.specs.declared.faults.AsmFault.TheVariants as faults;

use spu_word::OutOfMemory;

/// What is wrong with a line.
#[derive(Clone, Copy, PartialEq, Eq, Debug)]
pub enum AsmKind {
    /// A1: a byte other than 9, 10, 13 and 32 to 126.
    NotAscii,
    /// A2: more than 512 bytes.
    LineTooLong,
    /// A3: a word that begins with a digit and is no number below 2^128.
    BadNumber,
    /// A4: a statement that begins with no word, with `.` alone, or with a word that names no instruction and doesn't begin
    /// with `.`.
    UnknownMnemonic,
    /// A5: the operands aren't those of the instruction.
    BadOperand,
    /// A6: a number outside its range.
    Range,
    /// A7: a label that is there already.
    DuplicateLabel,
    /// A8: a directive that isn't known or against its rules, an unclosed quote or an unknown escape, content where its
    /// section allows none, or a padding of code that begins at no multiple of 4.
    BadDirective,
    /// A9: a section over 262,144 bytes.
    SectionTooLarge,
    /// A10: a text over 4,194,304 bytes, or an object that has no file.
    TooLarge,
}

/// Why a text has no object.
#[derive(Clone, Copy, PartialEq, Eq, Debug)]
pub enum AsmFault {
    /// The first faulty line, counted from 1, and what is wrong with it.
    Fault { kind: AsmKind, line: u32 },
    /// Memory ran out.
    OutOfMemory,
}

impl From<OutOfMemory> for AsmFault {
    ghost from_gives = { λ _ e. e ≡ faults.OutOfMemory };

    fn from(_: OutOfMemory) -> AsmFault {
        AsmFault::OutOfMemory
    }
}
