//! Statements: the labels of each, and what it does.

use crate::faults::AsmKind;
use crate::operands::Target;
use spu_elf::{SecKind, SymKind};
use spu_reloc::RelocKind;
use spu_word::Bytes;

/// A symbol in the values of a directive: the four bytes at `offset` get its address and the addend.
#[derive(Clone, Copy, PartialEq, Eq, Debug)]
pub struct AddressValue<'a> {
    /// Where its bytes begin among those of the directive.
    pub offset: usize,
    pub name: &'a [u8],
    pub addend: i32,
}

/// What a directive puts into the current section.
#[derive(Drop)]
pub struct Content<'a> {
    /// The bytes, with zeros where addresses go.
    pub bytes: Bytes,
    /// The symbols among its values, in order.
    pub addresses: Vec<AddressValue<'a>>,
}

/// An instruction's word, and the symbols in its operands.
#[derive(Clone, Copy, PartialEq, Eq, Debug)]
pub struct Instruction<'a> {
    pub word: u32,
    /// The symbol of a hint's place, which is named alone.
    pub place: Option<&'a [u8]>,
    /// The symbol that the instruction refers to.
    pub target: Option<Target<'a>>,
    /// The relocation that it makes; none where that is `Addr32`.
    pub kind: RelocKind,
}

/// What a statement does behind its labels.
#[derive(Drop)]
pub enum Action<'a> {
    /// Nothing.
    Nothing,
    /// An instruction.
    Instruction(Instruction<'a>),
    /// Values or text.
    Data(Content<'a>),
    /// So many zero bytes.
    Space(u128),
    /// Padding to the next multiple of this power of two, 1 to 128.
    Align(u32),
    /// The section of this name goes on; it is of this kind where it is new.
    Section {
        name: &'a [u8],
        kind: SecKind,
    },
    /// The symbol is global.
    Global(&'a [u8]),
    /// The symbol may be common.
    Local(&'a [u8]),
    /// The symbol's kind.
    Kind {
        name: &'a [u8],
        kind: SymKind,
    },
    /// The symbol ends here.
    EndsHere(&'a [u8]),
    /// The symbol's size in bytes.
    Size {
        name: &'a [u8],
        size: u128,
    },
    /// So many zero bytes in `.bss`, at the next multiple of a power of two up to 128, under this name.
    Common {
        name: &'a [u8],
        size: u128,
        align: u32,
    },
}

/// A statement.
#[derive(Drop)]
pub struct Statement<'a> {
    /// Its line, counted from 1.
    pub line: u32,
    /// The labels in front of it, in order.
    pub labels: Vec<&'a [u8]>,
    /// What it does, or the least fault that its tokens have by themselves.
    pub action: Result<Action<'a>, AsmKind>,
}
