//! Tokens, and why a text has none.

ghost use Rattle.std.specs.Prelude.{◌≡◌};
ghost use Rattle.spu_text.specs.declared.lexemes.TextFault.TheVariants as faults;

use spu_word::OutOfMemory;

/// What a token is.
#[derive(Clone, Copy, PartialEq, Eq, Debug)]
pub enum TokenKind {
    /// Letters, digits, `_`, `.`, `$` and `@`, of which the first is no digit.
    Word,
    /// A word that begins with a digit: decimal, or hexadecimal behind `0x`; below 2^128.
    Number(u128),
    /// Text between quotes, with its quotes.
    Quoted,
    /// Any other byte, also a quote that isn't closed on its line.
    Mark(u8),
    /// A `;`, or the empty slice where a line's comment begins or the line ends.
    EndOfStatement,
}

/// A token: the bytes of the text from `start` up to `end`, on a line counted from 1.
#[derive(Clone, Copy, PartialEq, Eq, Debug)]
pub struct Token {
    pub kind: TokenKind,
    pub start: usize,
    pub end: usize,
    pub line: u32,
}

/// Why a text has no tokens: on the first faulty line, the first of these that it has. Each carries its line, from 1.
#[derive(Clone, Copy, PartialEq, Eq, Debug)]
pub enum TextFault {
    /// A1: a byte other than 9, 10, 13 and 32 to 126.
    NotAscii(u32),
    /// A2: more than `MAX_LINE_SIZE` bytes.
    LineTooLong(u32),
    /// A3: a word that begins with a digit and is no number below 2^128.
    BadNumber(u32),
    /// Memory ran out.
    OutOfMemory,
}

impl From<OutOfMemory> for TextFault {
    ghost from_gives = { λ _ e. e ≡ faults.OutOfMemory };

    fn from(_: OutOfMemory) -> TextFault {
        TextFault::OutOfMemory
    }
}
