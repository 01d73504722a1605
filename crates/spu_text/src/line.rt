//! Texts line by line: the lines, and the lexemes of one.

ghost use Rattle.std.specs.Prelude.{◌≡◌, ◌++◌, ◌∷◌, [], OnOk, ◌<◌, ◌≤◌, ◌^◌, length, IfSome, MatchOption};
ghost use Rattle.spu_word.specs.declared.limits.TheConstants.{MAX_LINE_SIZE};
ghost use Rattle.spu_text.specs.declared.lexemes.TextFault.TheVariants as faults;
ghost use Rattle.spu_text.specs.Texts.{lines_of};
ghost use Rattle.spu_text.specs.Lexemes.{lexeme, lexeme_of, lexemes, lexemes_of, read_or, Reads};

use crate::lexemes::{TextFault, TokenKind};
use crate::lines::{content, is_source, line_len};
use crate::scanning::{is_over, is_space, piece_of};
use spu_word::OutOfMemory;
use spu_word::limits::MAX_LINE_SIZE;

/// A token of a line, with its text.
#[derive(Clone, Copy, PartialEq, Eq, Debug)]
pub enum Piece<'a> {
    /// Letters, digits, `_`, `.`, `$` and `@`, of which the first is no digit.
    Word(&'a [u8]),
    /// A number below 2^128.
    Number(u128),
    /// Text between quotes, with its quotes.
    Quoted(&'a [u8]),
    /// Any other byte, also the `;` between statements.
    Mark(u8),
}

/// The piece of this kind and text.
fn piece_with<'a>(kind: TokenKind, text: &'a [u8]) -> Piece<'a>
    ensures { lexeme_of result ≡ lexeme kind text.now }
{
    match kind {
        TokenKind::Word => Piece::Word(text),
        TokenKind::Number(n) => Piece::Number(n),
        TokenKind::Quoted => Piece::Quoted(text),
        TokenKind::Mark(mark) => Piece::Mark(mark),
        TokenKind::EndOfStatement => Piece::Mark(b';'),
    }
}

/// Adds a piece.
fn put<'a>(pieces: &mut Vec<Piece<'a>>, piece: Piece<'a>) -> Result<(), OutOfMemory>
    ensures { OnOk result (pieces.new.items ≡ pieces.old.items ++ piece.entry ∷ []) }
{
    pieces.push(piece)?;
    Ok(())
}

/// Puts the lexemes of a line's content into `pieces`.
#[tactic(auto, using(crate::proofs::LexemeSteps::over_space, crate::proofs::LexemeSteps::over_lexeme, crate::proofs::LexemeSteps::no_number, crate::proofs::LexemeSteps::at_end))]
fn read_content<'a>(
    pieces: &mut Vec<Piece<'a>>,
    line: &'a [u8],
    number: u32,
) -> Result<(), TextFault>
    requires { length line.now ≤ MAX_LINE_SIZE }
    ensures { Reads result pieces.new.items (read_or (faults.BadNumber number) (lexemes 0 line.now)) }
{
    pieces.clear();
    let mut rest = line;
    while !is_over(rest) {
        if is_space(rest[0]) {
            rest = &rest[1..];
        } else {
            let (kind, size) = piece_of(rest);
            let Some(kind) = kind else {
                return Err(TextFault::BadNumber(number));
            };
            let (text, more) = rest.split_at(size);
            put(pieces, piece_with(kind, text))?;
            rest = more;
        }
    }
    Ok(())
}

/// Puts the lexemes of a line, which has its end, into `pieces`. A fault carries the line's number.
#[tactic(auto, unfolding(crate::specs::Lexemes::lexemes_of))]
pub fn read_line<'a>(
    pieces: &mut Vec<Piece<'a>>,
    line: &'a [u8],
    number: u32,
) -> Result<(), TextFault>
    requires { length line.now < 2 ^ 32 }
    ensures { Reads result pieces.new.items (lexemes_of number line.now) }
{
    let bytes = content(line);
    if !is_source(bytes) {
        return Err(TextFault::NotAscii(number));
    }
    if bytes.len() > MAX_LINE_SIZE as usize {
        return Err(TextFault::LineTooLong(number));
    }
    read_content(pieces, bytes, number)
}

/// The first line of a text, with its end, and the text behind it; None where there is no line.
#[tactic(auto, using(crate::proofs::LineSteps::lines_first))]
pub fn first_line(text: &[u8]) -> Option<(&[u8], &[u8])>
    requires { length text.now < 2 ^ 32 }
    ensures lines { MatchOption result (lines_of text.now ≡ []) (λ p. lines_of text.now ≡ p.0.now ∷ lines_of p.1.now) }
    ensures short { IfSome result (λ p. length p.0.now < 2 ^ 32) }
    ensures shorter { IfSome result (λ p. length p.1.now < length text.now) }
{
    if text.is_empty() {
        None
    } else {
        Some(text.split_at(line_len(text)))
    }
}
