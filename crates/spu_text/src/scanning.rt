//! The tokens of a line.

ghost use Rattle.std.specs.Prelude.{true, false, ◌≡◌, ◌+◌, ◌<◌, ◌≤◌, ◌^◌, length, IfSome, slice_index};
ghost use Rattle.std.specs.List.{prefix_len, list_all};
ghost use Rattle.spu_word.specs.declared.limits.TheConstants.{MAX_LINE_SIZE};
ghost use Rattle.spu_text.specs.Texts.{is_space, is_source_byte, is_word_byte, closing, piece_of, is_over, scan};
ghost use Rattle.spu_text.specs.Reads.{Adds};

use crate::lexemes::{TextFault, Token, TokenKind};
use crate::numbers::word_kind;
use spu_word::Seq;

#[tactic(auto, unfolding(crate::specs::Texts::is_space))]
pub(crate) fn is_space(b: u8) -> bool
    ensures { result ≡ is_space b }
{
    b == b'\t' || b == b'\r' || b == b' '
}

#[tactic(auto, unfolding(crate::specs::Texts::is_word_byte))]
fn is_word_byte(b: u8) -> bool
    ensures { result ≡ is_word_byte b }
{
    b.is_ascii_alphanumeric() || b == b'_' || b == b'.' || b == b'$' || b == b'@'
}

/// The place of the quote that ends quoted text.
fn closing(bytes: &[u8]) -> Option<usize>
    requires { length bytes.now < 2 ^ 32 }
    ensures place { result ≡ closing false bytes.now }
    ensures within { IfSome result (λ n. n < length bytes.now) }
{
    let mut escaped = false;
    for i in 0..bytes.len() {
        let b = bytes[i];
        if !escaped && b == b'"' {
            return Some(i);
        }
        escaped = !escaped && b == b'\\';
    }
    None
}

/// How many bytes the word at the front has.
fn word_len(bytes: &[u8]) -> usize
    requires { length bytes.now < 2 ^ 32 }
    ensures len { result ≡ prefix_len is_word_byte bytes.now }
    ensures within { result ≤ length bytes.now }
    ensures some { 0 < length bytes.now → is_word_byte (slice_index bytes.now 0) ≡ true → 0 < result }
{
    bytes.iter().take_while(|b| is_word_byte(**b)).count()
}

/// The token at the front of the bytes, the first of which is no space and no `#`, and its length.
#[tactic(auto, unfolding(crate::specs::Texts::piece_of))]
pub(crate) fn piece_of(bytes: &[u8]) -> (Option<TokenKind>, usize)
    requires some { 0 < length bytes.now }
    requires small { length bytes.now < 2 ^ 32 }
    ensures kind { result.0 ≡ (piece_of bytes.now).kind }
    ensures size { result.1 ≡ (piece_of bytes.now).size }
    ensures nonempty { 0 < result.1 }
    ensures within { result.1 ≤ length bytes.now }
{
    let first = bytes[0];
    if is_word_byte(first) {
        let size = word_len(bytes);
        (word_kind(&bytes[..size]), size)
    } else if first == b'"' {
        match closing(&bytes[1..]) {
            Some(n) => (Some(TokenKind::Quoted), n + 2),
            None => (Some(TokenKind::Mark(first)), 1),
        }
    } else if first == b';' {
        (Some(TokenKind::EndOfStatement), 1)
    } else {
        (Some(TokenKind::Mark(first)), 1)
    }
}

/// Whether no token is left on the line.
pub(crate) fn is_over(rest: &[u8]) -> bool
    ensures over { result ≡ is_over rest.now }
    ensures some { result ≡ false → 0 < length rest.now }
{
    match rest {
        [] => true,
        [b, ..] => *b == b'#',
    }
}

/// Adds the tokens of a line, which stands at `start`.
pub fn scan(all: &mut Seq<Token>, line: &[u8], start: usize, number: u32) -> Result<(), TextFault>
    requires short { length line.now ≤ MAX_LINE_SIZE }
    requires early { start < 2 ^ 32 }
    ensures { Adds result all.old all.new (scan number start 0 line.now) }
{
    let mut at = start;
    let mut rest = line;
    while !is_over(rest) {
        if is_space(rest[0]) {
            at += 1;
            rest = &rest[1..];
        } else {
            let (kind, size) = piece_of(rest);
            let Some(kind) = kind else {
                return Err(TextFault::BadNumber(number));
            };
            all.push(Token {
                kind,
                start: at,
                end: at + size,
                line: number,
            })?;
            at += size;
            rest = rest.split_at(size).1;
        }
    }
    all.push(Token {
        kind: TokenKind::EndOfStatement,
        start: at,
        end: at,
        line: number,
    })?;
    Ok(())
}
