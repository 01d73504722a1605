//! The numbers that words write.

ghost use Rattle.std.specs.Prelude.{true, ◌≡◌, ◌<◌, ◌≤◌, length, slice_index};
ghost use Rattle.std.specs.List.{prefix_len};
ghost use Rattle.spu_text.specs.Texts.{is_word_byte, number_in, number_of, word_kind, with_digit};

use crate::lexemes::TokenKind;

/// The number with one digit more.
fn with_digit(radix: u32, n: u128, c: u8) -> Option<u128>
    requires low { 2 ≤ radix }
    requires high { radix ≤ 36 }
    ensures { result ≡ with_digit radix n c }
{
    let digit = char::from(c).to_digit(radix)?;
    n.checked_mul(u128::from(radix))?
        .checked_add(u128::from(digit))
}

/// The number that the digits write, below 2^128.
#[tactic(auto, using(crate::proofs::NumberSteps::number_is, crate::proofs::NumberSteps::number_none))]
fn number_in(radix: u32, digits: &[u8]) -> Option<u128>
    requires low { 2 ≤ radix }
    requires high { radix ≤ 36 }
    ensures { result ≡ number_in radix digits.now }
{
    if digits.is_empty() {
        return None;
    }
    let mut n: u128 = 0;
    for c in digits {
        n = with_digit(radix, n, *c)?;
    }
    Some(n)
}

/// The number that a word writes.
#[tactic(auto, unfolding(crate::specs::Texts::number_of))]
fn number_of(word: &[u8]) -> Option<u128>
    ensures { result ≡ number_of word.now }
{
    match word {
        [b'0', b'x', digits @ ..] => number_in(16, digits),
        _ => number_in(10, word),
    }
}

/// What a word is.
#[tactic(auto, unfolding(crate::specs::Texts::word_kind))]
pub fn word_kind(word: &[u8]) -> Option<TokenKind>
    requires { 0 < length word.now }
    ensures { result ≡ word_kind word.now }
{
    if word[0].is_ascii_digit() {
        number_of(word).map(TokenKind::Number)
    } else {
        Some(TokenKind::Word)
    }
}
