//! Fields of a file, and checks that they are as they must be.

ghost use Rattle.std.specs.Prelude.{◌≡◌, ◌+◌, ◌*◌, ◌≤◌, ◌<◌, ◌^◌, length, take, drop, slice_index, OnOk};
ghost use Rattle.spu_word.specs.Bytes.{be_number};
ghost use Rattle.spu_elf.specs.Checks.{Names, reached, byte_check, half_check, word_check, bytes_check, halves_check, words_check, zeros_check};
ghost use Rattle.spu_word.specs.declared.limits.TheConstants.{MAX_FILE_SIZE};

use crate::faults::{ElfFault, ElfKind};
use spu_word::{be16, be32};

/// The byte at a place, 0 past the end.
fn byte_at(bytes: &[u8], at: usize) -> u8
    ensures { result ≡ slice_index bytes.now at }
{
    bytes.get(at).copied().unwrap_or(0)
}

/// The big-endian word at a place, with zeros past the end.
pub fn word_at(bytes: &[u8], at: usize) -> u32
    requires { at < 2 ^ 62 }
    ensures { result ≡ be_number bytes.now at }
{
    u32::from_be_bytes([
        byte_at(bytes, at),
        byte_at(bytes, at + 1),
        byte_at(bytes, at + 2),
        byte_at(bytes, at + 3),
    ])
}

/// Up to `len` bytes from a place.
pub fn part(bytes: &[u8], from: usize, len: usize) -> &[u8]
    ensures value { result.now ≡ take len (drop from bytes.now) }
    ensures within { length result.now ≤ length bytes.now }
{
    let (_, rest) = bytes.split_at(from.min(bytes.len()));
    let (text, _) = rest.split_at(len.min(rest.len()));
    text
}

/// The fault of a failing check.
pub fn fault(kind: ElfKind, place: usize) -> Result<(), ElfFault>
    requires { place < 2 ^ 32 }
    ensures { result ≡ Err (ElfFault.Fault kind place) }
{
    Err(ElfFault::Fault {
        kind,
        place: place as u32,
    })
}

/// The file reaches so many bytes from a place on.
fn check_reached(bytes: &[u8], at: usize, width: usize) -> Result<(), ElfFault>
    requires small { length bytes.now ≤ MAX_FILE_SIZE }
    requires near { at + width < 2 ^ 64 }
    ensures checks { Names result (reached bytes.now at width) }
    ensures inside { OnOk result (at + width ≤ length bytes.now) }
{
    if bytes.len() < at + width {
        return fault(ElfKind::Truncated, bytes.len());
    }
    Ok(())
}

/// A byte is this one.
pub fn check_byte(bytes: &[u8], kind: ElfKind, at: usize, v: u8) -> Result<(), ElfFault>
    requires small { length bytes.now ≤ MAX_FILE_SIZE }
    requires near { at + 1 < 2 ^ 64 }
    ensures checks { Names result (byte_check bytes.now kind at v) }
    ensures inside { OnOk result (at + 1 ≤ length bytes.now) }
{
    check_reached(bytes, at, 1)?;
    if bytes[at] != v {
        return fault(kind, at);
    }
    Ok(())
}

/// A halfword is this one.
pub fn check_half(bytes: &[u8], kind: ElfKind, at: usize, v: usize) -> Result<(), ElfFault>
    requires small { length bytes.now ≤ MAX_FILE_SIZE }
    requires near { at < 2 ^ 61 }
    ensures checks { Names result (half_check bytes.now kind at v) }
    ensures inside { OnOk result (at + 2 ≤ length bytes.now) }
{
    check_reached(bytes, at, 2)?;
    if be16(bytes, at) as usize != v {
        return fault(kind, at);
    }
    Ok(())
}

/// A word is this one.
pub fn check_word(bytes: &[u8], kind: ElfKind, at: usize, v: usize) -> Result<(), ElfFault>
    requires small { length bytes.now ≤ MAX_FILE_SIZE }
    requires near { at < 2 ^ 61 }
    ensures checks { Names result (word_check bytes.now kind at v) }
    ensures inside { OnOk result (at + 4 ≤ length bytes.now) }
{
    check_reached(bytes, at, 4)?;
    if be32(bytes, at) as usize != v {
        return fault(kind, at);
    }
    Ok(())
}

/// Words are these.
pub fn check_words(bytes: &[u8], kind: ElfKind, at: usize, words: &[usize]) -> Result<(), ElfFault>
    requires small { length bytes.now ≤ MAX_FILE_SIZE }
    requires near { at + 4 * length words.now < 2 ^ 61 }
    ensures checks { Names result (words_check bytes.now kind at words.now) }
    ensures inside { OnOk result (0 < length words.now → at + 4 * length words.now ≤ length bytes.now) }
{
    for (i, v) in words.iter().enumerate() {
        check_word(bytes, kind, at + 4 * i, *v)?;
    }
    Ok(())
}

/// Halfwords are these.
pub fn check_halves(
    bytes: &[u8],
    kind: ElfKind,
    at: usize,
    halves: &[usize],
) -> Result<(), ElfFault>
    requires small { length bytes.now ≤ MAX_FILE_SIZE }
    requires near { at + 2 * length halves.now < 2 ^ 61 }
    ensures { Names result (halves_check bytes.now kind at halves.now) }
{
    for (i, v) in halves.iter().enumerate() {
        check_half(bytes, kind, at + 2 * i, *v)?;
    }
    Ok(())
}

/// Bytes are these.
pub fn check_bytes(bytes: &[u8], kind: ElfKind, at: usize, expected: &[u8]) -> Result<(), ElfFault>
    requires small { length bytes.now ≤ MAX_FILE_SIZE }
    requires near { at + length expected.now < 2 ^ 64 }
    ensures { Names result (bytes_check bytes.now kind at expected.now) }
{
    for (i, v) in expected.iter().enumerate() {
        check_byte(bytes, kind, at + i, *v)?;
    }
    Ok(())
}

/// So many bytes are zero.
#[tactic(auto, using(crate::proofs::ExecutableLoops::zeros_from, crate::proofs::ExecutableLoops::zeros_done))]
pub fn check_zeros(bytes: &[u8], at: usize, count: usize) -> Result<(), ElfFault>
    requires small { length bytes.now ≤ MAX_FILE_SIZE }
    requires near { at + count < 2 ^ 61 }
    ensures { Names result (zeros_check bytes.now at count) }
{
    for i in 0..count {
        check_byte(bytes, ElfKind::BadTable, at + i, 0)?;
    }
    Ok(())
}
