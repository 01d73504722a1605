//! Transfers between the local store and effective memory, and which of them can be carried out.

ghost use Rattle.std.specs.Prelude.{◌≡◌, ◌<◌, ◌≤◌, ◌+◌, ◌^◌, List, length, map, true};
ghost use Rattle.spu_word.specs.declared.load.Area.{Area};
ghost use Rattle.spu_exec.specs.Transfers.{
  Stretch,
  form_of,
  holds_range,
  is_shaped,
  is_size,
  is_taken,
  reached,
  some_holds,
  stretch_of,
};

use crate::channels::{MFC_GET, MFC_GETB, MFC_GETF, MFC_PUT, MFC_PUTB, MFC_PUTF, TAG_COUNT};
use spu_word::Area;
use spu_word::limits::{MAX_TRANSFER_SIZE, QUAD_SIZE, STORE_SIZE};

/// Which way a transfer goes.
#[derive(Clone, Copy, PartialEq, Eq, Debug)]
pub enum Form {
    /// From the local store to effective memory.
    Put,
    /// From effective memory to the local store.
    Get,
}

/// A transfer, as its command gave it.
#[derive(Clone, Copy, Debug)]
pub struct Transfer {
    /// Which way it goes.
    pub form: Form,
    /// Where its bytes begin in the local store.
    pub local: u32,
    /// Where they begin in effective memory.
    pub ea: u64,
    /// How many there are.
    pub size: u32,
    /// Its tag, of 32.
    pub tag: u32,
}

/// Which way the transfer of a command word goes, None where the word is no command.
pub fn form_of(word: u32) -> Option<Form>
    ensures { result ≡ form_of word }
{
    match word {
        MFC_PUT | MFC_PUTB | MFC_PUTF => Some(Form::Put),
        MFC_GET | MFC_GETB | MFC_GETF => Some(Form::Get),
        _ => None,
    }
}

/// Whether a transfer may have this size.
pub fn is_size(n: u32) -> bool
    ensures { result ≡ is_size n }
{
    n == 1
        || n == 2
        || n == 4
        || n == 8
        || n % QUAD_SIZE == 0 && QUAD_SIZE <= n && n <= MAX_TRANSFER_SIZE
}

/// Whether a range lies in bytes that begin at an effective address.
pub fn holds_range(ea: u64, size: u32, start: u64, bytes: &[u8]) -> bool
    ensures { result ≡ holds_range ea size (record { ea = start; bytes = bytes.now }) }
{
    start <= ea && u128::from(ea) + u128::from(size) <= u128::from(start) + bytes.len() as u128
}

/// Whether one of the areas holds a range.
fn some_area_holds(ea: u64, size: u32, areas: &[Area]) -> bool
    ensures { result ≡ some_holds ea size (map stretch_of areas.now) }
{
    match areas {
        [] => false,
        [a, rest @ ..] => {
            holds_range(ea, size, a.ea, a.bytes.as_slice()) || some_area_holds(ea, size, rest)
        }
    }
}

/// Whether the image or an area, for a PUT an area, holds a transfer's range.
fn is_reached(form: Form, ea: u64, size: u32, start: u64, image: &[u8], areas: &[Area]) -> bool
    ensures { result ≡ some_holds ea size (reached form (record { ea = start; bytes = image.now }) areas.now) }
{
    match form {
        Form::Put => some_area_holds(ea, size, areas),
        Form::Get => { holds_range(ea, size, start, image) || some_area_holds(ea, size, areas) }
    }
}

/// Whether a transfer is right but for where its effective addresses lie.
pub fn is_shaped(t: &Transfer) -> bool
    ensures { result ≡ is_shaped t.now }
{
    is_size(t.size)
        && t.tag < TAG_COUNT
        && u64::from(t.local % QUAD_SIZE) == t.ea % u64::from(QUAD_SIZE)
        && t.local % t.size.min(QUAD_SIZE) == 0
        && u64::from(t.local) + u64::from(t.size) <= u64::from(STORE_SIZE)
}

/// Whether a transfer can be carried out; the image's bytes begin at `start`.
pub fn is_taken(t: &Transfer, start: u64, image: &[u8], areas: &[Area]) -> bool
    ensures { result ≡ is_taken (record { ea = start; bytes = image.now }) areas.now t.now }
{
    is_shaped(t) && is_reached(t.form, t.ea, t.size, start, image, areas)
}
