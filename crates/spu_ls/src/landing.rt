//! What a transfer does as it lands.

ghost use Rattle.std.specs.Prelude.{◌≡◌, ◌+◌, ◌-◌, ◌≤◌, List, length, map};
ghost use Rattle.spu_word.specs.declared.load.Area.{Area};
ghost use Rattle.spu_exec.specs.declared.transfers.Form.TheVariants.{Get};
ghost use Rattle.spu_exec.specs.Transfers.{Stretch, stretch_of, reached};
ghost use Rattle.spu_exec.specs.Areas.{bytes_at, with_bytes, written, first_holding};
ghost use Rattle.spu_ls.specs.Stores.{bytes_of, bytes_from, placed};
ghost use Rattle.spu_word.specs.declared.limits.TheConstants.{STORE_SIZE};

use crate::local_store::put_bytes;
use spu_exec::{Transfer, holds_range};
use spu_word::{Area, Bytes};

/// The bytes of a range in the first area that holds it.
fn bytes_in(areas: &[Area], ea: u64, size: u32) -> &[u8]
    ensures value { result.now ≡ bytes_at (map stretch_of areas.now) ea size }
    ensures few { length result.now ≤ size }
{
    match areas {
        [] => &[],
        [a, rest @ ..] => {
            if holds_range(ea, size, a.ea, a.bytes.as_slice()) {
                let at = (ea - a.ea) as usize;
                &a.bytes.as_slice()[at..at + size as usize]
            } else {
                bytes_in(rest, ea, size)
            }
        }
    }
}

/// The bytes of a range in the executable's file, or else in the first area that holds it.
fn bytes_reached<'a>(start: u64, image: &'a [u8], areas: &'a [Area], ea: u64, size: u32) -> &'a [u8]
    ensures value { result.now ≡ bytes_at (reached Get (record { ea = start; bytes = image.now }) areas.now) ea size }
    ensures few { length result.now ≤ size }
{
    if holds_range(ea, size, start, image) {
        let at = (ea - start) as usize;
        &image[at..at + size as usize]
    } else {
        bytes_in(areas, ea, size)
    }
}

/// A GET lands: the file's or an area's bytes go into the store.
pub fn get_from(store: &mut [u8], start: u64, image: &[u8], areas: &[Area], t: &Transfer)
    requires { t.now.local + t.now.size ≤ length store.old }
    ensures value { bytes_of store.new ≡ placed t.now.local (bytes_at (reached Get (record { ea = start; bytes = image.now }) areas.now) t.now.ea t.now.size) (bytes_of store.old) }
    ensures len { length store.new ≡ length store.old }
{
    put_bytes(
        store,
        t.local as usize,
        bytes_reached(start, image, areas, t.ea, t.size),
    );
}

/// The first area that holds a range.
fn first_holding(areas: &[Area], ea: u64, size: u32) -> Option<usize>
    ensures { result ≡ first_holding ea size areas.now }
{
    areas
        .iter()
        .position(|a| holds_range(ea, size, a.ea, a.bytes.as_slice()))
}

/// Writes bytes to the first area that holds their range.
fn write(areas: &mut [Area], ea: u64, bytes: &[u8])
    requires { length bytes.now ≤ STORE_SIZE }
    ensures { areas.new ≡ written ea bytes.now areas.old }
{
    if let Some(i) = first_holding(areas, ea, bytes.len() as u32) {
        let a = &mut areas[i];
        a.bytes.overwrite((ea - a.ea) as usize, bytes);
    }
}

/// A PUT lands: the store's bytes go into an area.
pub fn put_to(areas: &mut [Area], store: &[u8], t: &Transfer)
    requires inside { t.now.local + t.now.size ≤ length store.now }
    requires store { length store.now ≤ STORE_SIZE }
    ensures { areas.new ≡ written t.now.ea (bytes_from (bytes_of store.now) t.now.local t.now.size) areas.old }
{
    let at = t.local as usize;
    write(areas, t.ea, &store[at..at + t.size as usize]);
}
