//! The areas that a run is given: copies of them, and why a load refuses them.

ghost use Rattle.std.specs.Prelude.{◌≡◌, ◌⊎◌, ◌<◌, ℕ, List, [], length, IfOk};
ghost use Rattle.std.specs.List.{list_any};
ghost use Rattle.std.specs.Str.{bytes_eq};
ghost use Rattle.spu_word.specs.declared.load.Area.{Area};
ghost use Rattle.spu_word.specs.declared.load.LoadFault.TheVariants as faults;
ghost use Rattle.spu_exec.specs.Transfers.{Stretch, stretch_of};
ghost use Rattle.spu_exec.specs.Admission.{area_at, is_area, shares, overlaps, first_overlap, is_in_range, first_unfit};

use spu_word::limits::{MAX_AREA_SIZE, QUAD_SIZE};
use spu_word::{Area, LoadFault, OutOfMemory, Seq};
use std::alloc::Global;

/// Whether an area has a name.
pub(crate) fn is_named(a: &Area, name: &[u8]) -> bool
    ensures { result ≡ bytes_eq a.now.name name.now }
{
    a.name.as_slice() == name
}

/// Whether there is an area of a name.
pub fn is_area(areas: &[Area], name: &[u8]) -> bool
    ensures { result ≡ is_area areas.now name.now }
{
    areas.iter().any(|a| is_named(a, name))
}

/// Whether two stretches of bytes share one.
fn shares(a: u64, a_len: usize, b: u64, b_len: usize) -> bool
    ensures { (x y : List ℕ) → length x ≡ a_len → length y ≡ b_len → result ≡ shares (record { ea = a; bytes = x }) (record { ea = b; bytes = y }) }
{
    a_len > 0
        && b_len > 0
        && u128::from(a) < u128::from(b) + b_len as u128
        && u128::from(b) < u128::from(a) + a_len as u128
}

/// Whether two areas share a byte.
fn areas_share(a: &Area, b: &Area) -> bool
    ensures { result ≡ shares (stretch_of a.now) (stretch_of b.now) }
{
    shares(a.ea, a.bytes.len(), b.ea, b.bytes.len())
}

/// Whether an area shares a byte with the file.
fn shares_file(a: &Area, start: u64, file: &[u8]) -> bool
    ensures { result ≡ shares (stretch_of a.now) (record { ea = start; bytes = file.now }) }
{
    shares(a.ea, a.bytes.len(), start, file.len())
}

/// Whether an area shares a byte with one of others.
fn shares_any(a: &Area, others: &[Area]) -> bool
    ensures { result ≡ list_any (λ (b : Area). shares (stretch_of a.now) (stretch_of b)) others.now }
{
    others.iter().any(|b| areas_share(a, b))
}

/// Whether an area shares a byte with the file or with an area before it.
fn overlaps(start: u64, file: &[u8], before: &[Area], a: &Area) -> bool
    ensures { result ≡ overlaps (record { ea = start; bytes = file.now }) before.now a.now }
{
    shares_file(a, start, file) || shares_any(a, before)
}

/// The first area that shares a byte with the file, whose bytes begin at `start`, or with an area before it.
pub fn first_overlap(start: u64, file: &[u8], areas: &[Area]) -> Option<usize>
    ensures { result ≡ first_overlap (record { ea = start; bytes = file.now }) [] areas.now }
{
    for k in 0..areas.len() {
        if overlaps(start, file, &areas[..k], &areas[k]) {
            return Some(k);
        }
    }
    None
}

/// Whether an area has a byte, at most as many as one may have, begins at a multiple of 16, and ends in effective memory.
fn is_in_range(a: &Area) -> bool
    ensures { result ≡ is_in_range a.now }
{
    let len = a.bytes.len();
    len > 0
        && len <= MAX_AREA_SIZE as usize
        && a.ea % u64::from(QUAD_SIZE) == 0
        && u128::from(a.ea) + len as u128 <= 1 << 64
}

/// The first area that isn't in range.
pub fn first_unfit(areas: &[Area]) -> Option<usize>
    ensures { result ≡ first_unfit areas.now }
{
    areas.iter().position(|a| !is_in_range(a))
}

/// Copies of areas.
pub fn copied_areas(alloc: Global, areas: &[Area]) -> Result<Vec<Area>, OutOfMemory>
    ensures { IfOk result (λ v. v.items ≡ areas.now) }
{
    let mut all = Vec::new(alloc);
    for a in areas {
        all.push(Area {
            name: Seq::copied(alloc, a.name.as_slice())?,
            ea: a.ea,
            bytes: Seq::copied(alloc, a.bytes.as_slice())?,
        })?;
    }
    Ok(all)
}

/// The fault of a name that no area has.
pub fn unresolved(alloc: Global, name: &[u8]) -> LoadFault
    ensures { (result ≡ faults.OutOfMemory) ⊎ (result ≡ faults.UnresolvedName name.now) }
{
    match Seq::copied(alloc, name) {
        Ok(name) => LoadFault::UnresolvedName(name),
        Err(_) => LoadFault::OutOfMemory,
    }
}

/// The fault of an area that overlaps.
pub fn overlap(alloc: Global, areas: &[Area], k: usize) -> LoadFault
    requires { k < length areas.now }
    ensures { (result ≡ faults.OutOfMemory) ⊎ (result ≡ faults.AreasOverlap (area_at areas.now k).name) }
{
    match Seq::copied(alloc, areas[k].name.as_slice()) {
        Ok(name) => LoadFault::AreasOverlap(name),
        Err(_) => LoadFault::OutOfMemory,
    }
}

/// The fault of an area out of range.
pub fn out_of_range(alloc: Global, areas: &[Area], k: usize) -> LoadFault
    requires { k < length areas.now }
    ensures { (result ≡ faults.OutOfMemory) ⊎ (result ≡ faults.AreaRange (area_at areas.now k).name) }
{
    match Seq::copied(alloc, areas[k].name.as_slice()) {
        Ok(name) => LoadFault::AreaRange(name),
        Err(_) => LoadFault::OutOfMemory,
    }
}
