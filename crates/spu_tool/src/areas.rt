//! The areas of a run: the words that name them, and what a run is given of them.

ghost use Rattle.std.specs.Prelude.{◌≡◌, ◌&&◌, not, List, length, IfOk};
ghost use Rattle.std.specs.List.{list_all, list_any};
ghost use Rattle.std.specs.Str.{bytes_eq};
ghost use Rattle.spu_word.specs.declared.load.Area.{Area};
ghost use Rattle.spu_tool.specs.Areas.{is_name_byte, is_area_name, parts_shown, area_with, area_behind, area_word, is_placed, has_room, areas_of};
ghost use Rattle.spu_tool.specs.Cutting.{cut_at};

use crate::cutting::cut_at;
use crate::numbers::{MAX_ADDRESS, number_within};
use spu_word::limits::MAX_AREAS;
use spu_word::{Area, Bytes, Name, OutOfMemory, Seq};
use std::alloc::Global;

/// Where an area lies, and its name.
#[derive(Drop)]
pub struct AreaPlace {
    /// The name that an `_EAR_` symbol refers to.
    pub name: Name,
    /// The effective address of the first byte.
    pub ea: u64,
}

/// A word `NAME:EA:FILE`.
#[derive(Clone, Copy)]
pub struct AreaWord<'a> {
    pub name: &'a str,
    pub ea: u64,
    pub file: &'a str,
}

// Whether a byte may stand in the name of an area.
fn is_name_byte(c: u8) -> bool
    ensures { result ≡ is_name_byte c }
{
    c.is_ascii_alphanumeric() || c == b'_'
}

fn are_name_bytes(name: &[u8]) -> bool
    ensures { result ≡ list_all is_name_byte name.now }
{
    name.iter().all(|c| is_name_byte(*c))
}

fn is_area_name(name: &[u8]) -> bool
    ensures { result ≡ is_area_name name.now }
{
    !name.is_empty() && are_name_bytes(name)
}

// The area of a name and a file, at an address.
fn area_with<'a>(name: &'a str, file: &'a str, ea: Option<u64>) -> Option<AreaWord<'a>>
    ensures { parts_shown result ≡ area_with name.now file.now ea }
{
    match ea {
        Some(ea) => {
            if is_area_name(name.as_bytes()) && !file.is_empty() {
                Some(AreaWord { name, ea, file })
            } else {
                None
            }
        }
        None => None,
    }
}

// The area of a name, with what stands behind it.
fn area_behind<'a>(name: &'a str, rest: &'a str) -> Option<AreaWord<'a>>
    ensures { parts_shown result ≡ area_behind name.now (cut_at 58 rest.now) }
{
    match cut_at(rest, ':') {
        Some((ea, file)) => area_with(name, file, number_within(ea.as_bytes(), MAX_ADDRESS)),
        None => None,
    }
}

/// The area that a word names.
pub fn area_word(value: &str) -> Option<AreaWord<'_>>
    ensures { parts_shown result ≡ area_word value.now }
{
    match cut_at(value, ':') {
        Some((name, rest)) => area_behind(name, rest),
        None => None,
    }
}

// Whether an area has this name.
fn is_named(place: &AreaPlace, name: &[u8]) -> bool
    ensures { result ≡ bytes_eq place.now.name name.now }
{
    place.name.as_slice() == name
}

fn is_placed(places: &[AreaPlace], name: &[u8]) -> bool
    ensures { result ≡ is_placed places.now name.now }
{
    places.iter().any(|p| is_named(p, name))
}

/// Whether there is room for one more area, and none before has its name.
pub fn has_room(places: &[AreaPlace], name: &[u8]) -> bool
    ensures { result ≡ has_room places.now name.now }
{
    places.len() < MAX_AREAS as usize && !is_placed(places, name)
}

// The area of a place, whose bytes these are.
fn area(alloc: Global, place: &AreaPlace, bytes: &[u8]) -> Result<Area, OutOfMemory>
    ensures { IfOk result (λ a. a ≡ record { name = place.now.name; ea = place.now.ea; bytes = bytes.now }) }
{
    Ok(Area {
        name: Seq::copied(alloc, place.name.as_slice())?,
        ea: place.ea,
        bytes: Seq::copied(alloc, bytes)?,
    })
}

/// The areas of places, whose bytes these are.
pub fn areas_of(
    alloc: Global,
    places: &[AreaPlace],
    files: &[Bytes],
) -> Result<Seq<Area>, OutOfMemory>
    requires { length files.now ≡ length places.now }
    ensures { IfOk result (λ areas. areas ≡ areas_of places.now files.now) }
{
    let mut areas = Seq::new(alloc);
    for k in 0..places.len() {
        areas.push(area(alloc, &places[k], files[k].as_slice())?)?;
    }
    Ok(areas)
}
