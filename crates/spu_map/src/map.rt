//! Where the segments and the symbols of an executable lie, as text.

ghost use Rattle.std.specs.Prelude.{◌≡◌, ◌≤◌, length, string_bytes, IfOk};
ghost use Rattle.std.specs.List.{All, flat_map};
ghost use Rattle.spu_elf.specs.Rows.{front_size};
ghost use Rattle.spu_elf.specs.Validity.{IsValidExec};
ghost use Rattle.spu_elf.specs.declared.constants.TheConstants.{MAX_SEGMENTS};
ghost use Rattle.spu_ls.specs.Entries.{image_place};
ghost use Rattle.spu_map.specs.Maps.{form_name, image_line, segment_line, segment_lines, absolute_line, function_line, object_line, symbol_line, map_text};
ghost use Rattle.spu_word.specs.declared.limits.TheConstants.{MAX_FILE_SIZE};

use crate::texts::named_line;
use spu_elf::constants::{EHDR_SIZE, PHDR_SIZE, SEGMENT_ALIGN};
use spu_elf::spelling::gap;
use spu_elf::{Exec, Segment, SymKind, SymPlace, Symbol};
use spu_ls::image_place;
use spu_word::{Bytes, OutOfMemory, Seq};
use std::alloc::Global;

/// What kind of image has these symbols.
fn form_name(symbols: &[Symbol]) -> &'static str
    ensures { result.now ≡ form_name (image_place symbols.now) }
{
    match image_place(symbols) {
        Some(_) => "overlay",
        None => "flat",
    }
}

/// The kind of an image, and where it starts.
fn image_line(alloc: Global, x: &Exec) -> Result<String, OutOfMemory>
    ensures { IfOk result (λ t. string_bytes t ≡ image_line x.now) }
{
    let form = form_name(x.symbols.as_slice());
    let entry = x.entry;
    Ok(format!(in alloc; "image {form} entry {entry}\n")?)
}

/// The line of segment k, which begins at this offset of the file.
fn segment_line(alloc: Global, k: usize, s: &Segment, offset: usize) -> Result<String, OutOfMemory>
    ensures { IfOk result (λ t. string_bytes t ≡ segment_line k s.now offset) }
{
    let address = s.address;
    let size = s.bytes.len();
    if k == 0 {
        Ok(format!(in alloc; "load {address} {size}\n")?)
    } else {
        Ok(format!(in alloc; "region {k} {address} {size} {offset}\n")?)
    }
}

/// A line for each segment.
#[tactic(auto, using(crate::proofs::Maps::lines_from, crate::proofs::Maps::lines_done))]
fn segment_lines(alloc: Global, segments: &[Segment]) -> Result<Bytes, OutOfMemory>
    requires few { length segments.now ≤ MAX_SEGMENTS }
    requires small { All (λ (s : Segment). length s.bytes ≤ MAX_FILE_SIZE) segments.now }
    ensures { IfOk result (λ t. t ≡ segment_lines 0 (front_size (length segments.now)) segments.now) }
{
    let mut text = Seq::new(alloc);
    let mut end = EHDR_SIZE + PHDR_SIZE * segments.len();
    for (k, s) in segments.iter().enumerate() {
        let offset = end + gap(SEGMENT_ALIGN, end);
        text.extend(segment_line(alloc, k, s, offset)?.as_bytes())?;
        end = offset + s.bytes.len();
    }
    Ok(text)
}

/// The line of an absolute symbol.
fn absolute_line(alloc: Global, value: u32, name: &[u8]) -> Result<Bytes, OutOfMemory>
    ensures { IfOk result (λ t. t ≡ absolute_line value name.now) }
{
    let front = format!(in alloc; "abs {value} ")?;
    Ok(named_line(alloc, front.as_str(), name)?)
}

/// The line of a function in the segment of this number.
fn function_line(
    alloc: Global,
    address: u32,
    size: u32,
    region: u32,
    name: &[u8],
) -> Result<Bytes, OutOfMemory>
    ensures { IfOk result (λ t. t ≡ function_line address size region name.now) }
{
    let front = format!(in alloc; "func {address} {size} {region} ")?;
    Ok(named_line(alloc, front.as_str(), name)?)
}

/// The line of any other symbol.
fn object_line(alloc: Global, address: u32, size: u32, name: &[u8]) -> Result<Bytes, OutOfMemory>
    ensures { IfOk result (λ t. t ≡ object_line address size name.now) }
{
    let front = format!(in alloc; "object {address} {size} ")?;
    Ok(named_line(alloc, front.as_str(), name)?)
}

/// The line of a symbol.
fn symbol_line(alloc: Global, s: &Symbol) -> Result<Bytes, OutOfMemory>
    ensures { IfOk result (λ t. t ≡ symbol_line s.now) }
{
    let name = s.name.as_slice();
    match (s.place, s.kind) {
        (SymPlace::Absolute, _) => absolute_line(alloc, s.value, name),
        (SymPlace::Inside(region), SymKind::Function) => {
            function_line(alloc, s.value, s.size, region, name)
        }
        (SymPlace::Inside(_), SymKind::Plain | SymKind::Object | SymKind::Section) => {
            object_line(alloc, s.value, s.size, name)
        }
        (SymPlace::Undefined, _) => object_line(alloc, s.value, s.size, name),
    }
}

/// A line for each symbol.
fn symbol_lines(alloc: Global, symbols: &[Symbol]) -> Result<Bytes, OutOfMemory>
    ensures { IfOk result (λ t. t ≡ flat_map symbol_line symbols.now) }
{
    let mut text = Seq::new(alloc);
    for s in symbols {
        text.extend(symbol_line(alloc, s)?.as_slice())?;
    }
    Ok(text)
}

/// Where an executable starts, and where its segments and its symbols lie: `image flat entry ENTRY`, or `image overlay
/// entry ENTRY` where there is a global object `__image_ea`; `load ADDRESS SIZE`; for each region `region NUMBER ADDRESS
/// SIZE OFFSET`, with the offset of its bytes in the file; and for each symbol, in order, `abs VALUE NAME`, `func ADDRESS
/// SIZE REGION NAME` for a function in a segment (region 0 is the root), or `object ADDRESS SIZE NAME`. Addresses and
/// sizes are in bytes.
#[tactic(auto, using(spu_elf::proofs::ImageFiles::small_segments))]
pub fn map_text(alloc: Global, x: &Exec) -> Result<Bytes, OutOfMemory>
    requires { IsValidExec x.now }
    ensures { IfOk result (λ t. t ≡ map_text x.now) }
{
    let mut text = Seq::copied(alloc, image_line(alloc, x)?.as_bytes())?;
    text.extend(segment_lines(alloc, x.segments.as_slice())?.as_slice())?;
    text.extend(symbol_lines(alloc, x.symbols.as_slice())?.as_slice())?;
    Ok(text)
}
