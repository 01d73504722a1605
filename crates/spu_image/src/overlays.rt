//! The executable of a program with overlays.

ghost use Rattle.std.specs.Prelude.{◌≡◌, false, ◌+◌, ◌-◌, ◌*◌, ◌^◌, ◌<◌, ◌≤◌, ◌∷◌, length, IfOk, OnOk};
ghost use Rattle.spu_word.specs.declared.limits.TheConstants.{DATA_START, QUAD_SIZE, STORE_SIZE};
ghost use Rattle.spu_plan.specs.declared.constants.TheConstants.{CONSTANTS_SIZE, LOADER_SIZE};
ghost use Rattle.spu_layout.specs.Placing.{region_size};
ghost use Rattle.spu_layout.specs.Views.{layout_in};
ghost use Rattle.spu_image.specs.Filling.{told_in};
ghost use Rattle.spu_image.specs.Overlays.{IsOverlaid, IsOverlayExec};
ghost use Rattle.spu_image.specs.OverlayFilling.{AddsTail, AreRegions, IsRootSegment, offset_of, region_segments};

use crate::overlay_parts::{put_constants, put_stubs, put_table, region_bytes};
use crate::parts::data_bytes;
use crate::segments::{put_words, section_words, start_words};
use crate::symbols::overlay_symbols;
use spu_elf::{Exec, Segment};
use spu_layout::Layout;
use spu_lift::Prog;
use spu_loader::loader_words;
use spu_plan::Plan;
use spu_plan::constants::{CONSTANTS_SIZE, LOADER_SIZE};
use spu_word::limits::{DATA_START, QUAD_SIZE, STACK_TOP};
use spu_word::{Bytes, OutOfMemory, Seq};
use std::alloc::Global;

/// Where the loader stands, and what it serves.
#[derive(Clone, Copy)]
struct Places {
    loader: u32,
    image: u32,
    table: u32,
    buffers: u32,
}

impl Places {
    /// Those of a program in an overlay layout.
    fn of(layout: &Layout) -> Places
        requires behind { LOADER_SIZE ≤ (layout_in layout.now).slots.from }
        requires inside { (layout_in layout.now).slots.to ≤ STORE_SIZE }
        ensures loader { result.loader + LOADER_SIZE ≡ (layout_in layout.now).slots.from }
        ensures image { result.image ≡ (layout_in layout.now).slots.to + QUAD_SIZE }
        ensures table { result.table ≡ (layout_in layout.now).slots.to + CONSTANTS_SIZE }
        ensures buffers { result.buffers ≡ (layout_in layout.now).buffers.from }
    {
        let slots = layout.slots();
        Places {
            loader: slots.from - LOADER_SIZE,
            image: slots.to + QUAD_SIZE,
            table: slots.to + CONSTANTS_SIZE,
            buffers: layout.areas().buffer.from,
        }
    }
}

/// Adds what stands behind the root: the stubs, the loader with the quadwords that it reads, and the table.
fn put_tail(
    out: &mut Bytes,
    p: &Prog,
    plan: &Plan,
    layout: &Layout,
    regions: &[Bytes],
) -> Result<(), OutOfMemory>
    requires overlaid { IsOverlaid p.now plan.now layout.now }
    requires regions { AreRegions p.now plan.now regions.now }
    ensures { OnOk result (AddsTail p.now plan.now (layout_in layout.now) (offset_of ((layout_in layout.now).code_area.to - DATA_START) regions.now) out.old out.new) }
{
    let at = Places::of(layout);
    let load_size = layout.areas().code.to - DATA_START;
    put_stubs(out, p, layout, at.loader)?;
    let words = loader_words(at.loader, at.buffers, plan.buffer, plan.buffers, at.table);
    put_words(out, &words)?;
    put_words(out, &[0, 0])?;
    put_constants(out, plan.buffers, layout.return_entry())?;
    put_table(out, p, plan, at.buffers, regions, load_size as usize)?;
    Ok(())
}

/// The bytes of the load segment, if the root and the regions have these.
fn load_segment(
    alloc: Global,
    p: &Prog,
    plan: &Plan,
    layout: &Layout,
    limit: u32,
    root: &[u8],
    regions: &[Bytes],
) -> Result<Bytes, OutOfMemory>
    requires overlaid { IsOverlaid p.now plan.now layout.now }
    requires root { length root.now ≡ region_size p.now plan.now 0 }
    requires regions { AreRegions p.now plan.now regions.now }
    ensures { IfOk result (λ bytes. IsRootSegment p.now plan.now (layout_in layout.now) limit root.now (offset_of (length bytes) regions.now) bytes) }
{
    let start = start_words(alloc, p, layout)?;
    let mut bytes = data_bytes(alloc, p, layout)?;
    put_words(&mut bytes, &[STACK_TOP, limit, 0, 0])?;
    put_words(&mut bytes, start.as_slice())?;
    put_words(&mut bytes, &[0])?;
    bytes.extend(root)?;
    put_tail(&mut bytes, p, plan, layout, regions)?;
    Ok(bytes)
}

/// The segments of a file: that of the root, which is loaded, and those of the regions, in buffers from an address on.
fn segments(
    alloc: Global,
    plan: &Plan,
    buffers: u32,
    root: Bytes,
    regions: Vec<Bytes>,
) -> Result<Seq<Segment>, OutOfMemory>
    requires end { buffers + plan.now.buffer * plan.now.buffers ≤ STORE_SIZE }
    requires some { 0 < plan.now.buffers }
    requires few { length regions.items < 2 ^ 14 }
    ensures { IfOk result (λ all. all ≡ record { address = DATA_START; overlay = false; bytes = root } ∷ region_segments buffers plan.now 0 regions.items) }
{
    let mut all = Seq::new(alloc);
    all.push(Segment {
        address: DATA_START,
        overlay: false,
        bytes: root,
    })?;
    for bytes in regions {
        let slot = (all.len() as u32 - 1) % plan.buffers;
        all.push(Segment {
            address: buffers + plan.buffer * slot,
            overlay: true,
            bytes,
        })?;
    }
    Ok(all)
}

/// The executable of a program with overlays by a plan, with a stack of this many bytes, and with stack symbols of the
/// functions whose needs are told.
pub fn overlay_exec(
    alloc: Global,
    p: &Prog,
    plan: &Plan,
    layout: &Layout,
    limit: u32,
    told: &[Option<u32>],
) -> Result<Exec, OutOfMemory>
    requires { IsOverlaid p.now plan.now layout.now }
    ensures { IfOk result (IsOverlayExec p.now plan.now (layout_in layout.now) limit (told_in told.now)) }
{
    let sections = section_words(alloc, p, layout)?;
    let mut regions = region_bytes(alloc, plan, &sections)?;
    let root = regions.remove(0);
    let load = load_segment(alloc, p, plan, layout, limit, root.as_slice(), &regions)?;
    Ok(Exec {
        entry: layout.address(0, 0),
        segments: segments(alloc, plan, layout.areas().buffer.from, load, regions)?,
        symbols: overlay_symbols(alloc, p, layout, told, Places::of(layout).image)?,
    })
}
