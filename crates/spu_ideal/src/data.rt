//! The store of a run that begins: the sections of data with labels in their words, the quadwords of named areas, and zeros.

ghost use Rattle.std.specs.Prelude.{◌≡◌, ◌+◌, ◌/◌, ◌<◌, ◌≤◌, ◌==◌, ◌∷◌, ℕ, [], if◌then◌else◌, length, map, slice_index, IfOk};
ghost use Rattle.std.specs.List.{Contains};
ghost use Rattle.spu_word.specs.declared.limits.TheConstants.{QUAD_SIZE, STORE_SIZE, WORD_SIZE};
ghost use Rattle.spu_lift.specs.declared.program.Ear.{Ear};
ghost use Rattle.spu_lift.specs.declared.program.Part as section;
ghost use Rattle.spu_lift.specs.declared.program.WordLabel.{WordLabel};
ghost use Rattle.spu_lift.specs.declared.symbolic.SymByte.TheVariants as symbol;
ghost use Rattle.spu_ideal.specs.Filling.{filled, section_bytes};
ghost use Rattle.spu_ideal.specs.Machine.{data_byte, entry_of, with_entries};
ghost use Rattle.spu_ideal.specs.View.{store_of};

use crate::landing::{place, put_byte};
use crate::quads::SymQuad;
use spu_exec::quad_for;
use spu_lift::{Ear, Label, Part, SymByte};
use spu_word::limits::{QUAD_SIZE, STORE_SIZE, WORD_SIZE};
use spu_word::{Area, OutOfMemory, Quad};
use std::alloc::Global;

/// A store of zeros.
fn zeros(alloc: Global) -> Result<Vec<SymQuad>, OutOfMemory>
    ensures value { IfOk result (λ store. store_of store.items ≡ λ k. symbol.Num 0) }
    ensures len { IfOk result (λ store. length store.items ≡ STORE_SIZE / QUAD_SIZE) }
{
    let store = vec![in alloc; SymQuad::Numbers(Quad([0; 16])); (STORE_SIZE / QUAD_SIZE) as usize]?;
    Ok(store)
}

/// The byte at an address becomes another.
fn put(store: &mut [SymQuad], at: u32, s: SymByte)
    requires full { length store.old ≡ STORE_SIZE / QUAD_SIZE }
    requires inside { at < STORE_SIZE }
    ensures value { store_of store.new ≡ λ k. if k == at then s else store_of store.old k }
    ensures len { length store.new ≡ length store.old }
{
    let mut bytes = store[(at / QUAD_SIZE) as usize].bytes();
    bytes[(at % QUAD_SIZE) as usize] = s;
    store[(at / QUAD_SIZE) as usize] = SymQuad::of(bytes);
}

/// The parts of a label become the bytes of a word.
fn put_label(store: &mut [SymQuad], at: u32, label: Label)
    requires full { length store.old ≡ STORE_SIZE / QUAD_SIZE }
    requires inside { at + WORD_SIZE ≤ STORE_SIZE }
    ensures value { store_of store.new ≡ filled at WORD_SIZE (symbol.Part label) (store_of store.old) }
    ensures len { length store.new ≡ length store.old }
{
    for k in 0..WORD_SIZE {
        put(store, at + k, SymByte::Part(label, k as u8));
    }
}

/// Byte j of a section of data.
fn number_in(part: &Part, j: u32) -> u8
    ensures { result ≡ slice_index part.now.bytes j }
{
    match part.bytes.get(j as usize) {
        Some(v) => *v,
        None => 0,
    }
}

/// Places the numbers of a section of data.
fn put_numbers(store: &mut [SymQuad], part: &Part)
    requires full { length store.old ≡ STORE_SIZE / QUAD_SIZE }
    requires inside { part.now.address + part.now.size ≤ STORE_SIZE }
    ensures value { store_of store.new ≡ filled part.now.address part.now.size (section_bytes part.now []) (store_of store.old) }
    ensures len { length store.new ≡ length store.old }
{
    let at = part.address as u32;
    for j in 0..part.size {
        put_byte(store, at + j, number_in(part, j));
    }
}

/// Places a section of data. Where two labels share a byte, it is that of the first.
fn put_section(store: &mut [SymQuad], part: &Part)
    requires full { length store.old ≡ STORE_SIZE / QUAD_SIZE }
    requires inside { part.now.address + part.now.size ≤ STORE_SIZE }
    requires labels { (l : WordLabel) → Contains part.now.labels l → l.offset + WORD_SIZE ≤ part.now.size }
    ensures value { store_of store.new ≡ filled part.now.address part.now.size (section_bytes part.now part.now.labels) (store_of store.old) }
    ensures len { length store.new ≡ length store.old }
{
    put_numbers(store, part);
    let at = part.address as u32;
    let labels = part.labels.as_slice();
    for k in (0..labels.len()).rev() {
        put_label(store, at + labels[k].offset, labels[k].label);
    }
}

/// Places sections of data in a store of zeros.
fn put_sections(store: &mut [SymQuad], parts: &[Part])
    requires full { length store.old ≡ STORE_SIZE / QUAD_SIZE }
    requires zero { store_of store.old ≡ λ k. symbol.Num 0 }
    requires inside { (part : section.Part) → Contains parts.now part → part.address + part.size ≤ STORE_SIZE }
    requires labels { (part : section.Part) → Contains parts.now part → (l : WordLabel) → Contains part.labels l → l.offset + WORD_SIZE ≤ part.size }
    ensures value { store_of store.new ≡ data_byte parts.now }
    ensures len { length store.new ≡ length store.old }
{
    for k in (0..parts.len()).rev() {
        put_section(store, &parts[k]);
    }
}

/// Fills in the quadword of a named area, if there is such an area.
fn enter(store: &mut [SymQuad], areas: &[Area], ear: &Ear)
    requires full { length store.old ≡ STORE_SIZE / QUAD_SIZE }
    requires inside { ear.now.address + QUAD_SIZE ≤ STORE_SIZE }
    ensures value { store_of store.new ≡ with_entries (entry_of ear.now ∷ []) areas.now (store_of store.old) }
    ensures len { length store.new ≡ length store.old }
{
    if let Some(quad) = quad_for(areas, ear.name.as_slice()) {
        place(store, ear.address as u32, &quad.0);
    }
}

/// Fills in the quadwords of all named areas.
fn enter_all(store: &mut [SymQuad], areas: &[Area], ears: &[Ear])
    requires full { length store.old ≡ STORE_SIZE / QUAD_SIZE }
    requires inside { (e : Ear) → Contains ears.now e → e.address + QUAD_SIZE ≤ STORE_SIZE }
    ensures value { store_of store.new ≡ with_entries (map entry_of ears.now) areas.now (store_of store.old) }
    ensures len { length store.new ≡ length store.old }
{
    for k in 0..ears.len() {
        enter(store, areas, &ears[k]);
    }
}

/// The store that holds these sections of data, and zeros elsewhere.
fn data_store(alloc: Global, parts: &[Part]) -> Result<Vec<SymQuad>, OutOfMemory>
    requires inside { (part : section.Part) → Contains parts.now part → part.address + part.size ≤ STORE_SIZE }
    requires labels { (part : section.Part) → Contains parts.now part → (l : WordLabel) → Contains part.labels l → l.offset + WORD_SIZE ≤ part.size }
    ensures value { IfOk result (λ store. store_of store.items ≡ data_byte parts.now) }
    ensures len { IfOk result (λ store. length store.items ≡ STORE_SIZE / QUAD_SIZE) }
{
    let mut store = zeros(alloc)?;
    put_sections(&mut store, parts);
    Ok(store)
}

/// The store of a run that begins with these sections of data, areas and quadwords of areas.
pub fn starting_store(
    alloc: Global,
    parts: &[Part],
    areas: &[Area],
    ears: &[Ear],
) -> Result<Vec<SymQuad>, OutOfMemory>
    requires parts { (part : section.Part) → Contains parts.now part → part.address + part.size ≤ STORE_SIZE }
    requires labels { (part : section.Part) → Contains parts.now part → (l : WordLabel) → Contains part.labels l → l.offset + WORD_SIZE ≤ part.size }
    requires ears { (e : Ear) → Contains ears.now e → e.address + QUAD_SIZE ≤ STORE_SIZE }
    ensures value { IfOk result (λ store. store_of store.items ≡ with_entries (map entry_of ears.now) areas.now (data_byte parts.now)) }
    ensures len { IfOk result (λ store. length store.items ≡ STORE_SIZE / QUAD_SIZE) }
{
    let mut store = data_store(alloc, parts)?;
    enter_all(&mut store, areas, ears);
    Ok(store)
}
