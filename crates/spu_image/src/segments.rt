//! The load segment of a flat image: data, start quadword, start code, and the sections of code.

ghost use Rattle.std.specs.Prelude.{◌≡◌, ◌≢◌, ◌+◌, ◌/◌, ◌<◌, ◌≤◌, ◌++◌, ℕ, suc, List, [], ◌∷◌, All, length, map, Some, IfOk, OnOk, slice_get, slice_set};
ghost use Rattle.std.specs.List.{flat_map};
ghost use Rattle.spu_word.specs.declared.limits.TheConstants.{MAX_SECTION_SIZE};
ghost use Rattle.spu_lift.specs.declared.program.CodeSection.{CodeSection};
ghost use Rattle.spu_lift.specs.Places.{instruction_at};
ghost use Rattle.spu_layout.specs.Views.{layout_in};
ghost use Rattle.spu_image.specs.Words.{IsWord};
ghost use Rattle.spu_image.specs.Images.{AreWords, IsLoadSegment, bytes_of_words};
ghost use Rattle.spu_lift.specs.StartCode.{start_instructions};
ghost use Rattle.spu_image.specs.Filling.{AreFilled, IsLaidOut, empty_sections, empty_words, words_in};

use crate::parts::data_bytes;
use crate::words::{function_words, place_word};
use spu_layout::Layout;
use spu_lift::{CodeSection, Function, Prog};
use spu_word::limits::{QUAD_SIZE, STACK_TOP, WORD_SIZE};
use spu_word::{Bytes, OutOfMemory, Seq};
use std::alloc::Global;

/// The words of a section, all zero.
fn empty_words(alloc: Global, section: &CodeSection) -> Result<Seq<u32>, OutOfMemory>
    requires { section.now.size ≤ MAX_SECTION_SIZE }
    ensures { IfOk result (λ words. words ≡ empty_words section.now) }
{
    let mut words = Seq::new(alloc);
    for _ in 0..(section.size + (QUAD_SIZE - 1)) / QUAD_SIZE * (QUAD_SIZE / WORD_SIZE) {
        words.push(0)?;
    }
    Ok(words)
}

/// The words of sections, all zero.
fn empty_sections(alloc: Global, sections: &[CodeSection]) -> Result<Vec<Seq<u32>>, OutOfMemory>
    requires { All (λ (c : CodeSection). c.size ≤ MAX_SECTION_SIZE) sections.now }
    ensures { IfOk result (λ all. all.items ≡ empty_sections sections.now) }
{
    let mut all = Vec::new(alloc);
    for section in sections {
        all.push(empty_words(alloc, section)?)?;
    }
    Ok(all)
}

/// Puts a word into a section.
fn put_word(sections: &mut [Seq<u32>], k: usize, j: usize, word: u32)
    requires known { k < length sections.old }
    requires inside { j < length (words_in sections.old k) }
    ensures { sections.new ≡ slice_set sections.old k (slice_set (words_in sections.old k) j word) }
{
    let words = &mut sections[k];
    words.set(j, word);
}

/// Puts the words of function f, which isn't the start code, into its section.
fn fill_function(p: &Prog, layout: &Layout, sections: &mut [Seq<u32>], f: u32, g: &Function)
    requires laid { IsLaidOut p.now layout.now }
    requires there { slice_get p.now.functions f ≡ Some g.now }
    requires other { f ≢ 0 }
    requires filled { AreFilled p.now (layout_in layout.now) f 0 sections.old }
    ensures { AreFilled p.now (layout_in layout.now) (f + 1) 0 sections.new }
{
    for (i, x) in g.code.as_slice().iter().enumerate() {
        let word = place_word(p, layout, f, i as u32, x);
        put_word(
            sections,
            g.section as usize,
            (g.offset / WORD_SIZE) as usize + i,
            word,
        );
    }
}

/// The words of all sections.
pub fn section_words(alloc: Global, p: &Prog, layout: &Layout) -> Result<Vec<Seq<u32>>, OutOfMemory>
    requires { IsLaidOut p.now layout.now }
    ensures { IfOk result (λ all. AreFilled p.now (layout_in layout.now) (length p.now.functions) 0 all.items) }
{
    let mut sections = empty_sections(alloc, p.code.as_slice())?;
    for (f, g) in p.functions.as_slice().iter().enumerate() {
        if f != 0 {
            fill_function(p, layout, &mut sections, f as u32, g);
        }
    }
    Ok(sections)
}

/// Adds words to bytes.
pub fn put_words(out: &mut Bytes, words: &[u32]) -> Result<(), OutOfMemory>
    ensures { OnOk result (out.new ≡ out.old ++ bytes_of_words words.now) }
{
    for word in words {
        out.extend(&word.to_be_bytes())?;
    }
    Ok(())
}

/// Adds the words of sections to bytes.
fn put_sections(out: &mut Bytes, sections: &[Seq<u32>]) -> Result<(), OutOfMemory>
    ensures { OnOk result (out.new ≡ out.old ++ flat_map bytes_of_words sections.now) }
{
    for words in sections {
        put_words(out, words.as_slice())?;
    }
    Ok(())
}

/// The words of the start code.
pub fn start_words(alloc: Global, p: &Prog, layout: &Layout) -> Result<Seq<u32>, OutOfMemory>
    requires { IsLaidOut p.now layout.now }
    ensures { IfOk result (AreWords (layout_in layout.now) 0 0 (start_instructions p.now.data_end p.now.entry)) }
{
    match p.functions.get(0) {
        Some(start) => function_words(alloc, p, layout, 0, start.code.as_slice()),
        None => unreachable!(),
    }
}

/// The bytes of the load segment of a program.
pub fn load_segment(
    alloc: Global,
    p: &Prog,
    layout: &Layout,
    limit: u32,
) -> Result<Bytes, OutOfMemory>
    requires { IsLaidOut p.now layout.now }
    ensures { IfOk result (IsLoadSegment p.now (layout_in layout.now) limit) }
{
    let start = start_words(alloc, p, layout)?;
    let sections = section_words(alloc, p, layout)?;
    let mut bytes = data_bytes(alloc, p, layout)?;
    put_words(&mut bytes, &[STACK_TOP, limit, 0, 0])?;
    put_words(&mut bytes, start.as_slice())?;
    put_words(&mut bytes, &[0])?;
    put_sections(&mut bytes, &sections)?;
    Ok(bytes)
}
