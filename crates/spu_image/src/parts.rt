//! The data of an image: its sections at their addresses, with the codes of labels in their words, and zeros elsewhere.

ghost use Rattle.std.specs.Prelude.{◌≡◌, ◌⊎◌, ◌+◌, ◌≤◌, ◌++◌, [], length, take, drop, IfOk};
ghost use Rattle.std.specs.List.{Contains};
ghost use Rattle.spu_word.specs.Bytes.{be_digits};
ghost use Rattle.spu_word.specs.declared.limits.TheConstants.{WORD_SIZE};
ghost use Rattle.spu_layout.specs.Views.{layout_in};
ghost use Rattle.spu_image.specs.Images.{data_bytes};
ghost use Rattle.spu_image.specs.Filling.{AreDataTo, IsLaidOut, labelled_bytes, own_bytes};

use spu_layout::Layout;
use spu_lift::{Part, Prog};
use spu_word::limits::DATA_START;
use spu_word::{Bytes, OutOfMemory, Seq};
use std::alloc::Global;

/// The bytes of a section of data, with zeros in the words of its labels.
fn own_bytes(alloc: Global, part: &Part) -> Result<Bytes, OutOfMemory>
    requires { (length part.now.bytes ≡ part.now.size) ⊎ (part.now.bytes ≡ []) }
    ensures { IfOk result (λ bytes. bytes ≡ own_bytes part.now) }
{
    if part.bytes.is_empty() {
        let mut zeros = Seq::new(alloc);
        zeros.extend_zeros(part.size as usize)?;
        Ok(zeros)
    } else {
        Seq::copied(alloc, part.bytes.as_slice())
    }
}

/// Writes a word over the bytes from an offset on.
fn write_word(bytes: &mut Bytes, at: usize, word: u32)
    requires { at + WORD_SIZE ≤ length bytes.old }
    ensures { bytes.new ≡ take at bytes.old ++ (be_digits word ++ drop (at + WORD_SIZE) bytes.old) }
{
    bytes.overwrite(at, &word.to_be_bytes());
}

/// The bytes of a section of data.
fn part_bytes(alloc: Global, p: &Prog, layout: &Layout, part: &Part) -> Result<Bytes, OutOfMemory>
    requires laid { IsLaidOut p.now layout.now }
    requires there { Contains p.now.parts part.now }
    ensures { IfOk result (λ bytes. bytes ≡ labelled_bytes (layout_in layout.now) part.now part.now.labels) }
{
    let mut bytes = own_bytes(alloc, part)?;
    let labels = part.labels.as_slice();
    for i in (0..labels.len()).rev() {
        write_word(
            &mut bytes,
            labels[i].offset as usize,
            layout.code(labels[i].label),
        );
    }
    Ok(bytes)
}

/// The data of a program, from where it starts to where it ends.
pub fn data_bytes(alloc: Global, p: &Prog, layout: &Layout) -> Result<Bytes, OutOfMemory>
    requires { IsLaidOut p.now layout.now }
    ensures { IfOk result (λ bytes. bytes ≡ data_bytes p.now (layout_in layout.now)) }
{
    let mut bytes = Seq::new(alloc);
    for part in p.parts.as_slice() {
        let gap = (part.address as usize - DATA_START as usize) - bytes.len();
        bytes.extend_zeros(gap)?;
        bytes.extend(part_bytes(alloc, p, layout, part)?.as_slice())?;
    }
    let gap = (p.data_end as usize - DATA_START as usize) - bytes.len();
    bytes.extend_zeros(gap)?;
    Ok(bytes)
}
