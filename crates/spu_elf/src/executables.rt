//! Executables, as a linker makes them.

ghost use Rattle.std.specs.Prelude.{IsTrue, ◌↔◌};
ghost use Rattle.spu_word.specs.declared.limits.TheConstants.{MAX_FILE_SIZE};
ghost use Rattle.spu_elf.specs.declared.constants.TheConstants.{MAX_SEGMENTS};

use crate::constants::MAX_SEGMENTS;
use crate::objects::Symbol;
use crate::validity::{are_exec_symbols, are_locals_first, are_overlays, are_valid_segments};
use crate::writing::lengths::exec_len;
use spu_word::limits::{MAX_FILE_SIZE, MAX_SYMBOLS};
use spu_word::{Bytes, Seq};

/// A segment of an executable: what is loaded in one piece.
#[derive(Drop)]
pub struct Segment {
    /// Where it lies in the local store.
    pub address: u32,
    /// Whether it is loaded on demand.
    pub overlay: bool,
    /// What is loaded.
    pub bytes: Bytes,
}

/// An executable.
#[derive(Drop)]
pub struct Exec {
    /// The address of the first instruction.
    pub entry: u32,
    /// The segments: the root first, and then the overlays.
    pub segments: Seq<Segment>,
    /// The symbols, in order.
    pub symbols: Seq<Symbol>,
}

impl Exec {
    ghost use Rattle.std.specs.Prelude.{◌≡◌, ◌≤◌, length, None};
    ghost use Rattle.spu_elf.specs.Executables.{exec_fault, exec_in};
    ghost use Rattle.spu_elf.specs.Spelling.{spell_exec};
    ghost use Rattle.spu_elf.specs.declared.executables.Exec.{Exec};
    ghost use Rattle.spu_elf.specs.Validity.{IsValidExec};

    /// Whether the executable's file has at most 16,384 segments and 4,194,304 bytes.
    #[tactic(auto, using(crate::proofs::ExtentLemmas::few_exec_symbols))]
    fn fits(&self) -> bool
        ensures { IsTrue result ↔ ((length self.now.segments ≤ MAX_SEGMENTS) × (length (spell_exec self.now) ≤ MAX_FILE_SIZE)) }
    {
        self.segments.len() <= MAX_SEGMENTS
            && self.symbols.len() <= MAX_SYMBOLS as usize
            && exec_len(self) <= MAX_FILE_SIZE as u128
    }

    /// Whether the executable has a file.
    fn has_file(&self) -> bool
        ensures { IsTrue result ↔ IsValidExec self.now }
    {
        let _entry = self.entry;
        are_overlays(self.segments.as_slice())
            && are_valid_segments(self.segments.as_slice())
            && are_exec_symbols(self.segments.len(), self.symbols.as_slice())
            && are_locals_first(&self.symbols)
            && self.fits()
    }

    /// Whether the executable has a file: there is a segment 0, it is no overlay, and all others
    /// are; each segment has bytes, a multiple of 16 of them; names have 1 to 1,023 bytes from 33 to
    /// 126; local symbols come first; symbols are Absolute or inside a segment, and no Section; and
    /// the file has at most 16,384 segments and 4,194,304 bytes.
    ///
    /// The file of a valid executable has no fault and is read as it, and no other has that file.
    pub fn valid(&self) -> bool
        ensures exact { IsTrue result ↔ IsValidExec self.now }
        ensures passes { IsValidExec self.now → exec_fault (spell_exec self.now) ≡ None }
        ensures read_again { IsValidExec self.now → exec_in (spell_exec self.now) ≡ self.now }
        ensures once { (x : Exec) → IsValidExec self.now → IsValidExec x → spell_exec self.now ≡ spell_exec x → self.now ≡ x }
    {
        self.has_file()
    }
}
