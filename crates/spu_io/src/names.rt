//! Names and what they hold, in memory.

ghost use Rattle.std.specs.Prelude.{◌≡◌, ◌+◌, OnOk, OnErr, List, None, string_bytes, take};
ghost use Rattle.spu_word.specs.declared.limits.TheConstants.{MAX_FILE_SIZE};
ghost use Rattle.spu_io.specs.Outside.{Replaced};

use spu_word::limits::MAX_FILE_SIZE;
use spu_word::{Bytes, OutOfMemory};
use std::alloc::Global;
use std::collections::BTreeMap;

/// The most bytes that a read gives: one more than a file may have.
pub const READ_LIMIT: usize = MAX_FILE_SIZE as usize + 1;

/// The bytes that a read gives of what is held: all, or the first of them.
#[tactic(auto, using(std::proofs::lemmas::List::take_min))]
pub fn first_bytes(held: &[u8]) -> &[u8]
    ensures { result.now ≡ take (MAX_FILE_SIZE + 1) held.now }
{
    &held[..READ_LIMIT.min(held.len())]
}

/// Names and what they hold.
#[derive(Drop)]
pub struct NameTable {
    files: BTreeMap<String, Bytes>,
    alloc: Global,
}

impl NameTable {
    ghost use Rattle.std.specs.Prelude.{ℕ};
    ghost use Rattle.spu_io.specs.NameTable.{names_of, pointed_to};

    /// A table that holds no name.
    pub fn new(alloc: Global) -> NameTable
        ensures { (name : List ℕ) → names_of result name ≡ None }
    {
        NameTable {
            files: BTreeMap::new(alloc),
            alloc,
        }
    }

    /// The allocator that the table takes its memory from.
    pub fn alloc(&self) -> Global {
        self.alloc
    }

    /// What a name holds.
    pub fn get(&self, name: &str) -> Option<&[u8]>
        ensures { pointed_to result ≡ names_of self.now name.now }
    {
        match self.files.get(name) {
            Some(bytes) => Some(bytes.as_slice()),
            None => None,
        }
    }

    /// Makes a name hold some bytes. All memory is taken before anything changes.
    #[tactic(auto, using(std::proofs::lemmas::Map::Text::text_keys))]
    pub fn replace(&mut self, name: String, bytes: &[u8]) -> Result<(), OutOfMemory>
        ensures ok { OnOk result (Replaced (names_of self.old) (names_of self.new) (string_bytes name) bytes.now) }
        ensures err { OnErr result (names_of self.new ≡ names_of self.old) }
    {
        let bytes = Bytes::copied(self.alloc, bytes)?;
        match self.files.insert(name, bytes) {
            Ok(_) => Ok(()),
            Err(_) => Err(OutOfMemory),
        }
    }
}
