//! Files and a sink, of which a program knows only what these clauses say.

ghost use Rattle.std.specs.Prelude.{◌≡◌, ℕ, ◌≤◌, List, Option, IfOk, OnOk, OnErr};
ghost use Rattle.spu_io.specs.Outside.{Names, Last, Read, Write, ReadOf, Written, Counted, PutCounted, Gained, GainedPrefix};

use crate::faults::{FileFault, SinkFault};
use spu_word::Bytes;
use std::alloc::Global;

/// Files by name.
pub trait Files {
    /// What each name holds, where that is told.
    ghost held: { Self → Option Names };

    /// How many calls have failed. It stays at the last value of 64 bits once it is there.
    ghost faults: { Self → ℕ };

    /// The last call that failed.
    ghost last: { Self → Last };

    /// Reads a file: all of it, or the first `MAX_FILE_SIZE` and one bytes of a longer one. Of a name that holds
    /// nothing, what an answer gives is not told.
    fn read(&mut self, alloc: Global, name: &str) -> Result<Bytes, FileFault>
        ensures bytes { IfOk result (λ bytes. ReadOf (held self.old) name.now bytes) }
        ensures held { held self.new ≡ held self.old }
        ensures count { faults self.old ≤ faults self.new }
        ensures counted { Counted result (Read name.now) (faults self.old) (faults self.new) (last self.old) (last self.new) };

    /// Makes a name hold exactly these bytes. Where that failed nothing is known of the name, and
    /// where memory ran out nothing changed.
    fn write(&mut self, name: &str, bytes: &[u8]) -> Result<(), FileFault>
        ensures written { Written result (held self.old) (held self.new) name.now bytes.now }
        ensures count { faults self.old ≤ faults self.new }
        ensures counted { Counted result (Write name.now) (faults self.old) (faults self.new) (last self.old) (last self.new) };
}

/// Where texts are put.
pub trait Sink {
    /// What was put, where that is told.
    ghost written: { Self → Option (List ℕ) };

    /// How many puts have failed. It stays at the last value of 64 bits once it is there.
    ghost faults: { Self → ℕ };

    /// Puts a piece at the end. Where that is not done a prefix of the piece may have been put.
    fn put(&mut self, bytes: &[u8]) -> Result<(), SinkFault>
        ensures gained { OnOk result (Gained (written self.old) (written self.new) bytes.now) }
        ensures prefix { OnErr result (GainedPrefix (written self.old) (written self.new) bytes.now) }
        ensures count { faults self.old ≤ faults self.new }
        ensures counted { PutCounted result (faults self.old) (faults self.new) };
}
