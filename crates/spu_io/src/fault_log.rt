//! The count of the calls that failed, and which one failed last.

ghost use Rattle.std.specs.Prelude.{◌≡◌, ◌≤◌, IfOk, string_bytes};
ghost use Rattle.spu_io.specs.Outside.{Rose, Nothing};

use spu_word::OutOfMemory;
use std::alloc::Global;

/// The last call that failed, with a copy of its name.
#[derive(Drop)]
pub enum LastFault {
    /// No call has failed.
    Nothing,
    /// A read of this name failed.
    Read(String),
    /// A write of this name failed.
    Write(String),
}

/// A copy of a name.
pub fn copy_of(alloc: Global, name: &str) -> Result<String, OutOfMemory>
    ensures { IfOk result (λ text. string_bytes text ≡ name.now) }
{
    Ok(String::from_str(alloc, name)?)
}

/// How many calls failed, and the last of them.
#[derive(Drop)]
pub struct FaultLog {
    count: u64,
    last: LastFault,
}

impl FaultLog {
    ghost use Rattle.spu_io.specs.FaultLog.{logged_count, logged_last, last_of};

    /// No call has failed.
    pub fn new() -> FaultLog
        ensures count { logged_count result ≡ 0 }
        ensures last { logged_last result ≡ Nothing }
    {
        FaultLog {
            count: 0,
            last: LastFault::Nothing,
        }
    }

    /// The last of them.
    pub fn last(&self) -> &LastFault
        ensures { last_of result.now ≡ logged_last self.now }
    {
        &self.last
    }

    /// Counts a call that failed. The count stays at its last value once it is there.
    pub fn record(&mut self, last: LastFault)
        ensures last { logged_last self.new ≡ last_of last }
        ensures rose { Rose (logged_count self.old) (logged_count self.new) }
        ensures count { logged_count self.old ≤ logged_count self.new }
    {
        self.count = self.count.saturating_add(1);
        self.last = last;
    }
}
