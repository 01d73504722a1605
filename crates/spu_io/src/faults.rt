//! Why a call to the outside gave nothing.

ghost use Rattle.std.specs.Prelude.{◌≡◌};
ghost use Rattle.spu_io.specs.declared.faults.FileFault.TheVariants as file;
ghost use Rattle.spu_io.specs.declared.faults.SinkFault.TheVariants as sink;

use spu_word::OutOfMemory;
use thiserror::Error;

/// Why a file was not read or written.
#[derive(Clone, Copy, PartialEq, Eq, Debug, Error)]
pub enum FileFault {
    /// The file could not be read or written. The count of faults rose.
    #[error("the file could not be read or written")]
    Failed,
    /// Memory ran out.
    #[error("memory ran out")]
    OutOfMemory,
}

impl From<OutOfMemory> for FileFault {
    ghost from_gives = { λ _ e. e ≡ file.OutOfMemory };

    fn from(_e: OutOfMemory) -> FileFault {
        FileFault::OutOfMemory
    }
}

/// Why a piece was not put.
#[derive(Clone, Copy, PartialEq, Eq, Debug, Error)]
pub enum SinkFault {
    /// The piece could not be put. The count of faults rose.
    #[error("the text could not be put")]
    Failed,
    /// Memory ran out.
    #[error("memory ran out")]
    OutOfMemory,
}

impl From<OutOfMemory> for SinkFault {
    ghost from_gives = { λ _ e. e ≡ sink.OutOfMemory };

    fn from(_e: OutOfMemory) -> SinkFault {
        SinkFault::OutOfMemory
    }
}
