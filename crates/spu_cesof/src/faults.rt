//! Why an executable isn't embedded, or an object not unpacked.

ghost use Rattle.std.specs.Prelude.{◌≡◌};
ghost use Rattle.spu_cesof.specs.FaultNames.{number_of, name_of};

use spu_word::OutOfMemory;

/// What is wrong. Places are offsets in the object.
#[derive(Clone, Copy, PartialEq, Eq, Debug)]
pub enum CesofFault {
    /// The object isn't one that embeds an executable: the place of the first field that isn't as it
    /// must be, in the executable too.
    NotCesof(u64),
    /// The handle or its relocations aren't: the place of the first byte.
    BadHandle(u64),
    /// The table of effective addresses, its relocations or its names aren't those of the
    /// executable: the place of the first byte, or that of the table's size.
    BadToe(u64),
    /// The object would have this many bytes.
    TooLarge(u64),
    /// Memory ran out.
    OutOfMemory,
}

impl CesofFault {
    /// The fault's number, 1 to 4; 0 where memory ran out.
    pub fn number(&self) -> u8
        ensures { result ≡ number_of self.now }
    {
        match self {
            CesofFault::NotCesof(_) => 1,
            CesofFault::BadHandle(_) => 2,
            CesofFault::BadToe(_) => 3,
            CesofFault::TooLarge(_) => 4,
            CesofFault::OutOfMemory => 0,
        }
    }

    /// The fault's name, as `NotCesof`.
    pub fn name(&self) -> &'static str
        ensures { result.now ≡ name_of self.now }
    {
        match self {
            CesofFault::NotCesof(_) => "NotCesof",
            CesofFault::BadHandle(_) => "BadHandle",
            CesofFault::BadToe(_) => "BadToe",
            CesofFault::TooLarge(_) => "TooLarge",
            CesofFault::OutOfMemory => "OutOfMemory",
        }
    }
}

impl From<OutOfMemory> for CesofFault {
    ghost use Rattle.spu_cesof.specs.declared.faults.CesofFault.TheVariants as faults;

    ghost from_gives = { λ _ e. e ≡ faults.OutOfMemory };

    fn from(_e: OutOfMemory) -> CesofFault {
        CesofFault::OutOfMemory
    }
}
