//! What a program leaves to the code that loads regions.

/// The first register that the loader may change at a call, a return or a jump to another function.
pub const FIRST_LOADER_REGISTER: u32 = 75;

/// The last of these registers.
pub const LAST_LOADER_REGISTER: u32 = 79;

/// The tag of the loader's transfers.
pub const LOADER_TAG: u32 = 31;

/// The most transfers of a program that wait.
pub const MAX_WAITING: u32 = 12;
