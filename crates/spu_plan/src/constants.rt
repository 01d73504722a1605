//! The sizes of what an overlay image has behind its root, of its buffers, and the limits of a plan.

use spu_word::limits::{MAX_OBJECTS, MAX_SECTIONS};

/// The bytes of a stub, through which a call comes to a function of another region.
pub const STUB_SIZE: u32 = 16;

/// The bytes of the loader's words.
pub const LOADER_CODE_SIZE: u32 = 264;

/// The bytes of the loader's words and of the two zero words behind them.
pub const LOADER_SIZE: u32 = 272;

/// Where in the loader a return to a region enters it.
pub const RETURN_OFFSET: u32 = 252;

/// The bytes of the three quadwords that the loader reads.
pub const CONSTANTS_SIZE: u32 = 48;

/// The alignment of the buffers.
pub const BUFFER_ALIGN: u32 = 128;

/// The sizes of a buffer, in bytes, from the greatest on.
pub const BUFFER_SIZES: [u32; 7] = [65_536, 32_768, 16_384, 8_192, 4_096, 2_048, 1_024];

/// The greatest size of a buffer.
pub const MAX_BUFFER_SIZE: u32 = 65_536;

/// The least size of a buffer.
pub const MIN_BUFFER_SIZE: u32 = 1_024;

/// How many buffers an image may have.
pub const BUFFER_COUNTS: [u32; 4] = [1, 2, 4, 8];

/// The most sections of code of a plan: those of a link.
pub const MAX_PLAN_SECTIONS: u32 = MAX_OBJECTS * MAX_SECTIONS;

/// The greatest address at which data may end for a plan to be asked for; far beyond the local store.
pub const MAX_DATA_END: u64 = 1_099_511_627_776;
