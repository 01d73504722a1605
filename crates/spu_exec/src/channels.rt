//! The channels that a run can use and the command words, by their names in the Cell Broadband Engine
//! Architecture, and what the counts of channels are.

ghost use Rattle.std.specs.Prelude.{◌≡◌, ◌≤◌};
ghost use Rattle.spu_word.specs.declared.limits.TheConstants.{QUEUE_SIZE};
ghost use Rattle.spu_exec.specs.Channels.{
  count_of as count_in_table,
  is_counted as is_counted_in_table,
  is_read as is_read_in_table,
  is_update as is_update_in_table,
  is_written as is_written_in_table,
};

use spu_word::limits::QUEUE_SIZE;

/// Reads the tag mask.
pub const MFC_RD_TAG_MASK: u32 = 12;

/// Writes where a transfer's bytes begin in the local store.
pub const MFC_LSA: u32 = 16;

/// Writes the high word of a transfer's effective address.
pub const MFC_EAH: u32 = 17;

/// Writes the low word of a transfer's effective address.
pub const MFC_EAL: u32 = 18;

/// Writes how many bytes a transfer has.
pub const MFC_SIZE: u32 = 19;

/// Writes a transfer's tag.
pub const MFC_TAG_ID: u32 = 20;

/// Writes a command, which puts a transfer into the queue; its count is the room there.
pub const MFC_CMD: u32 = 21;

/// Writes the tag mask.
pub const MFC_WR_TAG_MASK: u32 = 22;

/// Writes which update of the tag status is asked for.
pub const MFC_WR_TAG_UPDATE: u32 = 23;

/// Reads the tag status; its count is 1 where an update is asked for.
pub const MFC_RD_TAG_STAT: u32 = 24;

/// Writes to the outbound mailbox.
pub const SPU_WR_OUT_MBOX: u32 = 28;

/// Reads from the inbound mailbox; its count is the number of words there.
pub const SPU_RD_IN_MBOX: u32 = 29;

/// The most words that the inbound mailbox holds.
pub const INBOX_SIZE: u32 = 4;

/// How many tags there are.
pub const TAG_COUNT: u32 = 32;

/// The update of the tag status at once, whatever waits.
pub const UPDATE_IMMEDIATE: u32 = 0;

/// The update of the tag status once no transfer with some tag of the mask waits.
pub const UPDATE_ANY: u32 = 1;

/// The update of the tag status once no transfer with any tag of the mask waits.
pub const UPDATE_ALL: u32 = 2;

/// The command that puts bytes of the local store into effective memory.
pub const MFC_PUT: u32 = 0x20;

/// As `MFC_PUT`, with a barrier: behind earlier commands of its tag, and before later ones.
pub const MFC_PUTB: u32 = 0x21;

/// As `MFC_PUT`, with a fence: behind earlier commands of its tag.
pub const MFC_PUTF: u32 = 0x22;

/// The command that gets bytes of effective memory into the local store.
pub const MFC_GET: u32 = 0x40;

/// As `MFC_GET`, with a barrier: behind earlier commands of its tag, and before later ones.
pub const MFC_GETB: u32 = 0x41;

/// As `MFC_GET`, with a fence: behind earlier commands of its tag.
pub const MFC_GETF: u32 = 0x42;

/// Whether a channel is one that `rdch` reads.
pub fn is_read(channel: u32) -> bool
    ensures { result ≡ is_read_in_table channel }
{
    channel == MFC_RD_TAG_MASK || channel == MFC_RD_TAG_STAT || channel == SPU_RD_IN_MBOX
}

/// Whether a channel is one that `wrch` writes.
pub fn is_written(channel: u32) -> bool
    ensures { result ≡ is_written_in_table channel }
{
    MFC_LSA <= channel && channel <= MFC_WR_TAG_UPDATE || channel == SPU_WR_OUT_MBOX
}

/// Whether a channel is one of which `rchcnt` gives a count.
pub fn is_counted(channel: u32) -> bool
    ensures { result ≡ is_counted_in_table channel }
{
    is_read(channel) || is_written(channel)
}

/// Whether a word asks for an update of the tag status.
pub fn is_update(word: u32) -> bool
    ensures { result ≡ is_update_in_table word }
{
    word <= UPDATE_ALL
}

/// The count of a channel that has one, where an update is asked for, so many transfers wait and so
/// many words of mail are left.
pub fn count_of(channel: u32, pending: bool, waiting: u32, left: u32) -> u32
    requires { waiting ≤ QUEUE_SIZE }
    ensures { result ≡ count_in_table channel pending waiting left }
{
    if channel == MFC_CMD {
        QUEUE_SIZE - waiting
    } else if channel == MFC_RD_TAG_STAT {
        u32::from(pending)
    } else if channel == SPU_RD_IN_MBOX {
        left.min(INBOX_SIZE)
    } else {
        1
    }
}
