//! What the channels of transfers hold.

ghost use Rattle.std.specs.Prelude.{◌≡◌, ℕ, true, ◌||◌, ◌==◌, ◌+◌, ◌*◌, ◌^◌};
ghost use Rattle.spu_exec.specs.Transfers.{described};
ghost use Rattle.spu_ls.specs.Machine.{put_word};
ghost use Rattle.spu_ls.specs.View.{words_of, is_kept};

use spu_exec::channels::{MFC_EAH, MFC_EAL, MFC_LSA, MFC_SIZE, MFC_TAG_ID};
use spu_exec::{Form, Transfer};

/// What was last written to the channels that tell of a transfer.
#[derive(Clone, Copy)]
pub struct ChannelWords {
    /// `MFC_LSA`, the address in the local store.
    pub local: u32,
    /// `MFC_EAH`, the high word of the effective address.
    pub effective_high: u32,
    /// `MFC_EAL`, the low word of the effective address.
    pub effective_low: u32,
    /// `MFC_SIZE`, how many bytes.
    pub size: u32,
    /// `MFC_TAG_ID`, the tag of the transfer.
    pub tag: u32,
    /// `MFC_WR_TAG_MASK`, the tags of which the status is asked.
    pub tag_mask: u32,
}

/// The effective address of two words.
fn effective(high: u32, low: u32) -> u64
    ensures { result ≡ high * 2 ^ 32 + low }
{
    (u64::from(high) << 32) | u64::from(low)
}

impl ChannelWords {
    /// Those of a run that begins.
    pub fn zero() -> ChannelWords
        ensures { words_of result ≡ λ n. 0 }
    {
        ChannelWords {
            local: 0,
            effective_high: 0,
            effective_low: 0,
            size: 0,
            tag: 0,
            tag_mask: 0,
        }
    }

    /// The transfer of this form that they describe.
    pub fn transfer(&self, form: Form) -> Transfer
        ensures { result ≡ described form (words_of self.now) }
    {
        Transfer {
            form,
            local: self.local,
            ea: effective(self.effective_high, self.effective_low),
            size: self.size,
            tag: self.tag,
        }
    }

    /// With another word on a channel.
    #[tactic(auto, using(crate::proofs::Words::put_local, crate::proofs::Words::put_high, crate::proofs::Words::put_low, crate::proofs::Words::put_size, crate::proofs::Words::put_tag, crate::proofs::Words::put_tag_mask))]
    pub fn with(self, channel: u32, word: u32) -> ChannelWords
        requires { is_kept channel ≡ true }
        ensures { words_of result ≡ put_word channel word (words_of self) }
    {
        match channel {
            MFC_LSA => ChannelWords {
                local: word,
                ..self
            },
            MFC_EAH => ChannelWords {
                effective_high: word,
                ..self
            },
            MFC_EAL => ChannelWords {
                effective_low: word,
                ..self
            },
            MFC_SIZE => ChannelWords { size: word, ..self },
            MFC_TAG_ID => ChannelWords { tag: word, ..self },
            _ => ChannelWords {
                tag_mask: word,
                ..self
            },
        }
    }
}
