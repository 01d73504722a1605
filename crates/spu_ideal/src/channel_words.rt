//! What the channels of transfers hold, where that is known.

ghost use Rattle.std.specs.Prelude.{◌≡◌, ℕ, true, ◌&&◌, nat_le, ◌+◌, ◌*◌, ◌^◌, Some};
ghost use Rattle.spu_exec.specs.declared.channels.TheConstants.{MFC_LSA, MFC_TAG_ID};
ghost use Rattle.spu_exec.specs.Moves.{or_zero};
ghost use Rattle.spu_exec.specs.Transfers.{described};
ghost use Rattle.spu_ideal.specs.Channels.{knows_transfer};
ghost use Rattle.spu_ideal.specs.State.{put_word, forgotten_channels};
ghost use Rattle.spu_ideal.specs.Words.{words_of};

use spu_exec::channels::{MFC_EAH, MFC_EAL, MFC_LSA, MFC_SIZE};
use spu_exec::{Form, Transfer};

/// What was last written to the channels that tell of a transfer, None where that isn't known.
#[derive(Clone, Copy)]
pub struct ChannelWords {
    /// `MFC_LSA`, the address in the local store.
    pub local: Option<u32>,
    /// `MFC_EAH`, the high word of the effective address.
    pub effective_high: Option<u32>,
    /// `MFC_EAL`, the low word of the effective address.
    pub effective_low: Option<u32>,
    /// `MFC_SIZE`, how many bytes.
    pub size: Option<u32>,
    /// `MFC_TAG_ID`, the tag of the transfer.
    pub tag: Option<u32>,
}

/// The effective address of two words.
fn effective(high: u32, low: u32) -> u64
    ensures { result ≡ high * 2 ^ 32 + low }
{
    (u64::from(high) << 32) | u64::from(low)
}

/// A word, 0 where it isn't known.
pub fn word_or_zero(word: Option<u32>) -> u32
    ensures { result ≡ or_zero word }
{
    match word {
        Some(v) => v,
        None => 0,
    }
}

impl ChannelWords {
    /// Those of a run that begins.
    pub fn zero() -> ChannelWords
        ensures { words_of result ≡ λ n. Some 0 }
    {
        ChannelWords {
            local: Some(0),
            effective_high: Some(0),
            effective_low: Some(0),
            size: Some(0),
            tag: Some(0),
        }
    }

    /// Those after a call, a return or a jump to another function.
    pub fn forgotten(self) -> ChannelWords
        ensures { words_of result ≡ forgotten_channels (words_of self) }
    {
        ChannelWords {
            local: None,
            effective_high: None,
            effective_low: None,
            size: None,
            tag: None,
        }
    }

    /// Whether all of them are known.
    pub fn are_known(&self) -> bool
        ensures { result ≡ knows_transfer (words_of self.now) }
    {
        self.local.is_some()
            && self.effective_high.is_some()
            && self.effective_low.is_some()
            && self.size.is_some()
            && self.tag.is_some()
    }

    /// The transfer of this form that they describe.
    pub fn transfer(&self, form: Form) -> Transfer
        ensures { result ≡ described form (λ n. or_zero (words_of self.now n)) }
    {
        Transfer {
            form,
            local: word_or_zero(self.local),
            ea: effective(
                word_or_zero(self.effective_high),
                word_or_zero(self.effective_low),
            ),
            size: word_or_zero(self.size),
            tag: word_or_zero(self.tag),
        }
    }

    /// With another word on a channel.
    #[tactic(auto, using(crate::proofs::Worded::put_local, crate::proofs::Worded::put_high, crate::proofs::Worded::put_low, crate::proofs::Worded::put_size, crate::proofs::Worded::put_tag))]
    pub fn with(self, channel: u32, word: u32) -> ChannelWords
        requires { (nat_le MFC_LSA channel && nat_le channel MFC_TAG_ID) ≡ true }
        ensures { words_of result ≡ put_word channel word (words_of self) }
    {
        match channel {
            MFC_LSA => ChannelWords {
                local: Some(word),
                ..self
            },
            MFC_EAH => ChannelWords {
                effective_high: Some(word),
                ..self
            },
            MFC_EAL => ChannelWords {
                effective_low: Some(word),
                ..self
            },
            MFC_SIZE => ChannelWords {
                size: Some(word),
                ..self
            },
            _ => ChannelWords {
                tag: Some(word),
                ..self
            },
        }
    }
}
