//! The tags of transfers that wait: which land where their status is read, and the status.

ghost use Rattle.std.specs.Prelude.{◌≡◌, ◌<◌, ◌≤◌, ◌+◌, ◌^◌, List, length};
ghost use Rattle.std.specs.Int.{sum_through};
ghost use Rattle.spu_exec.specs.Tags.{has_tag, waits, is_first_tag, is_landing, status_bit, status, AllWaiting};

use crate::channels::{TAG_COUNT, UPDATE_ANY, UPDATE_IMMEDIATE};
use crate::transfers::Transfer;

/// Whether a tag is in a mask.
pub fn has_tag(mask: u32, tag: u32) -> bool
    requires { tag < TAG_COUNT }
    ensures { result ≡ has_tag mask tag }
{
    mask >> tag & 1 == 1
}

/// Whether a transfer with this tag waits.
pub fn waits(queue: &[Transfer], tag: u32) -> bool
    ensures { result ≡ waits queue.now tag }
{
    match queue {
        [] => false,
        [t, rest @ ..] => t.tag == tag || waits(rest, tag),
    }
}

/// Whether this is the tag of the first transfer whose tag is in a mask.
fn is_first_tag(queue: &[Transfer], mask: u32, tag: u32) -> bool
    requires { AllWaiting queue.now }
    ensures { result ≡ is_first_tag queue.now mask tag }
{
    match queue {
        [] => false,
        [t, rest @ ..] => {
            if has_tag(mask, t.tag) {
                t.tag == tag
            } else {
                is_first_tag(rest, mask, tag)
            }
        }
    }
}

/// A tag's bit of the status.
fn status_bit(mask: u32, queue: &[Transfer], tag: u32) -> u32
    requires { tag < TAG_COUNT }
    ensures value { result ≡ status_bit mask queue.now tag }
    ensures small { result ≤ 2 ^ tag }
{
    if has_tag(mask, tag) && !waits(queue, tag) {
        1 << tag
    } else {
        0
    }
}

/// The bits of the status up to a tag's.
fn status_through(mask: u32, queue: &[Transfer], tag: u32) -> u32
    requires { tag < TAG_COUNT }
    ensures value { result ≡ sum_through (λ k. status_bit mask queue.now k) tag }
    ensures small { result < 2 ^ (tag + 1) }
{
    if tag == 0 {
        status_bit(mask, queue, 0)
    } else {
        status_through(mask, queue, tag - 1) + status_bit(mask, queue, tag)
    }
}

/// The bits of a mask whose tags have no waiting transfer.
#[tactic(auto, unfolding(crate::specs::Tags::status))]
pub fn status(mask: u32, queue: &[Transfer]) -> u32
    ensures { result ≡ status mask queue.now }
{
    status_through(mask, queue, TAG_COUNT - 1)
}

/// Whether transfers with this tag land, where the status is read.
pub fn is_landing(update: u32, mask: u32, queue: &[Transfer], tag: u32) -> bool
    requires { (tag < TAG_COUNT) × AllWaiting queue.now }
    ensures { result ≡ is_landing update mask queue.now tag }
{
    if update == UPDATE_IMMEDIATE {
        false
    } else if update == UPDATE_ANY {
        status(mask, queue) == 0 && is_first_tag(queue, mask, tag)
    } else {
        has_tag(mask, tag)
    }
}
