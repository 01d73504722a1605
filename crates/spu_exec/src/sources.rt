//! Which bytes of its sources a byte of a result, a test and an address read.

ghost use Rattle.std.specs.Prelude.{◌≡◌, ◌/◌, ◌==◌, ◌||◌};
ghost use Rattle.spu_exec.specs.Reads.{
  covers as covers_of,
  extent as extent_of,
  keeps_rt as keeps_rt_of,
  names as names_of,
  reads as reads_of,
  special as special_of,
};
ghost use Rattle.spu_exec.specs.Tested.{tested as tested_of, addressed as addressed_of};

use spu_isa::{Op, has_ra, has_rb, has_rc, info};

/// A source register; rt is the old value of the register that is written.
#[derive(Clone, Copy, PartialEq, Eq, Debug)]
pub enum Source {
    FromRa,
    FromRb,
    FromRc,
    FromRt,
}

/// How much of a source a byte of a result reads.
#[derive(Clone, Copy, PartialEq, Eq, Debug)]
pub enum Extent {
    /// The lane of so many bytes in which the byte itself stands; all of it where that is 0.
    SameLane(u8),
    /// Word 0.
    FirstWord,
}

/// Whether the result depends on the old rt.
fn keeps_rt(op: Op) -> bool
    ensures { result ≡ keeps_rt_of op }
{
    match op {
        Op::Addx | Op::Sfx | Op::Cgx | Op::Bgx | Op::Mpyhha | Op::Mpyhhau | Op::Iohl => true,
        _ => false,
    }
}

/// Whether an operation's formula names a source.
pub fn names(op: Op, source: Source) -> bool
    ensures { result ≡ names_of op source }
{
    match source {
        Source::FromRa => has_ra(op),
        Source::FromRb => has_rb(op),
        Source::FromRc => has_rc(op),
        Source::FromRt => keeps_rt(op),
    }
}

/// How much of a source a byte of the result reads, where that isn't the lane in which it stands.
fn special(op: Op, source: Source) -> Option<Extent>
    ensures { result ≡ special_of op source }
{
    match op {
        Op::Rotqbi
        | Op::Rotqmbi
        | Op::Shlqbi
        | Op::Rotqby
        | Op::Rotqbybi
        | Op::Shlqby
        | Op::Shlqbybi
        | Op::Rotqmby => match source {
            Source::FromRb => Some(Extent::FirstWord),
            Source::FromRa | Source::FromRc | Source::FromRt => None,
        },
        Op::Shufb => match source {
            Source::FromRa | Source::FromRb => Some(Extent::SameLane(16)),
            Source::FromRc | Source::FromRt => None,
        },
        Op::Fsm
        | Op::Fsmh
        | Op::Fsmb
        | Op::Cbd
        | Op::Chd
        | Op::Cwd
        | Op::Cdd
        | Op::Cbx
        | Op::Chx
        | Op::Cwx
        | Op::Cdx => Some(Extent::FirstWord),
        _ => None,
    }
}

/// How much of a source that it names a byte of the result reads.
fn how_much(op: Op, source: Source) -> Extent
    ensures { result ≡ extent_of op source }
{
    match special(op, source) {
        Some(extent) => extent,
        None => Extent::SameLane(info(op).lane),
    }
}

/// Whether two bytes stand in one lane of so many bytes.
fn same_lane(width: u8, k: u8, j: u8) -> bool
    ensures { result ≡ (width == 0 || j / width == k / width) }
{
    width == 0 || j / width == k / width
}

/// Whether byte j is one that byte k reads.
fn covers(extent: Extent, k: u8, j: u8) -> bool
    ensures { result ≡ covers_of extent k j }
{
    match extent {
        Extent::SameLane(width) => same_lane(width, k, j),
        Extent::FirstWord => j < 4,
    }
}

/// Whether byte k of the result of an instruction that computes reads byte j of a source.
pub fn reads(op: Op, source: Source, k: u8, j: u8) -> bool
    ensures { result ≡ reads_of op source k j }
{
    names(op, source) && covers(how_much(op, source), k, j)
}

/// Whether byte j of a source is in a word or halfword that a branch or a halt tests.
pub fn is_tested(op: Op, source: Source, j: u8) -> bool
    ensures { result ≡ tested_of op source j }
{
    match op {
        Op::Brz | Op::Brnz | Op::Biz | Op::Binz => match source {
            Source::FromRt => j < 4,
            Source::FromRa | Source::FromRb | Source::FromRc => false,
        },
        Op::Brhz | Op::Brhnz | Op::Bihz | Op::Bihnz => match source {
            Source::FromRt => 2 <= j && j < 4,
            Source::FromRa | Source::FromRb | Source::FromRc => false,
        },
        Op::Heq | Op::Hgt | Op::Hlgt => match source {
            Source::FromRa | Source::FromRb => j < 4,
            Source::FromRc | Source::FromRt => false,
        },
        Op::Heqi | Op::Hgti | Op::Hlgti => match source {
            Source::FromRa => j < 4,
            Source::FromRb | Source::FromRc | Source::FromRt => false,
        },
        _ => false,
    }
}

/// Whether byte j of a source is read by the address of a load or store, or by the target of an
/// indirect branch or call.
pub fn is_addressed(op: Op, source: Source, j: u8) -> bool
    ensures { result ≡ addressed_of op source j }
{
    match op {
        Op::Lqx | Op::Stqx => match source {
            Source::FromRa | Source::FromRb => j < 4,
            Source::FromRc | Source::FromRt => false,
        },
        Op::Lqd | Op::Stqd | Op::Bi | Op::Bisl | Op::Biz | Op::Binz | Op::Bihz | Op::Bihnz =>
            match source {
                Source::FromRa => j < 4,
                Source::FromRb | Source::FromRc | Source::FromRt => false,
            },
        _ => false,
    }
}
