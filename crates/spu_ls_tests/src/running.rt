//! Runs of small programs.

ghost use Rattle.std.specs.Prelude.{◌≡◌, ◌≤◌, length, IfOk};
ghost use Rattle.spu_word.specs.declared.limits.TheConstants.{MAX_AREAS};
ghost use Rattle.spu_ls.specs.Loading.{AreDistinct};
ghost use Rattle.spu_ls.specs.View.{state_of};

use spu_elf::{Exec, Segment, write_exec};
use spu_ls::{Machine, RunEnd, Tick};
use spu_word::limits::MAX_MAIL;
use spu_word::{Area, Bytes, Inputs, LoadFault, OutOfMemory, Seq};
use std::alloc::Global;
use std::test::Fail;

/// The bytes of words.
pub fn bytes_of(alloc: Global, words: &[u32]) -> Result<Bytes, OutOfMemory> {
    let mut bytes = Seq::new(alloc);
    for word in words {
        bytes.extend(&word.to_be_bytes())?;
    }
    Ok(bytes)
}

/// Words as a sequence.
fn words_of(alloc: Global, words: &[u32]) -> Result<Seq<u32>, OutOfMemory> {
    let mut all = Seq::new(alloc);
    for word in words {
        all.push(*word)?;
    }
    Ok(all)
}

/// Where the executable's file lies.
pub const IMAGE: u64 = 0x1_4000_0000;

/// Areas `a`, `b` and so on, each with its effective address and bytes.
#[tactic(auto, using(crate::proofs::Trials::lettered_distinct))]
fn areas_of(alloc: Global, rows: &[(u64, &[u8])]) -> Result<Seq<Area>, OutOfMemory>
    requires { length rows.now ≤ MAX_AREAS }
    ensures distinct { IfOk result (λ areas. AreDistinct areas) }
    ensures few { IfOk result (λ areas. length areas ≤ MAX_AREAS) }
{
    let mut areas = Seq::new(alloc);
    for k in 0..rows.len() {
        let (ea, bytes) = rows[k];
        areas.push(Area {
            name: Seq::copied(alloc, &[b'a' + k as u8])?,
            ea,
            bytes: Seq::copied(alloc, bytes)?,
        })?;
    }
    Ok(areas)
}

/// Inputs with mail and areas.
fn inputs_of(alloc: Global, mail: &[u32], rows: &[(u64, &[u8])]) -> Result<Inputs, OutOfMemory>
    requires { length rows.now ≤ MAX_AREAS }
    ensures distinct { IfOk result (λ i. AreDistinct i.areas) }
    ensures few { IfOk result (λ i. length i.areas ≤ MAX_AREAS) }
    ensures place { IfOk result (λ i. i.image_ea ≡ IMAGE) }
{
    Ok(Inputs {
        image_ea: IMAGE,
        mail: words_of(alloc, mail)?,
        areas: areas_of(alloc, rows)?,
    })
}

/// What a load of an executable with these inputs answers, where it has memory.
#[tactic(auto, using(spu_ls::proofs::Starting::no_steps))]
fn load_with(alloc: Global, x: &Exec, inputs: &Inputs) -> Result<Machine, LoadFault>
    requires distinct { AreDistinct inputs.now.areas }
    requires few { length inputs.now.areas ≤ MAX_AREAS }
    requires place { inputs.now.image_ea ≡ IMAGE }
    ensures { IfOk result (λ m. (state_of m).steps ≡ 0) }
{
    if !x.valid() || inputs.mail.len() > MAX_MAIL as usize {
        return Err(LoadFault::OutOfMemory);
    }
    let file = write_exec(alloc, x).map_err(|_| LoadFault::OutOfMemory)?;
    let m = Machine::load(alloc, x, file.as_slice(), inputs)?;
    Ok(m)
}

/// And with this mail and these areas.
pub fn load(
    alloc: Global,
    x: &Exec,
    mail: &[u32],
    rows: &[(u64, &[u8])],
) -> Result<Machine, LoadFault>
    requires { length rows.now ≤ MAX_AREAS }
    ensures { IfOk result (λ m. (state_of m).steps ≡ 0) }
{
    match inputs_of(alloc, mail, rows) {
        Ok(inputs) => load_with(alloc, x, &inputs),
        Err(_) => Err(LoadFault::OutOfMemory),
    }
}

/// The first quad of the stack pointer, and from 144 on the code that loads it, calls 160 and stops.
const START: [u32; 8] = [
    0x0003_ffe0,
    0x0000_4000,
    0,
    0,
    0x33ff_fe01,
    0x3300_0180,
    0x0000_2000,
    0,
];

/// The image with the start code and, from 160 on, these words.
pub fn image(alloc: Global, code: &[u32]) -> Result<Exec, &'static str> {
    let mut bytes = bytes_of(alloc, &START).ok().ok_or("memory")?;
    for word in code {
        bytes.extend(&word.to_be_bytes()).ok().ok_or("memory")?;
    }
    let odd = bytes.len() % 16;
    bytes.extend_zeros((16 - odd) % 16).ok().ok_or("memory")?;
    let mut segments = Seq::new(alloc);
    let root = Segment {
        address: 128,
        overlay: false,
        bytes,
    };
    segments.push(root).ok().ok_or("memory")?;
    Ok(Exec {
        entry: 144,
        segments,
        symbols: Seq::new(alloc),
    })
}

/// A machine at the start of that image.
pub fn machine(
    alloc: Global,
    code: &[u32],
    mail: &[u32],
    rows: &[(u64, &[u8])],
) -> Result<Machine, &'static str>
    requires { length rows.now ≤ MAX_AREAS }
    ensures { IfOk result (λ m. (state_of m).steps ≡ 0) }
{
    let x = image(alloc, code)?;
    load(alloc, &x, mail, rows).ok().ok_or("load")
}

/// `il $3,5; wrch 28,$3; bi $0`
const FIVE: [u32; 3] = [0x4080_0283, 0x21a0_0e03, 0x3500_0000];

/// Each kind of instruction once or more: a store at 1,024 that is loaded again, a halt that doesn't hold, branches
/// that are taken and not, a call from 200 that returns by a branch at 228, and a call by a register from 212.
const KINDS: [u32; 20] = [
    0x40ff_fc83,
    0x1c02_8184,
    0x2410_0104,
    0x3080_8005,
    0x21a0_0e05,
    0x4f00_c280,
    0x2000_0205,
    0x2100_0185,
    0x0000_0001,
    0x0000_0001,
    0x3300_0206,
    0x21a0_0e06,
    0x4200_7407,
    0x3520_0387,
    0x3580_0004,
    0x0020_0000,
    0x7c00_0408,
    0x2520_0308,
    0x21a0_0e07,
    0x3500_0000,
];

/// The counts of channels 12, 16 to 24, 28 and 29, and then of 13.
const COUNTS: [u32; 25] = [
    0x01e0_0603,
    0x21a0_0e03,
    0x01e0_0803,
    0x21a0_0e03,
    0x01e0_0883,
    0x21a0_0e03,
    0x01e0_0903,
    0x21a0_0e03,
    0x01e0_0983,
    0x21a0_0e03,
    0x01e0_0a03,
    0x21a0_0e03,
    0x01e0_0a83,
    0x21a0_0e03,
    0x01e0_0b03,
    0x21a0_0e03,
    0x01e0_0b83,
    0x21a0_0e03,
    0x01e0_0c03,
    0x21a0_0e03,
    0x01e0_0e03,
    0x21a0_0e03,
    0x01e0_0e83,
    0x21a0_0e03,
    0x01e0_0683,
];

/// The mask 9 and the update 2 are written; the count and the status of channel 24, and the mask, are sent; and then
/// the status is read again.
const STATUS: [u32; 11] = [
    0x4080_0483,
    0x21a0_0b03,
    0x4080_0104,
    0x21a0_0b84,
    0x01e0_0c05,
    0x21a0_0e05,
    0x01a0_0c05,
    0x21a0_0e05,
    0x01a0_0605,
    0x21a0_0e05,
    0x01a0_0c06,
];

/// Words of the inbound mailbox are sent, each with the count that is left.
const MAIL: [u32; 5] = [
    0x01a0_0e83,
    0x21a0_0e03,
    0x01e0_0e84,
    0x21a0_0e04,
    0x327f_fe00,
];

/// The quad at 176 is stored over the one at 160, in which the next instruction stands.
const OVERWRITES: [u32; 8] = [
    0x3380_0204,
    0x23ff_ff84,
    0x0000_0001,
    0x0000_0001,
    0x4020_0000,
    0x4020_0000,
    0x0000_0002,
    0x0000_0003,
];

/// A loop that adds 1 to the immediate of its first instruction, `il $3,7`, and sends $3, three times.
const GROWING: [u32; 12] = [
    0x4080_4005,
    0x3fe3_0285,
    0x4080_0186,
    0x4020_0000,
    0x4080_0383,
    0x21a0_0e03,
    0x3080_1604,
    0x1801_4204,
    0x2080_1604,
    0x1cff_c306,
    0x217f_fd06,
    0x0000_0001,
];

#[test]
fn ends(rt: HostRuntime) -> Result<(), Fail> {
    let rows: [(&[u32], &[u32], RunEnd, u32, u64, &[u32]); 17] = [
        (&FIVE, &[], RunEnd::Stop(0x2000), 152, 6, &[5]),
        (&KINDS, &[], RunEnd::Stop(0x2000), 152, 21, &[3, 204, 216]),
        (&[0x1234], &[], RunEnd::Stop(0x1234), 160, 3, &[]),
        (
            &[0x4020_0000, 0x7f00_0180],
            &[],
            RunEnd::Halt(164),
            164,
            4,
            &[],
        ),
        (
            &[0x5880_0000],
            &[],
            RunEnd::BadInstruction(160),
            160,
            3,
            &[],
        ),
        (&OVERWRITES, &[], RunEnd::Stop(2), 168, 5, &[]),
        (&GROWING, &[], RunEnd::Stop(1), 204, 28, &[7, 8, 9]),
        (&[0x01a0_0e83], &[], RunEnd::Starved, 160, 3, &[]),
        (&MAIL, &[7, 8], RunEnd::Starved, 160, 13, &[7, 1, 8, 0]),
        (
            &COUNTS,
            &[0, 0, 0, 0, 0],
            RunEnd::BadChannel(13),
            256,
            27,
            &[1, 1, 1, 1, 1, 1, 16, 1, 1, 0, 1, 4],
        ),
        (&STATUS, &[], RunEnd::BadChannel(24), 200, 13, &[1, 9, 9]),
        (
            &[0x4080_0184, 0x21a0_0b84],
            &[],
            RunEnd::BadChannel(23),
            164,
            4,
            &[],
        ),
        (&[0x21a0_0a84], &[], RunEnd::TransferFault, 160, 3, &[]),
        (&[0x21a0_0c04], &[], RunEnd::BadChannel(24), 160, 3, &[]),
        (&[0x01a0_0e04], &[], RunEnd::BadChannel(28), 160, 3, &[]),
        (&[0x3200_0000], &[], RunEnd::Running, 160, 1000, &[]),
        (
            &[0x4020_0000, 0x3540_0080],
            &[],
            RunEnd::BadInstruction(164),
            164,
            4,
            &[],
        ),
    ];
    for (code, mail, end, pc, steps, output) in rows {
        let mut m = machine(rt.alloc(), code, mail, &[])?;
        assert_eq!(rt; m.run(1000), end);
        assert_eq!(rt; m.pc(), pc);
        assert_eq!(rt; m.steps(), steps);
        assert_eq!(rt; m.output(), output);
    }
    Ok(())
}

#[test]
fn steps_and_budgets(rt: HostRuntime) -> Result<(), Fail> {
    let mut m = machine(rt.alloc(), &FIVE, &[], &[])?;
    assert_eq!(rt; m.step(), Tick::Went);
    assert_eq!(rt; m.pc(), 148);
    assert_eq!(rt; m.run(4), RunEnd::Running);
    assert_eq!(rt; m.pc(), 152);
    assert_eq!(rt; m.step(), Tick::Ended(RunEnd::Stop(0x2000)));
    assert_eq!(rt; m.step(), Tick::Ended(RunEnd::Stop(0x2000)));
    assert_eq!(rt; m.run(9), RunEnd::Stop(0x2000));
    assert_eq!(rt; m.steps(), 6);
    assert_eq!(rt; m.areas().len(), 0);
    assert_eq!(rt; m.waiting(), 0);
    Ok(())
}

#[test]
fn full_outbox(rt: HostRuntime) -> Result<(), Fail> {
    let mut m = machine(rt.alloc(), &[0x21a0_0e03, 0x327f_ff80], &[], &[])?;
    assert_eq!(rt; m.run(1_000_000), RunEnd::OutboxFull);
    assert_eq!(rt; m.output().len(), 65_536);
    assert_eq!(rt; m.steps(), 131_075);
    Ok(())
}

/// 5 is sent by the quadword at 160, then area `a` is got over it by update 2, and the quadword runs again.
const FETCHES: [u32; 22] = [
    0x4080_0283,
    0x21a0_0e03,
    0x3200_0100,
    0x4020_0000,
    0x4080_5003,
    0x21a0_0803,
    0x4080_0003,
    0x21a0_0883,
    0x4088_0003,
    0x21a0_0903,
    0x4080_0803,
    0x21a0_0983,
    0x4080_0003,
    0x21a0_0a03,
    0x4080_2003,
    0x21a0_0a83,
    0x4080_0083,
    0x21a0_0b03,
    0x4080_0103,
    0x21a0_0b83,
    0x01a0_0c03,
    0x327f_f580,
];

#[test]
fn code_from_an_area(rt: HostRuntime) -> Result<(), Fail> {
    // il $3,9; wrch 28,$3; stop 3; nop
    let code = bytes_of(rt.alloc(), &[0x4080_0483, 0x21a0_0e03, 3, 0x4020_0000])?;
    let mut m = machine(rt.alloc(), &FETCHES, &[], &[(4096, code.as_slice())])?;
    assert_eq!(rt; m.run(1000), RunEnd::Stop(3));
    assert_eq!(rt; m.output(), [5, 9].as_slice());
    Ok(())
}
