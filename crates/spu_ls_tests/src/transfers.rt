//! Runs of a program that does what its mail says, with transfers.

ghost use Rattle.std.specs.Prelude.{◌≡◌, ◌≤◌, length, IfOk};
ghost use Rattle.spu_word.specs.declared.limits.TheConstants.{MAX_AREAS};
ghost use Rattle.spu_ls.specs.View.{state_of};

use crate::running::{IMAGE, machine};
use spu_exec::channels::{MFC_GET, MFC_GETB, MFC_GETF, MFC_PUT, MFC_PUTB, MFC_PUTF};
use spu_ls::{Machine, RunEnd};
use spu_word::{OutOfMemory, Seq};
use std::alloc::Global;
use std::test::Fail;

/// Mail 1 and six words are a command: they go to channels 16 to 21. Mail 0 and two words go to channels 22 and 23, and then
/// the tag status, the word at 1,024 and the count of channel 21 are sent.
const DRIVEN: [u32; 26] = [
    0x01a0_0e8a,
    0x2000_070a,
    0x01a0_0e83,
    0x21a0_0803,
    0x01a0_0e83,
    0x21a0_0883,
    0x01a0_0e83,
    0x21a0_0903,
    0x01a0_0e83,
    0x21a0_0983,
    0x01a0_0e83,
    0x21a0_0a03,
    0x01a0_0e83,
    0x21a0_0a83,
    0x327f_f900,
    0x01a0_0e83,
    0x21a0_0b03,
    0x01a0_0e83,
    0x21a0_0b83,
    0x01a0_0c03,
    0x21a0_0e03,
    0x3080_8003,
    0x21a0_0e03,
    0x01e0_0a83,
    0x21a0_0e03,
    0x327f_f380,
];

/// What mail makes the program do.
#[derive(Clone, Copy)]
enum Asks {
    /// A command: its word, the addresses in the local store and in effective memory, the size and the tag.
    Command(u32, u32, u64, u32, u32),
    /// The status of the tags in a mask, by an update.
    Status(u32, u32),
}

/// The mail for what is asked.
fn mail_of(alloc: Global, asked: &[Asks]) -> Result<Seq<u32>, OutOfMemory> {
    let mut mail = Seq::new(alloc);
    for asks in asked {
        match *asks {
            Asks::Command(command, local, ea, size, tag) => {
                let high = u32::try_from(ea >> 32).ok().ok_or(OutOfMemory)?;
                let low = u32::try_from(ea & 0xffff_ffff).ok().ok_or(OutOfMemory)?;
                for word in [1, local, high, low, size, tag, command] {
                    mail.push(word)?;
                }
            }
            Asks::Status(mask, update) => {
                for word in [0, mask, update] {
                    mail.push(word)?;
                }
            }
        }
    }
    Ok(mail)
}

/// The program with that mail, and these areas.
fn driven(alloc: Global, asked: &[Asks], rows: &[(u64, &[u8])]) -> Result<Machine, &'static str>
    requires { length rows.now ≤ MAX_AREAS }
    ensures { IfOk result (λ m. (state_of m).steps ≡ 0) }
{
    let mail = mail_of(alloc, asked).ok().ok_or("memory")?;
    machine(alloc, &DRIVEN, mail.as_slice(), rows)
}

/// Area `a` of ones at 4,096, and area `b` of twos at 4,112.
const ONES: [u8; 16] = [0x11; 16];

const TWOS: [u8; 16] = [0x22; 16];

const A: u64 = 4096;

const B: u64 = 4112;

/// Area `a` is got to 1,024 with tag 1, then area `b` with tag 2; the status of both by updates 0, 1 and 2.
const BOTH: [Asks; 5] = [
    Asks::Command(MFC_GET, 1024, A, 16, 1),
    Asks::Command(MFC_GETF, 1024, B, 16, 2),
    Asks::Status(6, 0),
    Asks::Status(6, 1),
    Asks::Status(6, 2),
];

/// With the tags turned: the status of tag 1, then of tag 2, by update 2.
const TURNED: [Asks; 4] = [
    Asks::Command(MFC_GET, 1024, A, 16, 2),
    Asks::Command(MFC_GETB, 1024, B, 16, 1),
    Asks::Status(2, 2),
    Asks::Status(4, 2),
];

/// 16 bytes at 1,024 are put into area `b` with tag 3, which waits no more, and got from there to 1,024 after `a` was.
const PUTS: [Asks; 6] = [
    Asks::Command(MFC_PUT, 1024, B, 16, 3),
    Asks::Status(8, 2),
    Asks::Command(MFC_GET, 1024, A, 16, 4),
    Asks::Status(16, 2),
    Asks::Command(MFC_GET, 1024, B, 16, 5),
    Asks::Status(32, 2),
];

/// `a` is got to 1,024, and put from there into `b` by a later transfer of the same status.
const PASSES: [Asks; 3] = [
    Asks::Command(MFC_GET, 1024, A, 16, 2),
    Asks::Command(MFC_PUTB, 1024, B, 16, 1),
    Asks::Status(6, 2),
];

/// `a` is got to 1,024, and then its word at 1,028 is put into `b`.
const PUTS_A_WORD: [Asks; 4] = [
    Asks::Command(MFC_GET, 1024, A, 16, 2),
    Asks::Status(4, 2),
    Asks::Command(MFC_PUTF, 1028, B + 4, 4, 1),
    Asks::Status(2, 2),
];

/// Update 1 lets the transfers of the first one's tag land alone.
const FIRST_TAG: [Asks; 4] = [
    Asks::Command(MFC_GET, 1024, A, 16, 2),
    Asks::Command(MFC_GET, 1040, B, 16, 1),
    Asks::Command(MFC_GET, 1024, B, 16, 2),
    Asks::Status(6, 1),
];

/// It lets none land where a tag of the mask has no transfer, or the mask none of the tags.
const NO_TAG: [Asks; 3] = [
    Asks::Command(MFC_GET, 1024, A, 16, 1),
    Asks::Status(6, 1),
    Asks::Status(0, 1),
];

#[test]
fn transfers(rt: HostRuntime) -> Result<(), Fail> {
    let rows: [(&[Asks], u32, &[u32]); 4] = [
        (
            &BOTH,
            0,
            &[0, 0, 14, 2, 0x1111_1111, 15, 6, 0x2222_2222, 16],
        ),
        (&TURNED, 0, &[2, 0x2222_2222, 15, 4, 0x1111_1111, 16]),
        (&FIRST_TAG, 1, &[4, 0x2222_2222, 15]),
        (&NO_TAG, 1, &[4, 0, 15, 0, 0, 15]),
    ];
    for (asked, waiting, output) in rows {
        let mut m = driven(rt.alloc(), asked, &[(A, &ONES), (B, &TWOS)])?;
        assert_eq!(rt; m.run(1000), RunEnd::Starved);
        assert_eq!(rt; m.output(), output);
        assert_eq!(rt; m.waiting(), waiting);
    }
    Ok(())
}

#[test]
fn puts(rt: HostRuntime) -> Result<(), Fail> {
    let rows: [(&[Asks], &[u32], [u8; 4]); 3] = [
        (&PUTS, &[8, 0, 16, 16, 0x1111_1111, 16, 32, 0, 16], [0; 4]),
        (&PASSES, &[6, 0x1111_1111, 16], [0x11; 4]),
        (
            &PUTS_A_WORD,
            &[4, 0x1111_1111, 16, 2, 0x1111_1111, 16],
            [0x22, 0x11, 0x22, 0x22],
        ),
    ];
    for (asked, output, words) in rows {
        let mut m = driven(rt.alloc(), asked, &[(A, &ONES), (B, &TWOS)])?;
        assert_eq!(rt; m.run(1000), RunEnd::Starved);
        assert_eq!(rt; m.output(), output);
        let b = m.areas().get(1).ok_or("area b")?;
        assert_eq!(rt; b.bytes.len(), 16);
        for (k, byte) in b.bytes.iter().enumerate() {
            assert_eq!(rt; Some(byte), words.get(k / 4));
        }
    }
    Ok(())
}

#[test]
fn refused_commands(rt: HostRuntime) -> Result<(), Fail> {
    use Asks::Command;
    let rows = [
        (RunEnd::Starved, Command(MFC_GET, 1028, 4100, 4, 31)),
        (RunEnd::Starved, Command(MFC_GET, 1024, IMAGE, 16, 0)),
        (RunEnd::TransferFault, Command(MFC_PUT, 1024, IMAGE, 16, 0)),
        (RunEnd::TransferFault, Command(0x23, 1024, A, 16, 0)),
        (RunEnd::TransferFault, Command(0x43, 1024, A, 16, 0)),
        (RunEnd::TransferFault, Command(MFC_GET, 1024, A, 0, 0)),
        (RunEnd::TransferFault, Command(MFC_GET, 1024, A, 16, 32)),
        (RunEnd::TransferFault, Command(MFC_GET, 1028, A, 4, 0)),
        (RunEnd::TransferFault, Command(MFC_GET, 1026, 4098, 4, 0)),
        (RunEnd::TransferFault, Command(MFC_GET, 262_144, A, 16, 0)),
        (RunEnd::TransferFault, Command(MFC_GET, 1024, A, 32, 0)),
        (RunEnd::TransferFault, Command(MFC_GET, 1024, 4080, 16, 0)),
        (RunEnd::TransferFault, Command(MFC_PUT, 1024, 4128, 16, 0)),
        (
            RunEnd::TransferFault,
            Command(MFC_GET, 1024, 0x1_0000_1000, 16, 0),
        ),
    ];
    for (end, command) in rows {
        let mut m = driven(rt.alloc(), &[command], &[(A, &ONES), (B, &TWOS)])?;
        assert_eq!(rt; m.run(1000), end);
        assert_eq!(rt; m.waiting(), if end == RunEnd::Starved { 1 } else { 0 });
    }
    Ok(())
}

/// Area `a` of these tests has 16,400 bytes, of which byte k is 7k modulo 251.
fn sevens(alloc: Global) -> Result<Seq<u8>, OutOfMemory> {
    let mut bytes = Seq::new(alloc);
    let mut byte = 0;
    for _ in 0..16_400 {
        bytes.push(byte)?;
        byte = if byte < 244 { byte + 7 } else { byte - 244 };
    }
    Ok(bytes)
}

#[test]
fn sizes(rt: HostRuntime) -> Result<(), Fail> {
    use Asks::Command;
    let bytes = sevens(rt.alloc())?;
    let status = Asks::Status(1, 2);
    let fault = RunEnd::TransferFault;
    let rows: [(Asks, RunEnd, &[u32]); 10] = [
        (
            Command(MFC_GET, 1024, A, 16_384, 0),
            RunEnd::Starved,
            &[1, 0x0007_0e15, 16],
        ),
        (Command(MFC_GET, 1024, A, 16_400, 0), fault, &[]),
        (Command(MFC_GET, 1024, A, 24, 0), fault, &[]),
        (Command(MFC_GET, 1536, A, 3, 0), fault, &[]),
        (
            Command(MFC_GET, 1025, 4097, 1, 0),
            RunEnd::Starved,
            &[1, 0x0007_0000, 16],
        ),
        (
            Command(MFC_GET, 1026, 4098, 2, 0),
            RunEnd::Starved,
            &[1, 0x0000_0e15, 16],
        ),
        (
            Command(MFC_GET, 1032, 4104, 8, 0),
            RunEnd::Starved,
            &[1, 0, 16],
        ),
        (
            Command(MFC_GET, 262_128, A, 16, 0),
            RunEnd::Starved,
            &[1, 0, 16],
        ),
        (
            Command(MFC_GETF, 1024, IMAGE + 16, 16, 0),
            RunEnd::Starved,
            &[1, 0x0002_0017, 16],
        ),
        (
            Command(MFC_GET, 1024, A + 16, 16_384, 0),
            RunEnd::Starved,
            &[1, 0x7077_7e85, 16],
        ),
    ];
    for (command, end, output) in rows {
        let mut m = driven(rt.alloc(), &[command, status], &[(A, bytes.as_slice())])?;
        assert_eq!(rt; m.run(1000), end);
        assert_eq!(rt; m.output(), output);
        assert_eq!(rt; m.waiting(), 0);
    }
    Ok(())
}

/// Five words of mail go to channels 16 to 20; then so many times as the seventh says the sixth is written to channel 21. The
/// count of channel 21 and the word at 1,024 are sent.
const REPEATED: [u32; 20] = [
    0x01a0_0e83,
    0x21a0_0803,
    0x01a0_0e83,
    0x21a0_0883,
    0x01a0_0e83,
    0x21a0_0903,
    0x01a0_0e83,
    0x21a0_0983,
    0x01a0_0e83,
    0x21a0_0a03,
    0x01a0_0e89,
    0x01a0_0e8a,
    0x21a0_0a89,
    0x1cff_c50a,
    0x217f_ff0a,
    0x01e0_0a83,
    0x21a0_0e03,
    0x3080_8003,
    0x21a0_0e03,
    0x0000_0004,
];

#[test]
fn full_queue(rt: HostRuntime) -> Result<(), Fail> {
    let rows = [
        (13, 13, [3, 0]),
        (16, 16, [0, 0]),
        (17, 16, [0, 0x1111_1111]),
    ];
    for (commands, waiting, output) in rows {
        let mail = [1024, 0, 4096, 16, 3, 0x40, commands];
        let mut m = machine(rt.alloc(), &REPEATED, &mail, &[(A, &ONES)])?;
        assert_eq!(rt; m.run(1000), RunEnd::Stop(4));
        assert_eq!(rt; m.output(), output.as_slice());
        assert_eq!(rt; m.waiting(), waiting);
    }
    Ok(())
}

/// After one transfer of tag 1 and sixteen of tag 2 the first has landed, and no other; a command that is refused lets none land.
#[test]
fn first_lands(rt: HostRuntime) -> Result<(), Fail> {
    let first = Asks::Command(MFC_GET, 1024, A, 16, 1);
    let other = Asks::Command(MFC_GET, 1024, B, 16, 2);
    let status = Asks::Status(0, 0);
    let refused = Asks::Command(MFC_GET, 1024, 0, 16, 1);
    let asked = [
        first, other, other, other, other, other, other, other, other, other, other, other, other,
        other, other, other, other, status, refused,
    ];
    let mut m = driven(rt.alloc(), &asked, &[(A, &ONES), (B, &TWOS)])?;
    assert_eq!(rt; m.run(1000), RunEnd::TransferFault);
    assert_eq!(rt; m.output(), [0, 0x1111_1111, 0].as_slice());
    assert_eq!(rt; m.waiting(), 16);
    Ok(())
}
