//! Whole calls of `check` over files in memory.

use crate::link_tests::main_of;
use crate::status::Status;
use crate::tests::Outside;
use std::alloc::Global;
use std::test::Fail;

// The quadword `d` is put into area `buf`, and the status of the command is read.
const PUTS: &str = "\
    ila $4,d; wrch 16,$4; lqa $5,_EAR_buf; wrch 17,$5; rotqbyi $6,$5,4; wrch 18,$6; il $7,16; wrch 19,$7
    il $8,0; wrch 20,$8; il $9,32; wrch 21,$9
    il $10,-1; wrch 22,$10; il $10,2; wrch 23,$10; rdch $11,24; bi $0";

// It is put, and no status read.
const PUTS_LATE: &str = "\
    ila $4,d; wrch 16,$4; lqa $5,_EAR_buf; wrch 17,$5; rotqbyi $6,$5,4; wrch 18,$6; il $7,16; wrch 19,$7
    il $8,0; wrch 20,$8; il $9,32; wrch 21,$9; bi $0";

const PUT_DATA: &str = "\
.data
.align 4
d: .byte 0,1,2,3,4,5,6,7,8,9,10,11,12,13,14,15
.section .toe,\"aw\"
.align 4
.global _EAR_buf
_EAR_buf: .octa 0";

// Holds the text of a function `main` of these lines, and its object.
fn hold_main(
    outside: &mut Outside,
    alloc: Global,
    name: &str,
    lines: &str,
    behind: &str,
) -> Result<(), Fail> {
    let text = main_of(alloc, lines, behind)?;
    let file = format!(in alloc; "{name}.s")?;
    outside.files.hold(file.as_str(), text.as_bytes())?;
    let call = format!(in alloc; "asm {name}.s {name}.o")?;
    match outside.call(alloc, call.as_str())? {
        Status::Ok => Ok(()),
        _ => Err("not assembled")?,
    }
}

#[test]
fn shows_what_a_run_shows(rt: HostRuntime) -> Result<(), Fail> {
    let alloc = rt.alloc();
    let mut outside = Outside::new(alloc, None, None)?;
    hold_main(
        &mut outside,
        alloc,
        "five",
        "il $3,5; wrch 28,$3; bi $0",
        "",
    )?;
    hold_main(&mut outside, alloc, "puts", PUTS, PUT_DATA)?;
    hold_main(&mut outside, alloc, "late", PUTS_LATE, PUT_DATA)?;
    outside.files.hold("zeros", &[0; 16])?;
    let calls = [
        ("check five.o", Status::Ok),
        ("check --steps=4 five.o", Status::Running),
        ("check five.o --stack=261984", Status::Ok),
        ("check puts.o --area=buf:4096:zeros", Status::Ok),
        ("check late.o --area=buf:4096:zeros", Status::Ok),
        ("check puts.o --area=b:4096:zeros", Status::Refused),
        (
            "check puts.o --area=buf:4096:zeros --area=b:4104:zeros",
            Status::Refused,
        ),
        ("check puts.o --area=buf:8:zeros", Status::Refused),
        ("check puts.o --stack=261984", Status::Refused),
        ("check five.o --entry=five", Status::Refused),
        ("check puts.o five.o", Status::Refused),
        ("check five.o five.s", Status::Refused),
        ("check five.o none.o", Status::ReadFault),
        ("check five.o --image=0", Status::Words),
    ];
    for (line, status) in calls {
        assert_eq!(rt; outside.call(alloc, line)?, status, "at {line}");
    }
    let text = b"out 5\nstop 0x2000\nsteps 5
out 5\nrunning\nsteps 4
out 5\nstop 0x2000\nsteps 5
area buf 000102030405060708090a0b0c0d0e0f\nstop 0x2000\nsteps 20
area buf 00000000000000000000000000000000\nwaiting 1\nstop 0x2000\nsteps 15
M1 UnresolvedName buf
M2 AreasOverlap b
M3 AreaRange buf
L20 TooLarge 160 128
L4 NoEntry
L1 DuplicateSymbol main
E2 NotElf five.s 0
words 3
";
    assert_eq!(rt; outside.out.as_slice(), text.as_slice());
    Ok(())
}

#[test]
fn tells_how_a_run_ended(rt: HostRuntime) -> Result<(), Fail> {
    let rows = [
        ("nop; heqi $3,0", "halt main+4\nsteps 3\n"),
        ("rdch $3,29", "starved\nsteps 2\n"),
        ("rdch $3,28", "bad-channel 28\nsteps 2\n"),
        ("brnz $75,main", "outside not-number main+0\nsteps 2\n"),
        ("stqd $3,-16($1)", "outside store main+0\nsteps 2\n"),
        (
            "wrch 16,$3; wrch 17,$3; wrch 18,$3; wrch 19,$3; wrch 20,$3; wrch 21,$3",
            "outside transfer main+20\nsteps 7\n",
        ),
        ("nop; nop", "outside end-of-code main+4\nsteps 3\n"),
        ("rdch $3,24; bi $0", "outside update main+0\nsteps 2\n"),
        (
            "il $3,5; wrch 28,$3; bi $1",
            "out 5\noutside target main+8\nsteps 4\n",
        ),
    ];
    for (lines, text) in rows {
        let mut outside = Outside::new(rt.alloc(), None, None)?;
        hold_main(&mut outside, rt.alloc(), "main", lines, "")?;
        assert_eq!(rt; outside.call(rt.alloc(), "check main.o")?, Status::Ended);
        assert_eq!(rt; outside.out.as_slice(), text.as_bytes(), "at {lines}");
    }
    Ok(())
}
