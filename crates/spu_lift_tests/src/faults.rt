//! Each fault of lifting at its first place, by objects made for each clause, and what just isn't a fault.
//!
//! Words of code: 35000000 is `bi $0`, 40200000 `nop`, 00200000 `lnop`, 32 `br` (00000080 is one word ahead), 30 `bra`,
//! 33 `brsl`, 31 `brasl`, 35200182 `bisl $2,$3`, 42 `ila`, 3080 `lqa`, 2080 `stqa`, 3380 `lqr`, 2380 `stqr`, 12 `hbrr`; 58800000
//! is a floating instruction, which isn't one here. Types of relocations: 2 Addr16, 5 Addr18, 6 Addr32, 7 Rel16.

use crate::listing::told;
use crate::made::objects;
use spu_lift::lift;
use spu_word::Seq;
use std::alloc::Global;
use std::process::Abort;
use std::test::Fail;

/// What lifting answers of the objects of a text with the entry `main`: `lifts`, or a fault.
fn expect(rt: &impl Abort, alloc: Global, text: &str, wanted: &str) -> Result<(), Fail> {
    let objects = objects(alloc, text).ok().ok_or("not valid")?;
    match lift(alloc, &objects, b"main") {
        Ok(_) => assert_eq!(rt; "lifts", wanted, "{text}"),
        Err(fault) => assert_eq!(rt; told(alloc, &fault)?.as_str(), wanted, "{text}"),
    }
    Ok(())
}

/// `bi $0` in `main`, and this behind it.
fn expect_more(rt: &impl Abort, alloc: Global, more: &str, wanted: &str) -> Result<(), Fail> {
    let main = "code .text 16 35000000; global main function 0 0 4";
    expect(
        rt,
        alloc,
        format!(in alloc; "{main}{more}")?.as_str(),
        wanted,
    )
}

#[test]
fn names_and_entries(rt: HostRuntime) -> Result<(), Fail> {
    for (more, wanted) in [
        (
            "; global x plain absolute 8 0; global x plain absolute 8 0",
            "DuplicateSymbol x",
        ),
        ("; global _start plain absolute 8 0", "ReservedName _start"),
        (
            "; global __image_ea plain absolute 8 0",
            "ReservedName __image_ea",
        ),
        (
            "; global __stack_ plain absolute 8 0",
            "ReservedName __stack_",
        ),
        (
            "; global __stack_x plain absolute 8 0",
            "ReservedName __stack_x",
        ),
        ("; global __stack plain absolute 8 0", "lifts"),
    ] {
        expect_more(&rt, rt.alloc(), more, wanted)?;
    }
    for (text, wanted) in [
        // the first undefined symbol by offset, at one offset the earlier one, and none of a hint
        (
            "code .text 16 35000000 42000003 42000003; global main function 0 0 12; global p plain undefined 0 0; \
             global q plain undefined 0 0; reloc 0 8 1 5 0; reloc 0 4 2 5 0",
            "UndefinedSymbol q",
        ),
        (
            "code .text 16 35000000 42000003; global main function 0 0 8; global p plain undefined 0 0; \
             global q plain undefined 0 0; reloc 0 4 1 5 0; reloc 0 4 2 5 0",
            "UndefinedSymbol p",
        ),
        (
            "code .text 16 12000000 35000000; global main function 0 0 8; global p plain undefined 0 0; reloc 0 0 1 99 0",
            "lifts",
        ),
        // entries that are local, or of no size
        (
            "code .text 16 35000000; local main function 0 0 4; global f function 0 0 4",
            "NoEntry",
        ),
        (
            "code .text 16 35000000; global main function 0 0 0",
            "NoEntry",
        ),
        ("", "NoEntry"),
    ] {
        expect(&rt, rt.alloc(), text, wanted)?;
    }
    let none = Seq::new(rt.alloc());
    let fault = lift(rt.alloc(), &none, b"main").err().ok_or("a fault")?;
    assert_eq!(rt; told(rt.alloc(), &fault)?.as_str(), "NoEntry");
    Ok(())
}

#[test]
fn alignments(rt: HostRuntime) -> Result<(), Fail> {
    for (more, wanted) in [
        ("; const .far 256", "Misaligned 0 .far 0"),
        ("; code .far 256", "Misaligned 0 .far 0"),
        ("; zero .far 256 0", "Misaligned 0 .far 0"),
        ("; const .near 128", "lifts"),
        // functions before the quadwords of named areas
        (
            "; vars .toe 16 0 0 0 0 0 0 0 0; code .more 16 35000000 35000000; global _EAR_a object 1 4 0; \
             global f function 2 2 4",
            "Misaligned 0 .more 2",
        ),
        (
            "; vars .toe 16 0 0 0 0 0 0 0 0; code .more 16 35000000 35000000; global _EAR_a object 1 4 0; \
             global f function 2 4 3",
            "Misaligned 0 .more 4",
        ),
        (
            "; vars .toe 16 0 0 0 0 0 0 0 0; global _EAR_a object 1 8 0",
            "Misaligned 0 .toe 8",
        ),
        (
            "; vars .toe 16 0 0 0 0 0 0 0; global _EAR_a object 1 16 0",
            "Misaligned 0 .toe 16",
        ),
        (
            "; vars .toe 16 0 0 0 0 0 0 0 0; global _EAR_a object 1 16 0",
            "lifts",
        ),
        (
            "; vars .data 16 0 0 0 0 0 0 0 0; global _EAR_a object 1 8 0",
            "lifts",
        ),
    ] {
        expect_more(&rt, rt.alloc(), more, wanted)?;
    }
    Ok(())
}

#[test]
fn extents(rt: HostRuntime) -> Result<(), Fail> {
    for (more, wanted) in [
        (
            "; code .more 16 40200000 00200000 0 35000000",
            "CodeOutsideFunction 0 .more 12",
        ),
        ("; code .more 16 40200000 00200000 0", "lifts"),
        (
            "; code .more 16 35000000 35000000 35000000 35000000 35000000; global f function 1 0 12; \
             global g function 1 8 8",
            "CodeOutsideFunction 0 .more 16",
        ),
        (
            "; code .more 16 35000000 35000000 35000000 35000000; global f function 1 0 12; global g function 1 8 8",
            "FunctionOverlap 0 .more 8",
        ),
        (
            "; code .more 16 35000000 35000000; global f function 1 0 8; global g function 1 0 8",
            "lifts",
        ),
        (
            "; code .more 16 35000000 35000000; global f function 1 0 4; global g function 1 0 8",
            "FunctionOverlap 0 .more 0",
        ),
    ] {
        expect_more(&rt, rt.alloc(), more, wanted)?;
    }
    Ok(())
}

/// What stands beside the code of `main`: data, more code, and behind `main` the number `x`, `d` of data, `c` in no function, `t`
/// at the start of `main`, and the function `f`.
const BESIDE: &str = "\
    vars .data 16 7 8 9 a; code .more 16 40200000 40200000 40200000 35000000; global main function 0 0 8; \
    global x plain absolute 8 0; global d object 1 4 4; global c plain 2 4 0; global t plain 0 0 0; global f function 2 8 8";

/// `main` has two words, and there are these relocations.
fn expect_words(
    rt: &impl Abort,
    alloc: Global,
    words: &str,
    relocs: &str,
    wanted: &str,
) -> Result<(), Fail> {
    let text = format!(in alloc; "code .text 16 {words}; {BESIDE}; {relocs}")?;
    expect(rt, alloc, text.as_str(), wanted)
}

#[test]
fn words(rt: HostRuntime) -> Result<(), Fail> {
    for (words, relocs, wanted) in [
        ("35000000 58800000", "", "UnknownInstruction main 4"),
        // to words by themselves
        ("35000000 32000080", "", "BadTarget main 4"),
        ("35000000 327fff00", "", "BadTarget main 4"),
        ("35000000 337fff80", "", "lifts"),
        ("35000000 33000000", "", "BadTarget main 4"),
        ("35000000 30000000", "", "BadTarget main 4"),
        // to a number, data, code in no function, a function's second word and its start
        ("35000000 31000000", "reloc 0 4 1 2 0", "BadTarget main 4"),
        ("35000000 32000000", "reloc 0 4 2 7 0", "BadTarget main 4"),
        ("35000000 32000000", "reloc 0 4 3 7 0", "BadTarget main 4"),
        ("35000000 32000000", "reloc 0 4 5 7 4", "BadTarget main 4"),
        ("35000000 32000000", "reloc 0 4 5 7 0", "lifts"),
        // calls that leave their links elsewhere
        (
            "35000000 33000005",
            "reloc 0 4 0 7 0",
            "LinkRegister main 4",
        ),
        ("35000000 35200182", "", "LinkRegister main 4"),
        (
            "35000000 31000001",
            "reloc 0 4 0 2 0",
            "LinkRegister main 4",
        ),
        // loads and stores of code, and of nothing
        ("35000000 30800003", "reloc 0 4 0 2 0", "ReadsCode main 4"),
        ("35000000 20800003", "reloc 0 4 0 2 0", "ReadsCode main 4"),
        ("35000000 33800003", "", "ReadsCode main 4"),
        ("35000000 23800003", "", "ReadsCode main 4"),
        (
            "30800003 23800003",
            "reloc 0 0 1 2 0; reloc 0 4 2 7 -8",
            "lifts",
        ),
    ] {
        expect_words(&rt, rt.alloc(), words, relocs, wanted)?;
    }
    Ok(())
}

#[test]
fn relocations(rt: HostRuntime) -> Result<(), Fail> {
    for (words, relocs, wanted) in [
        (
            "35000000 42000003",
            "reloc 0 4 1 1 0",
            "BadRelocation 0 .text 4",
        ),
        (
            "35000000 42000003",
            "reloc 0 4 1 2 0",
            "BadRelocation 0 .text 4",
        ),
        (
            "35000000 42000003",
            "reloc 0 4 1 6 0",
            "BadRelocation 0 .text 4",
        ),
        (
            "35000000 12000000",
            "reloc 0 2 1 5 0",
            "BadRelocation 0 .text 2",
        ),
        (
            "35000000 42000003",
            "reloc 1 4 2 5 0",
            "BadRelocation 0 .data 4",
        ),
        (
            "35000000 42000003",
            "reloc 0 4 1 5 0; reloc 0 4 2 5 0",
            "BadRelocation 0 .text 4",
        ),
        // a function with an addend, code in no function, no word
        (
            "35000000 32000000",
            "reloc 0 4 0 7 4",
            "CodeAddend 0 .text 4",
        ),
        (
            "35000000 42000003",
            "reloc 0 4 3 5 0",
            "CodeAddend 0 .text 4",
        ),
        (
            "35000000 42000003",
            "reloc 0 4 4 5 2",
            "CodeAddend 0 .text 4",
        ),
        (
            "35000000 42000003",
            "reloc 1 8 0 6 4",
            "CodeAddend 0 .data 8",
        ),
        ("35000000 42000003", "reloc 0 4 4 5 4", "lifts"),
    ] {
        expect_words(&rt, rt.alloc(), words, relocs, wanted)?;
    }
    Ok(())
}

#[test]
fn second_objects(rt: HostRuntime) -> Result<(), Fail> {
    for (more, wanted) in [
        (" / global main plain absolute 8 0", "DuplicateSymbol main"),
        (" / const .far 256", "Misaligned 1 .far 0"),
        (
            " / code .text 16 35000000 42000003; global g function 0 0 8; reloc 0 4 0 2 0",
            "BadRelocation 1 .text 4",
        ),
        (
            " / code .text 16 35000000 42000003; global g function 0 0 8; global main plain undefined 0 0; reloc 0 4 1 5 0",
            "lifts",
        ),
    ] {
        expect_more(&rt, rt.alloc(), more, wanted)?;
    }
    Ok(())
}
