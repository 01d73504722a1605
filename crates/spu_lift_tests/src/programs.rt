//! Programs that objects are lifted to, whole.

use crate::listing::listing;
use crate::made::objects;
use spu_lift::{LiftFault, Prog, lift};
use std::alloc::Global;
use std::test::Fail;

/// Two objects of code and of each kind of data. `main` is
///
///     ila $3,g; ilhu $4,h+32; iohl $4,main+20; brsl $0,f; brz $3,main+20; br main; br g; hbrr; lqa $3,e; stqr $3,d-140; bi $0
///
/// where the first `br` has no relocation, and that of the hint has no known type and a symbol that is defined nowhere. A `nop`
/// follows, and `f`, whose name a number has, too.
const OBJECTS: &str = "\
    code .text 16 42000003 41000004 60800004 33000000 20000003 327ffd80 32000000 12000000 30800003 23800003 35000000 \
        40200000 35000000; \
    vars .data 32 7 8 9 a b; zero .bss 64 8; vars .toe 16 0 0 0 0 0 0 0 0; code .none 128; \
    local - section 0 0 0; local alias function 0 0 44; local f function 0 48 4; local f plain 1 12 0; \
    global main function 0 0 44; global main2 function 0 0 44; global g plain undefined 0 0; global h plain undefined 0 0; \
    global nowhere plain undefined 0 0; global e object 2 8 0; global d object 1 4 8; global _EAR_in object 3 16 16; \
    reloc 0 0 6 5 0; reloc 0 4 7 3 32; reloc 0 8 0 4 20; reloc 0 12 2 7 0; reloc 0 16 0 7 20; reloc 0 24 6 7 0; \
    reloc 0 28 8 99 0; reloc 0 32 9 2 0; reloc 0 36 10 7 -140; reloc 1 4 6 6 0; reloc 1 8 10 6 0; reloc 1 16 0 6 48 / \
    code .text.g 4 40200000 35000000; const .rodata 8 1 2 3; vars .toe 128 0 0 0 0; \
    local - section 0 0 0; global g function 0 0 8; global h plain absolute 4294967280 0; global _EAR_ object 2 0 0; \
    reloc 1 4 0 6 4";

/// Their program: `.data` at 128, `.bss` at 192, `.toe` at 208, `.rodata` at 240, the second `.toe` at 256. `_EAR_` alone names
/// no area.
const PROGRAM: &str = "\
    _start false 0 0 taken\n  \
        Lqr 1 0 0 Number(272)\n  \
        Brsl 0 0 0 Call(1)\n  \
        Stop 0 0 8192 Plain\n\
    main true 0 0 taken 5\n  \
        Ila 3 0 0 Address(Fun(3))\n  \
        Ilhu 4 0 0 Number(16)\n  \
        Iohl 4 0 0 Address(Place(1, 5))\n  \
        Brsl 0 0 0 Call(2)\n  \
        Brz 3 0 0 Branch(5)\n  \
        Br 0 0 0 Branch(0)\n  \
        Br 0 0 0 Jump(3)\n  \
        Lnop 0 0 0 Plain\n  \
        Lqa 3 0 0 Number(200)\n  \
        Stqr 3 0 0 Number(4294967288)\n  \
        Bi 0 0 0 Plain\n\
    f false 0 48 taken\n  \
        Bi 0 0 0 Plain\n\
    g true 1 0 taken 1\n  \
        Nop 0 0 0 Plain\n  \
        Bi 0 0 0 Plain\n\
    taken 2 3\n\
    code .text 52\n\
    code .text.g 8\n\
    data 128 20 0000000700000000000000840000000a00000000\n  \
        4 Fun(3)\n  \
        16 Fun(2)\n\
    data 192 8 \n\
    data 208 32 0000000000000000000000000000000000000000000000000000000000000000\n\
    data 240 12 000000010000000000000003\n  \
        4 Place(3, 1)\n\
    data 256 16 00000000000000000000000000000000\n\
    area in 224\n\
    global e 200 0\n\
    global d 132 8\n\
    global _EAR_in 224 16\n\
    global _EAR_ 256 0\n\
    entry 1\n\
    end 272\n";

fn lifted(alloc: Global, text: &str, entry: &[u8]) -> Result<Prog, LiftFault> {
    let objects = objects(alloc, text)?;
    lift(alloc, &objects, entry)
}

#[test]
fn lifts_two_objects(rt: HostRuntime) -> Result<(), Fail> {
    let alloc = rt.alloc();
    for entry in [b"main".as_slice(), b"main2"] {
        let program = lifted(alloc, OBJECTS, entry).ok().ok_or("a program")?;
        assert_eq!(rt; listing(alloc, &program)?.as_str(), PROGRAM);
    }
    let program = lifted(alloc, OBJECTS, b"g").ok().ok_or("a program")?;
    assert_eq!(rt; program.entry, 3);
    Ok(())
}

/// `il $3,5; wrch $ch28,$3; bi $0` in `main`, without data.
const SMALL: &str = "code .text 8 40800283 21a00e03 35000000; global main function 0 0 12";

/// Its program.
const SMALL_PROGRAM: &str = "\
    _start false 0 0 taken\n  \
        Lqr 1 0 0 Number(128)\n  \
        Brsl 0 0 0 Call(1)\n  \
        Stop 0 0 8192 Plain\n\
    main true 0 0 taken\n  \
        Il 3 0 5 Plain\n  \
        Wrch 3 28 0 Plain\n  \
        Bi 0 0 0 Plain\n\
    taken\n\
    code .text 12\n\
    entry 1\n\
    end 128\n";

#[test]
fn lifts_a_program_without_data(rt: HostRuntime) -> Result<(), Fail> {
    let alloc = rt.alloc();
    let program = lifted(alloc, SMALL, b"main").ok().ok_or("a program")?;
    assert_eq!(rt; listing(alloc, &program)?.as_str(), SMALL_PROGRAM);
    Ok(())
}
