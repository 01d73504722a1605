use spu_cesof::*;
use spu_elf::{Exec, Segment, SymKind, SymPlace, Symbol, is_name, write_exec};
use spu_word::{Bytes, OutOfMemory, Seq};
use std::alloc::Global;
use std::process::Abort;
use std::test::Fail;

/// An executable of two segments with the entries `a` and `bc`, embedded as `h` by another writer. The
/// file lies at 128, the table at 784, the handle at 816, their relocations at 828 and 852, the symbols
/// at 876, their names at 988, the names of sections at 996, and the section headers at 1108.
const EMBEDDED: &str = "\
    7f454c460102010000000000000000000001001400000001000000000000000000000454000000000034000000000028\
    000900080000000000000000000000000000000000000000000000000000000000000000000000000000000000000000\
    00000000000000000000000000000000000000000000000000000000000000007f454c46010201000000000000000000\
    00020017000000010000008000000034000001a000000000003400200002002800060005000000010000008000000080\
    000000800000001000000010000000070000008000000001000001000000020000000200000000100000001008000005\
    00000080000000000000000000000000000102030405060708090a0b0c0d0e0f00000000000000000000000000000000\
    000000000000000000000000000000000000000000000000000000000000000000000000000000000000000000000000\
    000000000000000000000000000000000000000000000000000000000000000000000000000000000000000000000000\
    101112131415161718191a1b1c1d1e1f0000000000000000000000000000000000000001000000800000000802000001\
    000000040000008000000010110000010000000b0000020000000004110000020000001300000001000000021100fff1\
    00676f005f4541525f61005f4541525f6263005f4541525f00002e726f6f74002e7231002e73796d746162002e737472\
    746162002e73687374727461620000000000000000000000000000000000000000000000000000000000000000000000\
    000000000000000000000001000000010000000700000080000000800000001000000000000000000000008000000000\
    000000070000000100000006000002000000010000000010000000000000000000000080000000000000000b00000002\
    000000000000000000000110000000500000000400000002000000040000001000000013000000030000000000000000\
    0000016000000019000000000000000000000001000000000000001b0000000300000000000000000000017900000025\
    000000000000000000000001000000000000000000000000000000000000000000000000000000000000000000000000\
    0000000c0000000000000000000000040000050100000000000000140000060100000000000000040000010100000000\
    000000080000020100000000000000000000000000000000000000000000000000000000000000000300000100000000\
    0000000000000000030000020000000000000000000000000300000300000001000000000000000c1100000300000003\
    000000000000000010000000000000050000000000000000100000000068006100626300002e726f646174612e737065\
    656c66002e646174612e737065746f65002e646174612e73706568616e646c65002e72656c612e646174612e73706574\
    6f65002e72656c612e646174612e73706568616e646c65002e73796d746162002e737472746162002e73687374727461\
    620000000000000000000000000000000000000000000000000000000000000000000000000000000000000000000001\
    000000010000000200000000000000800000029000000000000000000000008000000000000000100000000100000003\
    000000000000031000000020000000000000000000000010000000000000001d00000001000000030000000000000330\
    0000000c000000000000000000000004000000000000002d0000000400000000000000000000033c0000001800000006\
    00000002000000040000000c0000003f0000000400000000000000000000035400000018000000060000000300000004\
    0000000c000000540000000200000000000000000000036c00000070000000070000000400000004000000100000005c\
    000000030000000000000000000003dc0000000800000000000000000000000100000000000000640000000300000000\
    00000000000003e40000006e00000000000000000000000100000000";

/// Rows have an offset in that object, the byte that is put there, the number of the fault that
/// follows, and its place.
const FAULTS: &str = "\
    0 1 1 0; 4 2 1 4; 15 1 1 15; 17 2 1 16; 19 23 1 18; 27 1 1 24; 43 32 1 42; 49 7 1 48; 51 7 1 50; \
    35 0 1 1024; 52 1 1 52; 1150 1 1 1148; 1171 1 1 1204; 1211 33 1 1208; 1211 0 1 1208; 1331 1 1 1328; \
    1375 5 1 1372; 1379 5 1 1376; 1451 1 1 1448; 876 1 1 876; 892 1 1 892; 904 2 1 904; 943 2 1 940; \
    956 17 1 956; 988 1 1 988; 989 0 1 940; 989 32 1 989; 997 0 1 997; 1106 1 1 1106; 147 20 1 146; \
    819 13 2 819; 827 1 2 827; 858 2 2 858; 800 1 3 800; 834 6 3 834; 991 98 3 991; 994 100 3 994; \
    460 16 3 1208";

/// Rows have two offsets in that object with the bytes that are put there, the number of the fault that
/// comes first, and its place.
const ORDERS: &str = "\
    147 20 819 13 1 146; 819 13 800 1 2 819; 800 1 834 6 3 800; 834 6 991 98 3 834; \
    1379 5 876 1 1 876; 1379 5 989 32 1 1376; 1379 5 1451 1 1 1448; 52 1 876 1 1 52; \
    52 1 1451 1 1 1448; 1411 0 1411 0 1 1408; 995 120 995 120 1 996; 1411 9 1411 9 1 1444; \
    49 8 49 8 1 50; 49 8 51 7 1 1208; 49 10 49 10 1 48; 17 2 19 21 1 18; 7 1 8 1 1 7; \
    460 16 991 98 3 991; 147 20 1467 1 1 1464; 995 120 988 1 1 996; 989 32 956 17 1 956; \
    867 3 856 1 2 856";

/// The bytes of each segment but the last of a large executable.
const LARGE_SIZE: usize = 262_016;

/// A symbol of the executable.
fn symbol(
    alloc: Global,
    name: &[u8],
    value: u32,
    size: u32,
    kind: SymKind,
    place: SymPlace,
) -> Result<Symbol, OutOfMemory> {
    Ok(Symbol {
        name: Seq::copied(alloc, name)?,
        value,
        size,
        kind,
        global: kind == SymKind::Object,
        place,
    })
}

/// A segment of the executable, whose bytes count up from `from`.
fn segment(alloc: Global, address: u32, overlay: bool, from: u8) -> Result<Segment, OutOfMemory> {
    let mut bytes = Seq::new(alloc);
    for k in 0..16 {
        bytes.push(from % 100 + k)?;
    }
    Ok(Segment {
        address,
        overlay,
        bytes,
    })
}

/// The executable of `EMBEDDED`.
fn executable(alloc: Global) -> Result<Exec, OutOfMemory> {
    let mut segments = Seq::new(alloc);
    segments.push(segment(alloc, 128, false, 0)?)?;
    segments.push(segment(alloc, 512, true, 16)?)?;
    let mut symbols = Seq::new(alloc);
    let (function, object) = (SymKind::Function, SymKind::Object);
    symbols.push(symbol(alloc, b"go", 128, 8, function, SymPlace::Inside(0))?)?;
    symbols.push(symbol(alloc, b"_EAR_a", 128, 16, object, SymPlace::Inside(0))?)?;
    symbols.push(symbol(alloc, b"_EAR_bc", 512, 4, object, SymPlace::Inside(1))?)?;
    symbols.push(symbol(alloc, b"_EAR_", 1, 2, object, SymPlace::Absolute)?)?;
    Ok(Exec {
        entry: 128,
        segments,
        symbols,
    })
}

/// The value of a hexadecimal digit.
fn digit(c: u8) -> u8 {
    match c {
        b'0'..=b'9' => c - b'0',
        b'a'..=b'f' => c - b'a' + 10,
        _ => 0,
    }
}

/// The bytes of a text of hexadecimal digits.
fn bytes_of(alloc: Global, text: &str) -> Result<Bytes, OutOfMemory> {
    let mut bytes = Seq::new(alloc);
    for pair in text.as_bytes().chunks(2) {
        match pair {
            [high, low] => bytes.push(digit(*high) % 16 * 16 + digit(*low) % 16)?,
            _ => {}
        }
    }
    Ok(bytes)
}

/// An executable, whose file this is to be, embedded as `h`.
fn embedded(alloc: Global, x: &Exec, file: &[u8]) -> Option<Bytes> {
    if !is_name(b"h") || !x.valid() {
        return None;
    }
    let copy = write_exec(alloc, x).ok()?;
    if copy.as_slice() != file {
        return None;
    }
    embed(alloc, b"h", x, copy.as_slice()).ok()
}

#[test]
fn embeds_and_unpacks(rt: HostRuntime) -> Result<(), Fail> {
    let alloc = rt.alloc();
    let x = executable(alloc).ok().ok_or("memory")?;
    let expected = bytes_of(alloc, EMBEDDED).ok().ok_or("memory")?;
    let whole = expected.as_slice();
    assert!(rt; whole.len() == 1468);
    let file = &whole[128..784];
    let object = embedded(alloc, &x, file).ok_or("no executable")?;
    let back = unpack(alloc, object.as_slice()).ok().ok_or("a fault")?;
    assert!(rt; object.as_slice() == whole);
    assert!(rt; back.as_slice() == file);
    Ok(())
}

/// The number and the place of the fault of an object, 100 where it has none.
fn faulted(alloc: Global, object: &[u8]) -> [u64; 2] {
    match unpack(alloc, object) {
        Ok(_) => [100, 0],
        Err(CesofFault::NotCesof(place)) => [1, place],
        Err(CesofFault::BadHandle(place)) => [2, place],
        Err(CesofFault::BadToe(place)) => [3, place],
        Err(CesofFault::TooLarge(size)) => [4, size],
        Err(CesofFault::OutOfMemory) => [0, 0],
    }
}

/// The numbers of a text.
fn numbers_of(alloc: Global, text: &str) -> Result<Seq<u64>, OutOfMemory> {
    let mut numbers = Seq::new(alloc);
    for word in text.split_whitespace() {
        numbers.push(word.trim_end_matches(';').parse::<u64>().unwrap_or(0))?;
    }
    Ok(numbers)
}

/// The object with another byte at an offset.
fn changed(alloc: Global, object: &[u8], at: u64, byte: u64) -> Result<Bytes, OutOfMemory> {
    let mut other = Seq::copied(alloc, object)?;
    if at < other.len() as u64 {
        other.set(at as usize, (byte % 256) as u8);
    }
    Ok(other)
}

/// Each row's byte makes its fault.
fn check_rows(rt: &impl Abort, alloc: Global, object: &[u8]) -> Result<(), OutOfMemory> {
    for row in numbers_of(alloc, FAULTS)?.as_slice().chunks(4) {
        if let [at, byte, number, place] = row {
            let other = changed(alloc, object, *at, *byte)?;
            assert_eq!(rt;
                faulted(alloc, other.as_slice()),
                [*number, *place],
                "at {at}"
            );
        }
    }
    Ok(())
}

/// Each row's two bytes make its fault.
fn check_orders(rt: &impl Abort, alloc: Global, object: &[u8]) -> Result<(), OutOfMemory> {
    for row in numbers_of(alloc, ORDERS)?.as_slice().chunks(6) {
        if let [one, first, other, second, number, place] = row {
            let half = changed(alloc, object, *one, *first)?;
            let both = changed(alloc, half.as_slice(), *other, *second)?;
            assert_eq!(rt;
                faulted(alloc, both.as_slice()),
                [*number, *place],
                "at {one} and {other}"
            );
        }
    }
    Ok(())
}

#[test]
fn judges_in_order(rt: HostRuntime) -> Result<(), Fail> {
    let alloc = rt.alloc();
    let mut object = bytes_of(alloc, EMBEDDED).ok().ok_or("memory")?;
    check_orders(&rt, alloc, object.as_slice())
        .ok()
        .ok_or("memory")?;
    object.push(0).ok().ok_or("memory")?;
    assert_eq!(rt; faulted(alloc, object.as_slice()), [1, 1468]);
    Ok(())
}

#[test]
fn names_the_first_fault(rt: HostRuntime) -> Result<(), Fail> {
    let alloc = rt.alloc();
    let object = bytes_of(alloc, EMBEDDED).ok().ok_or("memory")?;
    check_rows(&rt, alloc, object.as_slice())
        .ok()
        .ok_or("memory")?;
    assert_eq!(rt; CesofFault::BadToe(7).number(), 3);
    assert_eq!(rt; CesofFault::BadToe(7).name(), "BadToe");
    Ok(())
}

#[test]
fn answers_each_cut_and_each_byte(rt: HostRuntime) -> Result<(), Fail> {
    let alloc = rt.alloc();
    let object = bytes_of(alloc, EMBEDDED).ok().ok_or("memory")?;
    let whole = object.as_slice();
    for at in 0..whole.len() {
        assert_eq!(rt; faulted(alloc, &whole[..at]), [1, at as u64]);
        let other = changed(alloc, whole, at as u64, 255).ok().ok_or("memory")?;
        let [number, place] = faulted(alloc, other.as_slice());
        assert!(rt; number != 0, "memory at {at}");
        assert!(rt; place <= whole.len() as u64, "{place} at {at}");
    }
    Ok(())
}

/// An executable of sixteen segments of zeros, whose last has this size.
fn large(alloc: Global, last: usize) -> Result<Exec, OutOfMemory> {
    let mut segments = Seq::new(alloc);
    for k in 0..16u32 {
        let mut bytes = Seq::new(alloc);
        bytes.extend_zeros(if k < 15 { LARGE_SIZE } else { last })?;
        segments.push(Segment {
            address: 128,
            overlay: k > 0,
            bytes,
        })?;
    }
    Ok(Exec {
        entry: 128,
        segments,
        symbols: Seq::new(alloc),
    })
}

/// The number of the answer of `embed`, 100 where there is an object that gives the file again, and its size.
fn embedded_size(alloc: Global, last: usize) -> Option<[u64; 2]> {
    let x = large(alloc, last).ok()?;
    if !is_name(b"h") || !x.valid() {
        return None;
    }
    let file = write_exec(alloc, &x).ok()?;
    match embed(alloc, b"h", &x, file.as_slice()) {
        Ok(object) => {
            let back = unpack(alloc, object.as_slice()).ok()?;
            let same = back.as_slice() == file.as_slice();
            Some([if same { 100 } else { 0 }, object.len() as u64])
        }
        Err(CesofFault::TooLarge(size)) => Some([4, size]),
        Err(_) => Some([0, 0]),
    }
}

#[test]
fn refuses_a_large_executable(rt: HostRuntime) -> Result<(), Fail> {
    assert_eq!(rt; embedded_size(rt.alloc(), 261_824), Some([100, 4_194_292]));
    assert_eq!(rt; embedded_size(rt.alloc(), 261_840), Some([4, 4_194_308]));
    Ok(())
}
