//! Loads with entries, areas and overlays.

ghost use Rattle.std.specs.Prelude.{◌≡◌, ◌≤◌, length, IfOk};
ghost use Rattle.spu_word.specs.declared.limits.TheConstants.{MAX_AREAS};
ghost use Rattle.spu_ls.specs.View.{state_of};

use crate::running::{IMAGE, bytes_of, image, load};
use spu_elf::{Exec, Segment, SymKind, SymPlace, Symbol};
use spu_ls::{Machine, RunEnd};
use spu_word::{LoadFault, OutOfMemory, Seq};
use std::alloc::Global;
use std::test::Fail;

/// The words 0 to 2 of the quadword at 224 are sent, and the words 0 and 1 of that at 240.
const SHOWS: [u32; 24] = [
    0x3080_1c03,
    0x3f80_0184,
    0x21a0_0e04,
    0x3f81_0184,
    0x21a0_0e04,
    0x3f82_0184,
    0x21a0_0e04,
    0x3080_1e03,
    0x3f80_0184,
    0x21a0_0e04,
    0x3f81_0184,
    0x21a0_0e04,
    0x0000_0005,
    0,
    0,
    0,
    0x0100_0000,
    0x0200_0000,
    0x0300_0000,
    0x0400_0000,
    0x0500_0000,
    0x0600_0000,
    0x0700_0000,
    0x0800_0000,
];

/// A symbol of the load segment.
fn symbol(
    alloc: Global,
    (name, value, kind, global): (&[u8], u32, SymKind, bool),
) -> Result<Symbol, OutOfMemory> {
    Ok(Symbol {
        name: Seq::copied(alloc, name)?,
        value,
        size: 16,
        kind,
        global,
        place: SymPlace::Inside(0),
    })
}

/// The image of `SHOWS` with these symbols, and overlays of a quadword at these addresses.
fn shows(
    alloc: Global,
    symbols: &[(&[u8], u32, SymKind, bool)],
    overlays: &[u32],
) -> Result<Exec, &'static str> {
    let mut x = image(alloc, &SHOWS)?;
    for row in symbols {
        let s = symbol(alloc, *row).ok().ok_or("memory")?;
        x.symbols.push(s).ok().ok_or("memory")?;
    }
    for address in overlays {
        let overlay = Segment {
            address: *address,
            overlay: true,
            bytes: bytes_of(alloc, &[0, 0, 0, 0]).ok().ok_or("memory")?,
        };
        x.segments.push(overlay).ok().ok_or("memory")?;
    }
    Ok(x)
}

const QUAD: [u8; 16] = [0; 16];

/// So many zeros.
fn zeros(alloc: Global, size: usize) -> Result<Seq<u8>, OutOfMemory> {
    let mut bytes = Seq::new(alloc);
    bytes.extend_zeros(size)?;
    Ok(bytes)
}

#[test]
fn quadwords_filled_in(rt: HostRuntime) -> Result<(), Fail> {
    let symbols = [
        (b"_EAR_d".as_slice(), 160, SymKind::Object, false),
        (b"_EAR_b".as_slice(), 224, SymKind::Object, true),
        (b"__image_ea".as_slice(), 240, SymKind::Object, true),
    ];
    let x = shows(rt.alloc(), &symbols, &[])?;
    let areas: [(u64, &[u8]); 2] = [(4096, &QUAD), (0x3_0000_0040, &QUAD)];
    let mut m = load(rt.alloc(), &x, &[], &areas).ok().ok_or("load")?;
    assert_eq!(rt; m.run(1000), RunEnd::Stop(5));
    assert_eq!(rt; m.output(), [3, 0x40, 16, 1, 0x4000_0000].as_slice());
    Ok(())
}

/// Two entries, of which the second is filled in over the first, and then the place of the file over it; symbols that are no entries;
/// an overlay over code, which isn't loaded; and sixteen areas, of which one has as many bytes as it can.
#[test]
fn entries_in_order(rt: HostRuntime) -> Result<(), Fail> {
    let symbols = [
        (b"_EAR_d".as_slice(), 160, SymKind::Object, false),
        (b"_EAR_a".as_slice(), 224, SymKind::Object, true),
        (b"_EAR_b".as_slice(), 232, SymKind::Object, true),
        (b"__image_ea".as_slice(), 240, SymKind::Object, true),
        (b"__image_ea".as_slice(), 160, SymKind::Object, true),
        (b"_EAR_c".as_slice(), 160, SymKind::Plain, true),
        (b"_EAR_".as_slice(), 160, SymKind::Object, true),
    ];
    let x = shows(rt.alloc(), &symbols, &[160])?;
    let long = zeros(rt.alloc(), 65_536)?;
    let areas: [(u64, &[u8]); 16] = [
        (4096, &QUAD),
        (4112, &QUAD),
        (65_536, long.as_slice()),
        (4128, &QUAD),
        (4144, &QUAD),
        (4160, &QUAD),
        (4176, &QUAD),
        (4192, &QUAD),
        (4208, &QUAD),
        (4224, &QUAD),
        (4240, &QUAD),
        (4256, &QUAD),
        (4272, &QUAD),
        (4288, &QUAD),
        (4304, &QUAD),
        (0xffff_ffff_ffff_fff0, &QUAD),
    ];
    let mut m = load(rt.alloc(), &x, &[], &areas).ok().ok_or("load")?;
    assert_eq!(rt; m.run(1000), RunEnd::Stop(5));
    assert_eq!(rt; m.output(), [0, 4096, 0, 1, 0x4000_0000].as_slice());
    assert_eq!(rt; m.areas().len(), 16);
    Ok(())
}

/// The number of a refusal, M1 to M4, else 0.
fn number(answer: &Result<Machine, LoadFault>) -> u32 {
    match answer {
        Err(LoadFault::UnresolvedName(_name)) => 1,
        Err(LoadFault::AreasOverlap(_name)) => 2,
        Err(LoadFault::AreaRange(_name)) => 3,
        Err(LoadFault::SegmentRange(_index)) => 4,
        Err(LoadFault::OutOfMemory) | Ok(_) => 0,
    }
}

/// The name that a refusal tells.
fn told(answer: &Result<Machine, LoadFault>) -> &[u8] {
    match answer {
        Err(LoadFault::UnresolvedName(name)) => name.as_slice(),
        Err(LoadFault::AreasOverlap(name)) => name.as_slice(),
        Err(LoadFault::AreaRange(name)) => name.as_slice(),
        Err(LoadFault::SegmentRange(_)) | Err(LoadFault::OutOfMemory) | Ok(_) => &[],
    }
}

/// The index that a refusal tells.
fn index(answer: &Result<Machine, LoadFault>) -> Option<u32> {
    match answer {
        Err(LoadFault::SegmentRange(k)) => Some(*k),
        Err(LoadFault::UnresolvedName(_))
        | Err(LoadFault::AreasOverlap(_))
        | Err(LoadFault::AreaRange(_))
        | Err(LoadFault::OutOfMemory)
        | Ok(_) => None,
    }
}

#[test]
fn refused_areas(rt: HostRuntime) -> Result<(), Fail> {
    let longest = zeros(rt.alloc(), 65_536)?;
    let too_long = zeros(rt.alloc(), 65_537)?;
    let rows: [([(u64, &[u8]); 2], u32, &[u8]); 9] = [
        ([(4096, &QUAD), (4104, &QUAD)], 2, b"b"),
        ([(4096, &QUAD), (IMAGE + 16, &QUAD)], 2, b"b"),
        ([(4096, &QUAD), (4120, &QUAD)], 3, b"b"),
        ([(4096, &[]), (4112, &QUAD)], 3, b"a"),
        (
            [(65_536, longest.as_slice()), (131_072, too_long.as_slice())],
            3,
            b"b",
        ),
        ([(4096, &QUAD), (0xffff_ffff_ffff_fff0, &[0; 32])], 3, b"b"),
        ([(4112, &[]), (4096, &[0; 32])], 3, b"a"),
        ([(4096, &[0; 32]), (4112, &[])], 3, b"b"),
        ([(4096, &QUAD), (4096, &QUAD)], 2, b"b"),
    ];
    let x = shows(rt.alloc(), &[], &[])?;
    for (areas, fault, name) in rows {
        let answer = load(rt.alloc(), &x, &[], &areas);
        assert_eq!(rt; number(&answer), fault);
        assert_eq!(rt; told(&answer), name);
    }
    Ok(())
}

#[test]
fn refused_entries(rt: HostRuntime) -> Result<(), Fail> {
    let rows: [(&[u8], u32, u32, &[u8], Option<u32>); 4] = [
        (b"_EAR_c", 224, 1, b"c", None),
        (b"_EAR_a", 256, 4, b"", Some(0)),
        (b"_EAR_a", 112, 4, b"", Some(0)),
        (b"__image_ea", 242, 4, b"", Some(0)),
    ];
    for (name, value, fault, told_name, segment) in rows {
        let x = shows(rt.alloc(), &[(name, value, SymKind::Object, true)], &[])?;
        let answer = load(rt.alloc(), &x, &[], &[(4096, &QUAD)]);
        assert_eq!(rt; number(&answer), fault);
        assert_eq!(rt; told(&answer), told_name);
        assert_eq!(rt; index(&answer), segment);
    }
    Ok(())
}

#[test]
fn segments_outside(rt: HostRuntime) -> Result<(), Fail> {
    let rows: [(&[u32], u32); 2] = [(&[264], 1), (&[262_128, 262_144, 8], 2)];
    for (overlays, segment) in rows {
        let x = shows(rt.alloc(), &[], overlays)?;
        let answer = load(rt.alloc(), &x, &[], &[]);
        assert_eq!(rt; index(&answer), Some(segment));
    }
    Ok(())
}
