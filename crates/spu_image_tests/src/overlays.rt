//! The executable of a small program with overlays, word by word: `main` stays in the root, and calls a function in a region.

ghost use Rattle.std.specs.Prelude.{◌≡◌, length, IfOk};
ghost use Rattle.spu_lift.specs.WellFormed.{IsWellFormed};
ghost use Rattle.spu_plan.specs.Choices.{IsInput};
ghost use Rattle.spu_layout.specs.Planned.{IsInputOf};

use spu_elf::{Exec, SymKind, SymPlace, Symbol, is_same};
use spu_image::overlay_exec;
use spu_layout::{lay_out, section_sizes};
use spu_lift::Prog;
use spu_plan::{Mode, PlanInput, make_plan};
use spu_samples::{NONE, Step, program};
use spu_word::limits::STACK_TOP;
use spu_word::{OutOfMemory, Seq};
use std::alloc::Global;
use std::test::Fail;

/// The bytes of the stack.
const LIMIT: u32 = 16_384;

/// A frame, and a call of the second function.
const MAIN: &[Step] = &[
    Step::Add(1, -32),
    Step::Call(2),
    Step::Add(1, 32),
    Step::Return,
];

/// Three words, which are filled up to a quadword.
const CALLEE: &[Step] = &[Step::Load(3, 5), Step::Nothing, Step::Return];

/// The addresses of words of the root, and the words.
const ROOT: [(u32, u32); 58] = [
    // the start quadword and the start code
    (128, 0x0003_ffe0),
    (132, 0x0000_4000),
    (136, 0),
    (140, 0),
    (144, 0x33ff_fe01),
    (148, 0x3300_0180),
    (152, 0x0000_2000),
    (156, 0),
    // `main`, whose call goes by a stub
    (160, 0x1cf8_0081),
    (164, 0x3300_0380),
    (168, 0x1c08_0081),
    (172, 0x3500_0000),
    // its stub, and that of the function in the region
    (176, 0x4200_004e),
    (180, 0x0020_0000),
    (184, 0x4200_504f),
    (188, 0x3200_0280),
    (192, 0x4200_00ce),
    (196, 0x0020_0000),
    (200, 0x4201_404f),
    (204, 0x3200_0080),
    // those of the loader's words that depend on the layout, and its last one
    (208, 0x4201_3fcc),
    (220, 0x4201_424d),
    (228, 0x0f3c_a6cd),
    (236, 0x4200_f04c),
    (256, 0x3380_1e4c),
    (276, 0x1400_264c),
    (284, 0x4200_f04d),
    (320, 0x4201_104d),
    (460, 0x3f81_004e),
    (468, 0x327f_e700),
    (472, 0),
    (476, 0),
    // the mapped quadword, and the loader's three
    (480, 0),
    (484, 0),
    (488, 0),
    (492, 0),
    (496, 0x0000_01cc),
    (500, 0),
    (504, 0),
    (508, 0),
    (512, 0),
    (516, 0),
    (528, 0x0000_4000),
    (532, 0xffff_c000),
    (536, 0x0000_4000),
    (540, 0),
    // the table: an entry for the root, that of the region, and one that is left over
    (544, 0),
    (548, 0),
    (552, 0),
    (556, 0),
    (560, 0x0000_0280),
    (564, 0x0000_0010),
    (568, 0x0000_0280),
    (572, 0x0000_0001),
    (576, 0),
    (580, 0),
    (584, 0),
    (588, 0),
];

/// Those of the region.
const REGION: [(u32, u32); 4] = [
    (640, 0x4080_0283),
    (644, 0x4020_0000),
    (648, 0x3500_0000),
    (652, 0),
];

/// Of so many sections the first one is to stay in the root.
fn rooted(alloc: Global, count: usize) -> Result<Seq<bool>, OutOfMemory>
    ensures { IfOk result (λ flags. length flags ≡ count) }
{
    let mut flags = Seq::new(alloc);
    for k in 0..count {
        flags.push(k == 0)?;
    }
    Ok(flags)
}

/// What a plan with one buffer is made for.
fn plan_input(alloc: Global, p: &Prog) -> Result<PlanInput, OutOfMemory>
    requires { IsWellFormed p.now }
    ensures allowed { IfOk result IsInput }
    ensures of { IfOk result (IsInputOf p.now LIMIT) }
{
    let code = p.code.as_slice();
    Ok(PlanInput {
        sizes: section_sizes(alloc, code)?,
        rooted: rooted(alloc, code.len())?,
        data_end: p.data_end,
        functions: p.functions.len() as u32 - 1,
        room: STACK_TOP - LIMIT,
        mode: Mode::Always,
        buffers: 1,
        largest: 16_384,
    })
}

/// The executable of a program, None where it has no plan with overlays.
fn overlaid(alloc: Global, p: &Prog) -> Result<Option<Exec>, OutOfMemory>
    requires { IsWellFormed p.now }
{
    let input = plan_input(alloc, p)?;
    match make_plan(alloc, &input) {
        Ok(plan) => if plan.overlay {
            let layout = lay_out(alloc, p, &plan, LIMIT)?;
            Ok(Some(overlay_exec(alloc, p, &plan, &layout, LIMIT, &[])?))
        } else {
            Ok(None)
        },
        Err(_) => Ok(None),
    }
}

/// The word at an offset in bytes.
fn word(bytes: &[u8], at: u32) -> Option<u32> {
    let at = at as usize;
    match (
        bytes.get(at),
        bytes.get(at + 1),
        bytes.get(at + 2),
        bytes.get(at + 3),
    ) {
        (Some(a), Some(b), Some(c), Some(d)) => Some(u32::from_be_bytes([*a, *b, *c, *d])),
        _ => None,
    }
}

/// The value, the size and the segment of a global symbol with this name and kind.
fn told(symbol: &Symbol, name: &[u8], kind: SymKind) -> Option<(u32, u32, u32)> {
    match symbol.place {
        SymPlace::Inside(segment) => if is_same(symbol.name.as_slice(), name)
            && symbol.kind == kind
            && symbol.global
        {
            Some((symbol.value, symbol.size, segment))
        } else {
            None
        },
        SymPlace::Undefined | SymPlace::Absolute => None,
    }
}

#[test]
fn a_region_is_called(rt: HostRuntime) -> Result<(), Fail> {
    let prog = program(rt.alloc(), &[MAIN, CALLEE], NONE)?.ok_or("not well formed")?;
    let exec = overlaid(rt.alloc(), &prog)?.ok_or("no plan with overlays")?;
    assert_eq!(rt; exec.entry, 144);
    match exec.segments.as_slice() {
        [root, region] => {
            assert_eq!(rt;
                (root.address, root.overlay, root.bytes.len()),
                (128, false, 464)
            );
            for (at, w) in ROOT {
                assert_eq!(rt;
                    word(root.bytes.as_slice(), at.saturating_sub(128)),
                    Some(w),
                    "at {at}"
                );
            }
            assert_eq!(rt;
                (region.address, region.overlay, region.bytes.len()),
                (640, true, 16)
            );
            for (at, w) in REGION {
                assert_eq!(rt;
                    word(region.bytes.as_slice(), at.saturating_sub(640)),
                    Some(w),
                    "at {at}"
                );
            }
        }
        _ => return Err("not two segments".into()),
    }
    match exec.symbols.as_slice() {
        [image, main, callee] => {
            assert_eq!(rt;
                told(image, b"__image_ea", SymKind::Object),
                Some((512, 16, 0))
            );
            assert_eq!(rt; told(main, b"main", SymKind::Function), Some((160, 16, 0)));
            assert_eq!(rt; told(callee, b"a", SymKind::Function), Some((640, 12, 1)));
        }
        _ => return Err("not three symbols".into()),
    }
    Ok(())
}
