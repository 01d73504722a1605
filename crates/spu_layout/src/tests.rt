//! The layouts of a small program, flat and with overlays, whole.

ghost use Rattle.std.specs.Prelude.{◌≡◌, IfOk};
ghost use Rattle.spu_lift.specs.StartCode.{of_register};
ghost use Rattle.spu_layout.specs.PlannedSamples.{sample_layout, sample_made};
ghost use Rattle.spu_layout.specs.Samples.{flat_sample, function_in, sample};
ghost use Rattle.spu_layout.specs.Views.{function_count, layout_in};

use super::*;
use spu_isa::{Inst, Op};
use spu_lift::{CodeSection, Function, Label, NORMAL_END, Operand, Part, Prog, SymInst};
use spu_plan::{Plan, flat_plan};
use spu_word::{OutOfMemory, Seq};
use std::alloc::Global;
use std::test::Fail;

/// Does nothing.
const NOP: SymInst = SymInst {
    inst: Inst {
        op: Op::Nop,
        rt: 0,
        ra: 0,
        rb: 0,
        rc: 0,
        imm: 0,
    },
    operand: Operand::Plain,
};

/// An instruction of one register and one immediate field.
fn symbolic(op: Op, rt: u8, imm: i32, operand: Operand) -> SymInst
    ensures { result ≡ record { inst = of_register op rt imm; operand = operand } }
{
    SymInst {
        inst: Inst {
            op,
            rt,
            ra: 0,
            rb: 0,
            rc: 0,
            imm,
        },
        operand,
    }
}

/// These instructions.
fn copied(alloc: Global, code: &[SymInst]) -> Result<Seq<SymInst>, OutOfMemory>
    ensures { IfOk result (λ c. c ≡ code.now) }
{
    let mut copy = Seq::new(alloc);
    for x in code {
        copy.push(*x)?;
    }
    Ok(copy)
}

/// A function of these instructions, at an offset in a section.
fn function(
    alloc: Global,
    name: &[u8],
    section: u32,
    offset: u32,
    code: &[SymInst],
) -> Result<Function, OutOfMemory>
    ensures { IfOk result (λ f. f ≡ function_in name.now section offset code.now) }
{
    Ok(Function {
        name: Seq::copied(alloc, name)?,
        global: false,
        section,
        offset,
        code: copied(alloc, code)?,
        taken: Seq::new(alloc),
    })
}

/// The program: a start code, two functions in one section, and one in each of two others, behind 32 bytes of data.
fn sample(alloc: Global) -> Result<Prog, OutOfMemory>
    ensures { IfOk result (λ p. p ≡ sample) }
{
    let start = [
        symbolic(Op::Lqr, 1, 0, Operand::Number(160)),
        symbolic(Op::Brsl, 0, 0, Operand::Call(1)),
        symbolic(Op::Stop, 0, NORMAL_END as i32, Operand::Plain),
    ];
    let mut functions = Seq::new(alloc);
    functions.push(function(alloc, b"_start", 0, 0, &start)?)?;
    functions.push(function(alloc, b"main", 0, 0, &[NOP, NOP, NOP])?)?;
    functions.push(function(alloc, b"first", 0, 12, &[NOP, NOP])?)?;
    functions.push(function(alloc, b"second", 1, 4, &[NOP])?)?;
    functions.push(function(alloc, b"third", 2, 0, &[NOP, NOP, NOP, NOP])?)?;
    let mut code = Seq::new(alloc);
    code.push(CodeSection {
        name: Seq::copied(alloc, b"a")?,
        size: 20,
    })?;
    code.push(CodeSection {
        name: Seq::copied(alloc, b"b")?,
        size: 8,
    })?;
    code.push(CodeSection {
        name: Seq::copied(alloc, b"c")?,
        size: 16,
    })?;
    let mut parts = Seq::new(alloc);
    parts.push(Part {
        address: 128,
        size: 32,
        bytes: Seq::new(alloc),
        labels: Seq::new(alloc),
    })?;
    Ok(Prog {
        functions,
        code,
        parts,
        taken: Seq::new(alloc),
        entry: 1,
        ears: Seq::new(alloc),
        globals: Seq::new(alloc),
        data_end: 160,
    })
}

/// Its layout by the flat plan.
#[tactic(auto, using(crate::proofs::SampleFormed::sample_formed, crate::proofs::SampleFormed::sample_fits))]
fn laid(alloc: Global) -> Result<Layout, OutOfMemory>
    ensures layout { IfOk result (λ l. layout_in l ≡ flat_sample) }
    ensures functions { IfOk result (λ l. function_count l ≡ 5) }
{
    let p = sample(alloc)?;
    let sizes = section_sizes(alloc, p.code.as_slice())?;
    let plan = flat_plan(alloc, 160, sizes.as_slice())?;
    lay_out(alloc, &p, &plan, 4096)
}

/// Where its functions begin, and the second word of the third.
fn addresses(l: &Layout) -> [u32; 6]
    requires laid { layout_in l.now ≡ flat_sample }
    requires functions { function_count l.now ≡ 5 }
{
    [
        l.address(0, 0),
        l.address(1, 0),
        l.address(2, 0),
        l.address(3, 0),
        l.address(4, 0),
        l.address(2, 1),
    ]
}

#[test]
fn lays_out_the_whole(rt: HostRuntime) -> Result<(), Fail> {
    let layout = laid(rt.alloc())?;
    assert_eq!(rt; addresses(&layout), [176, 192, 204, 228, 240, 208]);
    assert_eq!(rt;
        layout.areas(),
        Areas {
            data_area: Span { from: 128, to: 160 },
            code: Span { from: 160, to: 256 },
            buffer: Span { from: 256, to: 256 },
            stack: Span {
                from: 258_016,
                to: 262_144
            },
        }
    );
    Ok(())
}

/// The plan that is made for it with two buffers of 1,024 bytes: the second and third section share a region.
fn made(alloc: Global) -> Result<Plan, OutOfMemory>
    ensures { IfOk result (λ plan. plan ≡ sample_made) }
{
    let mut region_of = Seq::new(alloc);
    region_of.push(0)?;
    region_of.push(1)?;
    region_of.push(1)?;
    Ok(Plan {
        overlay: true,
        buffer: 1_024,
        regions: 1,
        region_of,
        end: 2_816,
        buffers: 2,
    })
}

/// Its layout by that plan.
#[tactic(auto, using(crate::proofs::SampleFormed::sample_formed, crate::proofs::PlannedSamples::sample_has_plan))]
fn overlaid(alloc: Global) -> Result<Layout, OutOfMemory>
    ensures layout { IfOk result (λ l. layout_in l ≡ sample_layout) }
    ensures functions { IfOk result (λ l. function_count l ≡ 5) }
{
    let p = sample(alloc)?;
    let plan = made(alloc)?;
    lay_out(alloc, &p, &plan, 4096)
}

/// Where its functions begin, and a word of the last.
fn overlaid_addresses(l: &Layout) -> [u32; 6]
    requires laid { layout_in l.now ≡ sample_layout }
    requires functions { function_count l.now ≡ 5 }
{
    [
        l.address(0, 0),
        l.address(1, 0),
        l.address(2, 0),
        l.address(3, 0),
        l.address(4, 0),
        l.address(4, 3),
    ]
}

/// Their regions.
fn overlaid_regions(l: &Layout) -> [u32; 5]
    requires { function_count l.now ≡ 5 }
{
    [
        l.region(0),
        l.region(1),
        l.region(2),
        l.region(3),
        l.region(4),
    ]
}

/// What labels stand for: of functions in the root and in a region, a place in the region, and links into both.
fn overlaid_codes(l: &Layout) -> [u32; 5]
    requires laid { layout_in l.now ≡ sample_layout }
    requires functions { function_count l.now ≡ 5 }
{
    [
        l.code(Label::Fun(1)),
        l.code(Label::Fun(4)),
        l.code(Label::Place(4, 1)),
        l.code(Label::Link(1, 2)),
        l.code(Label::Link(3, 1)),
    ]
}

/// Where calls lead within the root, into a region, out of it and within it; and jumps into it, out of it and within it.
fn overlaid_targets(l: &Layout) -> [u32; 7]
    requires laid { layout_in l.now ≡ sample_layout }
    requires functions { function_count l.now ≡ 5 }
{
    [
        l.call_target(1, 2),
        l.call_target(1, 3),
        l.call_target(3, 1),
        l.call_target(3, 4),
        l.jump_target(1, 3),
        l.jump_target(3, 1),
        l.jump_target(3, 4),
    ]
}

#[test]
fn lays_out_regions(rt: HostRuntime) -> Result<(), Fail> {
    let layout = overlaid(rt.alloc())?;
    assert_eq!(rt; overlaid_addresses(&layout), [176, 192, 204, 772, 784, 796]);
    assert_eq!(rt; overlaid_codes(&layout), [224, 272, 788, 200, 540]);
    assert_eq!(rt;
        overlaid_targets(&layout),
        [204, 256, 224, 272, 256, 192, 784]
    );
    assert_eq!(rt; overlaid_regions(&layout), [0, 0, 0, 1, 1]);
    assert_eq!(rt;
        layout.areas(),
        Areas {
            data_area: Span { from: 128, to: 160 },
            code: Span { from: 160, to: 704 },
            buffer: Span {
                from: 768,
                to: 2_816
            },
            stack: Span {
                from: 258_016,
                to: 262_144
            },
        }
    );
    assert_eq!(rt; layout.passage(), Span { from: 224, to: 552 });
    assert_eq!(rt; layout.slots(), Span { from: 560, to: 592 });
    assert_eq!(rt; layout.return_entry(), 540);
    Ok(())
}
