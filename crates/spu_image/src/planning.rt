//! The plan of a flat image.

ghost use Rattle.std.specs.Prelude.{◌≡◌, ◌≤◌, length, IfErr, IfOk};
ghost use Rattle.spu_word.specs.declared.limits.TheConstants.{MAX_STACK_LIMIT};
ghost use Rattle.spu_lift.specs.declared.program.CodeSection.{CodeSection};
ghost use Rattle.spu_lift.specs.WellFormed.{IsWellFormed};
ghost use Rattle.spu_layout.specs.Placing.{FitsFlat};
ghost use Rattle.spu_image.specs.Filling.{IsFlatInput};
ghost use Rattle.spu_image.specs.JudgedLinking.{IsPlanRefused};

use crate::outcome::LinkFault;
use spu_layout::section_sizes;
use spu_lift::{CodeSection, Prog};
use spu_plan::{Mode, Plan, PlanFault, PlanInput, make_plan};
use spu_word::limits::STACK_TOP;
use spu_word::{OutOfMemory, Seq};
use std::alloc::Global;

/// Of sections of code, the one with this number is to stay in the root.
fn rooted(alloc: Global, code: &[CodeSection], section: u32) -> Result<Seq<bool>, OutOfMemory>
    ensures { IfOk result (λ rooted. length rooted ≡ length code.now) }
{
    let mut rooted = Seq::new(alloc);
    for k in 0..code.len() {
        rooted.push(k == section as usize)?;
    }
    Ok(rooted)
}

/// The section of the entry function.
fn entry_section(p: &Prog) -> u32
    requires { IsWellFormed p.now }
{
    p.functions.as_slice()[p.entry as usize].section
}

/// What the plan of a program without overlays is made for, with a stack of this many bytes.
fn flat_input(alloc: Global, p: &Prog, limit: u32) -> Result<PlanInput, OutOfMemory>
    requires formed { IsWellFormed p.now }
    requires limit { limit ≤ MAX_STACK_LIMIT }
    ensures { IfOk result (IsFlatInput p.now limit) }
{
    let code = p.code.as_slice();
    Ok(PlanInput {
        sizes: section_sizes(alloc, code)?,
        rooted: rooted(alloc, code, entry_section(p))?,
        data_end: p.data_end,
        functions: p.functions.len() as u32 - 1,
        room: STACK_TOP - limit,
        mode: Mode::Never,
        buffers: 1,
        largest: 16_384,
    })
}

/// The plan of a program without overlays, or L20 where its image doesn't end below the stack.
pub fn plan_flat(alloc: Global, p: &Prog, limit: u32) -> Result<Plan, LinkFault>
    requires formed { IsWellFormed p.now }
    requires limit { limit ≤ MAX_STACK_LIMIT }
    ensures fits { IfOk result (λ plan. FitsFlat p.now plan limit) }
    ensures refused { IfErr result (IsPlanRefused p.now limit) }
{
    let input = flat_input(alloc, p, limit)?;
    match make_plan(alloc, &input) {
        Ok(plan) => Ok(plan),
        Err(PlanFault::TooLarge { least, room }) => Err(LinkFault::TooLarge { least, room }),
        Err(PlanFault::OutOfMemory) => Err(LinkFault::OutOfMemory),
    }
}
