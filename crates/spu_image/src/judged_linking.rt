//! Links of judged programs.

ghost use Rattle.std.specs.Prelude.{◌≡◌, ◌*◌, ◌≤◌, length, IfErr, IfOk};
ghost use Rattle.spu_word.specs.declared.limits.TheConstants.{MAX_OBJECTS, MAX_STACK_LIMIT, MAX_SYMBOLS};
ghost use Rattle.spu_judge.specs.Answers.{IsJudgement};
ghost use Rattle.spu_image.specs.JudgedLinking.{IsImage, IsImageRefused, judged_in};

use crate::images::flat_exec;
use crate::lengths::file_len;
use crate::outcome::{LinkFault, Linked};
use crate::planning::plan_flat;
use crate::telling::told_needs;
use spu_elf::write_exec;
use spu_judge::Judged;
use spu_layout::lay_out;
use spu_word::limits::MAX_FILE_SIZE;
use std::alloc::Global;

/// The flat image of a judged program, with a stack of this many bytes, and with stack symbols if they are asked for.
///
/// L20 `TooLarge` exactly where no flat image ends below the stack, with where it would end and the room that there is; L21
/// `FileTooLarge` exactly where that doesn't hold and its file has more than 4,194,304 bytes, with how many.
pub fn link_judged(
    alloc: Global,
    judged: Judged,
    limit: u32,
    stack_syms: bool,
) -> Result<Linked, LinkFault>
    requires judged { IsJudgement judged.prog limit judged }
    requires limit { limit ≤ MAX_STACK_LIMIT }
    requires globals { length judged.prog.globals ≤ MAX_OBJECTS * MAX_SYMBOLS }
    ensures of { IfOk result (λ l. judged_in l ≡ judged) }
    ensures image { IfOk result (IsImage limit stack_syms) }
    ensures refused { IfErr result (IsImageRefused judged limit stack_syms) }
{
    let Judged {
        prog,
        depths,
        needs,
    } = judged;
    let plan = plan_flat(alloc, &prog, limit)?;
    let layout = lay_out(alloc, &prog, &plan, limit)?;
    let told = told_needs(alloc, &needs, prog.functions.len() as u32, stack_syms)?;
    let exec = flat_exec(alloc, &prog, &layout, limit, &told)?;
    let size = file_len(&exec);
    if size > u64::from(MAX_FILE_SIZE) {
        return Err(LinkFault::FileTooLarge { size });
    }
    let file = write_exec(alloc, &exec)?;
    Ok(Linked {
        exec,
        file,
        prog,
        depths,
        needs,
        plan,
        layout,
    })
}
