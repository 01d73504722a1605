//! The needs that stack symbols tell.

ghost use Rattle.std.specs.Prelude.{◌≡◌, ◌^◌, ◌<◌, ℕ, length, IfOk, IfSome};
ghost use Rattle.spu_graph.specs.Known.{need_of};
ghost use Rattle.spu_image.specs.Filling.{told_in};
ghost use Rattle.spu_image.specs.JudgedLinking.{told_of};

use spu_graph::Needs;
use spu_word::OutOfMemory;
use std::alloc::Global;

/// The need of a function, None where no path from the entry reaches it.
fn told_need(needs: &Needs, f: u32) -> Option<u32>
    requires { IfSome (need_of needs.now f) (λ need. need < 2 ^ 32) }
    ensures { result ≡ need_of needs.now f }
{
    match needs.need(f) {
        Some(need) => Some(need as u32),
        None => None,
    }
}

/// The needs of so many functions, if they are to be told.
pub fn told_needs(
    alloc: Global,
    needs: &Needs,
    count: u32,
    is_told: bool,
) -> Result<Vec<Option<u32>>, OutOfMemory>
    requires { (f : ℕ) → IfSome (need_of needs.now f) (λ need. need < 2 ^ 32) }
    ensures { IfOk result (λ told. (f : ℕ) → f < count → told_in told.items f ≡ told_of is_told (need_of needs.now) f) }
{
    let mut told = Vec::new(alloc);
    if is_told {
        for f in 0..count {
            told.push(told_need(needs, f))?;
        }
    }
    Ok(told)
}
