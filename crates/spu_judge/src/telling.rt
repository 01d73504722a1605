//! What is told of a program by the names of its functions.

ghost use Rattle.std.specs.Prelude.{◌≡◌, ◌^◌, ◌*◌, ◌<◌, ℕ, map, length, IfOk};
ghost use Rattle.std.specs.List.{All};
ghost use Rattle.spu_judge.specs.Answers.{name_of};
ghost use Rattle.spu_judge.specs.Building.{functions_among};

use spu_lift::Prog;
use spu_word::{Name, OutOfMemory, Seq};
use std::alloc::Global;

/// The name of a function.
pub fn name_of(alloc: Global, p: &Prog, f: u32) -> Result<Name, OutOfMemory>
    requires { f < length p.now.functions }
    ensures { IfOk result (λ name. name ≡ name_of p.now f) }
{
    Seq::copied(alloc, p.functions.as_slice()[f as usize].name.as_slice())
}

/// The names of the functions among nodes.
pub fn names_of(alloc: Global, p: &Prog, nodes: &[u32]) -> Result<Seq<Name>, OutOfMemory>
    ensures { IfOk result (λ names. names ≡ map (name_of p.now) (functions_among p.now nodes.now)) }
{
    let mut names = Seq::new(alloc);
    for f in nodes {
        if (*f as usize) < p.functions.len() {
            names.push(name_of(alloc, p, *f)?)?;
        }
    }
    Ok(names)
}
