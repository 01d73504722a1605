//! Lines of text.

ghost use Rattle.std.specs.Prelude.{◌≡◌, ◌++◌, codes, IfOk};

use spu_word::{Bytes, OutOfMemory, Seq};
use std::alloc::Global;

/// A line that ends with a name.
pub fn named_line(alloc: Global, front: &str, name: &[u8]) -> Result<Bytes, OutOfMemory>
    ensures { IfOk result (λ t. t ≡ front.now ++ name.now ++ codes "\n") }
{
    let mut line = Seq::copied(alloc, front.as_bytes())?;
    line.extend(name)?;
    line.push(b'\n')?;
    Ok(line)
}
