//! Lines of text.

ghost use Rattle.std.specs.Prelude.{◌≡◌, string_bytes, IfOk};
ghost use Rattle.spu_tool.specs.Makes.{count_line, share_line};

use spu_word::OutOfMemory;
use std::alloc::Global;

/// A word and a number.
pub fn count_line(alloc: Global, what: &str, count: u64) -> Result<String, OutOfMemory>
    ensures { IfOk result (λ t. string_bytes t ≡ count_line what.now count) }
{
    Ok(format!(in alloc; "{what} {count}\n")?)
}

/// A word and a share of a whole.
pub fn share_line(alloc: Global, what: &str, part: u64, whole: u64) -> Result<String, OutOfMemory>
    ensures { IfOk result (λ t. string_bytes t ≡ share_line what.now part whole) }
{
    Ok(format!(in alloc; "{what} {part} of {whole}\n")?)
}
