//! Words that name symbols.

ghost use Rattle.std.specs.Prelude.{◌≡◌};
ghost use Rattle.std.specs.List.{list_all};
ghost use Rattle.spu_elf.specs.Validity.{is_printed};
ghost use Rattle.spu_tool.specs.Names.{is_symbol_name};

use spu_elf::is_printed;
use spu_word::limits::MAX_NAME_SIZE;

/// Whether each byte may stand in a name.
fn are_printed(word: &[u8]) -> bool
    ensures { result ≡ list_all is_printed word.now }
{
    word.iter().all(|c| is_printed(*c))
}

/// Whether a word may name a symbol.
pub fn is_symbol_name(word: &[u8]) -> bool
    ensures { result ≡ is_symbol_name word.now }
{
    !word.is_empty() && word.len() <= MAX_NAME_SIZE as usize && are_printed(word)
}
