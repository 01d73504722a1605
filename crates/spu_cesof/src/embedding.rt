//! Executables embedded in objects.

ghost use Rattle.std.specs.Prelude.{◌≡◌, ◌^◌, ◌<◌, ◌≤◌, length, IfOk};
ghost use Rattle.spu_word.specs.declared.limits.TheConstants.{MAX_FILE_SIZE, MAX_SYMBOLS};
ghost use Rattle.spu_elf.specs.Spelling.{spell_exec};
ghost use Rattle.spu_elf.specs.Validity.{IsName, IsValidExec};
ghost use Rattle.spu_cesof.specs.Embedding.{entry_names, embedding, Embeds};
ghost use Rattle.spu_cesof.specs.Answers.{IsRefusedBySize, Unpacks};

use crate::constants::IMAGE_ALIGN;
use crate::faults::CesofFault;
use crate::object::{entry_names, object_of};
use spu_elf::Exec;
use spu_elf::constants::EM_PPC;
use spu_elf::spelling::{object_len, spelled_from};
use spu_word::limits::MAX_FILE_SIZE;
use spu_word::{Bytes, Name};
use std::alloc::Global;

/// The object of a handle, entries and a file, unless it is too large.
#[tactic(auto, using(crate::proofs::Written::few_sections, crate::proofs::Written::few_symbols, crate::proofs::Written::few_headers), unfolding(crate::specs::Embedding::embedding))]
fn spelled(alloc: Global, name: &[u8], names: &[Name], file: &[u8]) -> Result<Bytes, CesofFault>
    requires few { length names.now ≤ MAX_SYMBOLS }
    requires file { length file.now ≤ MAX_FILE_SIZE }
    requires short { length (embedding name.now names.now file.now) < 2 ^ 40 }
    ensures spelled { IfOk result (λ e. e ≡ embedding name.now names.now file.now) }
    ensures size { IsRefusedBySize result (length (embedding name.now names.now file.now)) }
{
    let o = object_of(alloc, name, names, file)?;
    let size = object_len(&o, IMAGE_ALIGN);
    if size > MAX_FILE_SIZE as u128 {
        return Err(CesofFault::TooLarge(size as u64));
    }
    Ok(spelled_from(alloc, EM_PPC, IMAGE_ALIGN, &o)?)
}

/// The object of an executable under a name, unless it is too large.
#[tactic(auto, using(crate::proofs::Written::few_names, crate::proofs::ForthWhole::embedding_short))]
fn embedded(alloc: Global, name: &[u8], x: &Exec, file: &[u8]) -> Result<Bytes, CesofFault>
    requires name { IsName name.now }
    requires valid { IsValidExec x.now }
    requires file { file.now ≡ spell_exec x.now }
    ensures spelled { IfOk result (λ e. e ≡ embedding name.now (entry_names x.now.symbols) file.now) }
    ensures size { IsRefusedBySize result (length (embedding name.now (entry_names x.now.symbols) file.now)) }
{
    let names = entry_names(alloc, x.symbols.as_slice())?;
    spelled(alloc, name, names.as_slice(), file)
}

/// The object for the PowerPC that embeds an executable, whose file this is (CBE Embedded SPU Object
/// Format, "Embedding"). Programs refer to it by the name of its handle, which is global: 12 bytes,
/// its size and the addresses of the executable and of the table of effective addresses. The table
/// has 16 bytes for each global Object of the executable whose name begins with `_EAR_` and goes on,
/// with the address of the symbol of the rest of that name. `TooLarge` comes exactly where the object
/// would have more than 4,194,304 bytes.
pub fn embed(alloc: Global, name: &[u8], x: &Exec, file: &[u8]) -> Result<Bytes, CesofFault>
    requires name { IsName name.now }
    requires valid { IsValidExec x.now }
    requires file { file.now ≡ spell_exec x.now }
    ensures file { IfOk result (λ e. e ≡ embedding name.now (entry_names x.now.symbols) file.now) }
    ensures embeds { IfOk result (λ e. Embeds name.now file.now e) }
    ensures too_large { IsRefusedBySize result (length (embedding name.now (entry_names x.now.symbols) file.now)) }
    ensures unpacks { IfOk result (λ e. Unpacks e file.now) }
{
    embedded(alloc, name, x, file)
}
