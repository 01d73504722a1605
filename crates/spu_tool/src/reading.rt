//! The start of a command: its files are read.

ghost use Rattle.std.specs.Prelude.{◌≡◌, IfOk};
ghost use Rattle.spu_tool.specs.Arguments.{texts_of};
ghost use Rattle.spu_tool.specs.Outcomes.{AreRead, ReadsCounted};

use spu_io::{FileFault, Files};
use spu_word::{Bytes, Seq};
use std::alloc::Global;

/// The bytes of files, which are read in order, up to the first that can't be read.
pub fn read_all<F: Files>(
    alloc: Global,
    files: &mut F,
    names: &[&str],
) -> Result<Seq<Bytes>, FileFault>
    ensures read { IfOk result (AreRead (F.held files.old) (texts_of names.now)) }
    ensures held { F.held files.new ≡ F.held files.old }
    ensures counted { ReadsCounted result (texts_of names.now)
        (F.faults files.old) (F.faults files.new) (F.last files.old) (F.last files.new) }
{
    let mut contents = Seq::new(alloc);
    for name in names {
        let bytes = files.read(alloc, name)?;
        contents.push(bytes)?;
    }
    Ok(contents)
}
