//! The end of a command: its file is written, and its text is put.

ghost use Rattle.std.specs.Prelude.{◌≡◌};
ghost use Rattle.spu_io.specs.NameTable.{pointed_to};
ghost use Rattle.spu_tool.specs.Outcomes.{seen, Puts, Concludes};

use crate::made::Made;
use crate::status::Status;
use spu_io::{FileFault, Files, Sink, SinkFault};

/// Puts a text, where there is some, and answers this status.
pub fn put<S: Sink>(status: Status, text: &[u8], out: &mut S) -> Status
    ensures { Puts status text.now result
        (S.written out.old) (S.written out.new) (S.faults out.old) (S.faults out.new) }
{
    if text.is_empty() {
        return status;
    }
    match out.put(text) {
        Ok(()) => status,
        Err(SinkFault::Failed) => Status::WriteFault,
        Err(SinkFault::OutOfMemory) => Status::OutOfMemory,
    }
}

/// Writes the output file of a command where it has one, and then puts its text.
pub fn conclude<F: Files, S: Sink>(
    made: &Made,
    output: Option<&str>,
    files: &mut F,
    out: &mut S,
) -> Status
    ensures { Concludes made.now (pointed_to output.entry) result
        (seen (F.held files.old) (F.faults files.old) (F.last files.old)
        (S.written out.old) (S.faults out.old))
        (seen (F.held files.new) (F.faults files.new) (F.last files.new)
        (S.written out.new) (S.faults out.new)) }
{
    if let (Some(file), Some(output)) = (&made.file, output) {
        match files.write(output, file.as_slice()) {
            Ok(()) => {}
            Err(FileFault::Failed) => return Status::WriteFault,
            Err(FileFault::OutOfMemory) => return Status::OutOfMemory,
        }
    }
    put(made.status, made.text.as_slice(), out)
}
