//! Reading and writing whole streams, with the limit on what is read.

ghost use Rattle.std.specs.Prelude.{◌≡◌, ◌+◌, ◌≤◌, ◌<◌, ℕ, length, take, IfOk, IfSome, OnOk};
ghost use Rattle.std.specs.Io.{ReadsAtMost, WritesAtMost};
ghost use Rattle.std.specs.Io.KnownBytes.{Appends, Consumes, IsAtEnd};
ghost use Rattle.spu_word.specs.declared.limits.TheConstants.{MAX_FILE_SIZE};
ghost use Rattle.spu_io.specs.Transfer.{ReadOn};

use crate::faults::FileFault;
use crate::names::READ_LIMIT;
use spu_word::Bytes;
use std::alloc::Global;
use std::io;
use std::io::{ErrorKind, Read, Write};

// How many bytes are asked for at a time.
const CHUNK: usize = 16_384;

// One read, again where a signal cut it short.
fn read_some<R: Read>(reader: &mut R, room: &mut [u8]) -> io::Result<usize>
    ensures bound { ReadsAtMost result room.new }
    ensures bytes { IfOk result (λ n. Consumes (R.remaining reader.old) (R.remaining reader.new) (take n room.new)) }
    ensures end { IfOk result (λ n. n ≡ 0 → 0 < length room.old → IsAtEnd (R.remaining reader.new)) }
{
    for _ in 0..u64::MAX {
        match reader.read(room) {
            Ok(count) => return Ok(count),
            Err(e) => {
                if e.kind() != ErrorKind::Interrupted {
                    return Err(e);
                }
            }
        }
    }
    Err(io::Error::from(ErrorKind::Interrupted))
}

// One write, again where a signal cut it short. Nothing written is a fault.
fn write_some<W: Write>(writer: &mut W, bytes: &[u8]) -> io::Result<usize>
    ensures bound { WritesAtMost result bytes.now }
    ensures bytes { IfOk result (λ n. Appends (W.contents writer.old) (W.contents writer.new) (take n bytes.now)) }
    ensures some { IfOk result (λ n. 0 < n) }
{
    for _ in 0..u64::MAX {
        match writer.write(bytes) {
            Ok(0) => return Err(io::Error::from(ErrorKind::WriteZero)),
            Ok(count) => return Ok(count),
            Err(e) => {
                if e.kind() != ErrorKind::Interrupted {
                    return Err(e);
                }
            }
        }
    }
    Err(io::Error::from(ErrorKind::Interrupted))
}

// Reads on after what was read, and tells how many bytes came: none at the end, and at the limit.
fn read_chunk<R: Read>(reader: &mut R, bytes: &mut Bytes) -> Result<usize, FileFault>
    requires { length bytes.old ≤ MAX_FILE_SIZE + 1 }
    ensures { IfOk result (ReadOn (R.remaining reader.old) (R.remaining reader.new) bytes.old bytes.new) }
{
    let mut chunk = [0; CHUNK];
    let room = CHUNK.min(READ_LIMIT - bytes.len());
    match read_some(reader, &mut chunk[..room]) {
        Ok(count) => {
            bytes.extend(&chunk[..count])?;
            Ok(count)
        }
        Err(_) => Err(FileFault::Failed),
    }
}

/// Reads what a reader has left: all of it, or its first bytes, one more than a file may have.
pub fn read_up_to_limit<R: Read>(alloc: Global, reader: &mut R) -> Result<Bytes, FileFault>
    ensures limit { IfOk result (λ bytes. length bytes ≤ MAX_FILE_SIZE + 1) }
    ensures bytes { IfOk result (λ bytes. IfSome (R.remaining reader.old) (λ left. bytes ≡ take (MAX_FILE_SIZE + 1) left)) }
{
    let mut bytes = Bytes::new(alloc);
    for _ in 0..u64::MAX {
        if read_chunk(reader, &mut bytes)? == 0 {
            return Ok(bytes);
        }
    }
    Err(FileFault::Failed)
}

/// Writes all of the bytes.
pub fn write_whole<W: Write>(writer: &mut W, bytes: &[u8]) -> io::Result<()>
    ensures { OnOk result (Appends (W.contents writer.old) (W.contents writer.new) bytes.now) }
{
    let mut written = 0;
    while written < bytes.len() {
        written += write_some(writer, &bytes[written..])?;
    }
    Ok(())
}
