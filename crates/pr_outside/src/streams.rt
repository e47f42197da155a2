// Whole reads and writes, over any reader and any writer.
ghost use Rattle.std.specs.Prelude.{◌≡◌, ℕ, ◌≤◌, [], length, take, OnOk, OnErr};
ghost use Rattle.std.specs.Io.KnownBytes.{Appends};
ghost use Rattle.pr_outside.specs.Streams.{IsReadUpTo, TakesUpTo, AppendsSome};

use std::io;
use std::io::{ErrorKind, Read, Write};

/// Why a reader was not read to its end.
#[derive(Clone, Copy, PartialEq, Eq)]
pub enum ReadError {
    Failed,
    Memory,
}

/// How many bytes one read asks for at most.
const PIECE: usize = 8192;

impl From<io::Error> for ReadError {
    fn from(error: io::Error) -> ReadError {
        if error.kind() == ErrorKind::OutOfMemory {
            ReadError::Memory
        } else {
            ReadError::Failed
        }
    }
}

/// Takes the bytes of a reader to its end, but no more than `most + 1`. A read of no bytes is the
/// end. After an error `bytes` holds what was taken before it.
pub fn read_up_to<R: Read>(
    reader: &mut R,
    most: usize,
    bytes: &mut Vec<u8>,
) -> Result<(), ReadError>
    requires { bytes.old.items ≡ [] }
    ensures all { OnOk result (IsReadUpTo (R.remaining reader.old) most bytes.new.items) }
    ensures taken { OnOk result
        (TakesUpTo (R.remaining reader.old) (R.remaining reader.new) most bytes.new.items) }
{
    let mut piece = [0u8; PIECE];
    while bytes.len() <= most {
        let wanted = (most - bytes.len()).min(PIECE - 1) + 1;
        let read = match reader.read(&mut piece[..wanted]) {
            Ok(read) => read,
            Err(error) => return Err(ReadError::from(error)),
        };
        if read == 0 {
            return Ok(());
        }
        if bytes.extend_from_slice(&piece[..read]).is_err() {
            return Err(ReadError::Memory);
        }
    }
    Ok(())
}

/// Writes all bytes. A write that takes none of them is a failure; after an error a prefix of the
/// bytes is written.
pub fn write_whole<W: Write>(writer: &mut W, bytes: &[u8]) -> io::Result<()>
    ensures ok { OnOk result (Appends (W.contents writer.old) (W.contents writer.new) bytes.now) }
    ensures err { OnErr result (AppendsSome (W.contents writer.old) (W.contents writer.new) bytes.now) }
{
    let mut rest = bytes;
    while !rest.is_empty() {
        let taken = match writer.write(rest) {
            Ok(taken) => taken,
            Err(error) => return Err(error),
        };
        if taken == 0 {
            return Err(io::Error::from(ErrorKind::WriteZero));
        }
        let (_, behind) = rest.split_at(taken);
        rest = behind;
    }
    Ok(())
}
