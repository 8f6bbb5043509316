//! Bytes, written whole.
ghost use Rattle.std.specs.Prelude.{OnOk};
ghost use Rattle.std.specs.Io.KnownBytes.{Appends};
ghost use Rattle.cedar_writes.specs.Parts.{AppendsPart};

use std::io;
use std::io::{ErrorKind, Write};

/// Writes all of the bytes. An error is the writer's, and then at most a first part of them is written; nothing else is.
pub fn write_whole<W: Write>(writer: &mut W, bytes: &[u8]) -> io::Result<()>
    ensures whole { OnOk result (Appends (W.contents writer.old) (W.contents writer.new) bytes.now) }
    ensures part { AppendsPart (W.contents writer.old) (W.contents writer.new) bytes.now }
{
    let mut rest = bytes;
    'tries: for _ in 0..u64::MAX {
        if rest.is_empty() {
            return Ok(());
        }
        match writer.write(rest) {
            Ok(0) => return Err(ErrorKind::WriteZero.into()),
            Ok(count) => rest = &rest[count..],
            Err(error) => {
                if error.kind() != ErrorKind::Interrupted {
                    return Err(error);
                }
            }
        }
    }
    Err(ErrorKind::TimedOut.into())
}
