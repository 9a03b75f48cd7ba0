//! Writing to standard output, or to any writer.

ghost use Rattle.std.specs.Prelude.{OnOk};
ghost use Rattle.std.specs.Io.KnownBytes.{Appends};
ghost use Rattle.program_io.specs.Output.{AppendsPrefix};

use std::io;
use std::io::{ErrorKind, Write};

/// Writes all the bytes to the output and flushes it.
///
/// # Errors
///
/// Those of [`write_all`], and that of the flush. A prefix of the bytes, or all of them, has then
/// been written.
pub fn write_and_flush<W: Write>(writer: &mut W, bytes: &[u8]) -> io::Result<()>
    ensures written { OnOk result (Appends (W.contents writer.old)
        (W.contents writer.new) bytes.now) }
    ensures prefix { AppendsPrefix (W.contents writer.old) (W.contents writer.new) bytes.now }
{
    write_all(writer, bytes)?;
    writer.flush()
}

/// Writes all the bytes. An interrupted write is tried again.
///
/// [`Write::write_all`] does the same, but its contract leaves open what has been written if it
/// fails.
///
/// # Errors
///
/// - The error of a write, if it is not `Interrupted`.
/// - `WriteZero`: a write returns `Ok(0)`.
/// - `Other`: there were `u64::MAX` writes.
///
/// A prefix of the bytes has then been written.
pub fn write_all<W: Write>(writer: &mut W, bytes: &[u8]) -> io::Result<()>
    ensures written { OnOk result (Appends (W.contents writer.old)
        (W.contents writer.new) bytes.now) }
    ensures prefix { AppendsPrefix (W.contents writer.old) (W.contents writer.new) bytes.now }
{
    let mut rest = bytes;
    // More writes than any run makes.
    for _ in 0..u64::MAX {
        if rest.is_empty() {
            return Ok(());
        }
        match writer.write(rest) {
            Ok(0) => return Err(io::Error::from(ErrorKind::WriteZero)),
            Ok(count) => rest = &rest[count..],
            Err(error) if error.kind() == ErrorKind::Interrupted => {}
            Err(error) => return Err(error),
        }
    }
    Err(io::Error::from(ErrorKind::Other))
}
