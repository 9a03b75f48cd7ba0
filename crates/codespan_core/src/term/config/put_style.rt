//! Writers of bytes and style marks with a custom error type.

ghost use Rattle.std.specs.Prelude.{◌≡◌};
ghost use Rattle.std.specs.Io.{WritesAtMost};
ghost use Rattle.std.specs.IoError.{error_kind};
ghost use Rattle.codespan_core.specs.Streams.{style_mark};
ghost use Rattle.codespan_core.specs.WriterLaw.{Writes, Puts};

use crate::term::config::style_mark::StyleMark;
use crate::term::config::write_style::WriteStyle;
use std::io;
use std::io::ErrorKind;

/// A [`WriteStyle`], or a writer that keeps the law of one and fails with a custom error.
///
/// Each [`WriteStyle`] is one, by the `impl` below, and fails with its [`io::Error`]. The calls
/// that write whole texts and rows are generic over this trait, for speed: a result that may be an
/// `io::Error` takes 96 bytes, which each call fills and its caller copies. So rows are written to
/// a writer that keeps the error and fails with a zero-sized one.
pub trait PutStyle {
    ghost use Rattle.codespan_core.specs.WriterLaw.{Sink};

    /// The error of a call.
    type Error;

    /// The spelling, the flag and the bytes of the writer, as contracts see them.
    ghost sink: { Self → Sink };

    /// Returns the error of a `put` of some bytes that has taken none of them: of an [`io::Error`]
    /// the one with [`ErrorKind::WriteZero`].
    fn write_zero() -> Self::Error;

    /// Writes the style mark, as the call of [`WriteStyle`] does that writes it.
    ///
    /// # Errors
    ///
    /// The writer's error where a write fails or takes none of its bytes; a prefix of the style
    /// mark's spelling has then been written.
    fn put_mark(&mut self, mark: StyleMark) -> Result<(), Self::Error>
        ensures { Writes (sink self.old) (style_mark mark) result (sink self.new) };

    /// Does what [`WriteStyle::put`] does.
    ///
    /// # Errors
    ///
    /// The writer's error where the write fails; none of the bytes has then been taken.
    fn put(&mut self, bytes: &[u8]) -> Result<usize, Self::Error>
        ensures bound { WritesAtMost result bytes.now }
        ensures took { Puts (sink self.old) bytes.now result (sink self.new) };
}

impl<W: WriteStyle> PutStyle for W {
    type Error = io::Error;

    ghost sink = { W.sink };

    fn write_zero() -> io::Error
        ensures { error_kind result ≡ ErrorKind.WriteZero }
    {
        io::Error::from(ErrorKind::WriteZero)
    }

    #[inline(always)]
    fn put_mark(&mut self, mark: StyleMark) -> io::Result<()> {
        match mark {
            StyleMark::Header(severity) => self.set_header(severity),
            StyleMark::HeaderMessage => self.set_header_message(),
            StyleMark::LineNumber => self.set_line_number(),
            StyleMark::NoteBullet => self.set_note_bullet(),
            StyleMark::SourceBorder => self.set_source_border(),
            StyleMark::Label(severity, label_style) => self.set_label(severity, label_style),
            StyleMark::Reset => self.reset(),
        }
    }

    #[inline(always)]
    fn put(&mut self, bytes: &[u8]) -> io::Result<usize> {
        WriteStyle::put(self, bytes)
    }
}
