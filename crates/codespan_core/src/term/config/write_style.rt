//! Writers of bytes and style marks.

ghost use Rattle.std.specs.Io.{WritesAtMost};
ghost use Rattle.codespan_core.specs.Streams.{style_mark};
ghost use Rattle.codespan_core.specs.declared.term.config.style_mark.StyleMark.TheVariants.{Header};
ghost use Rattle.codespan_core.specs.declared.term.config.style_mark.StyleMark.TheVariants.{HeaderMessage};
ghost use Rattle.codespan_core.specs.declared.term.config.style_mark.StyleMark.TheVariants.{LineNumber};
ghost use Rattle.codespan_core.specs.declared.term.config.style_mark.StyleMark.TheVariants.{NoteBullet};
ghost use Rattle.codespan_core.specs.declared.term.config.style_mark.StyleMark.TheVariants.{SourceBorder};
ghost use Rattle.codespan_core.specs.declared.term.config.style_mark.StyleMark.TheVariants.{Label};
ghost use Rattle.codespan_core.specs.declared.term.config.style_mark.StyleMark.TheVariants.{Reset};
ghost use Rattle.codespan_core.specs.WriterLaw.{Writes, Puts};

use crate::diagnostic::{LabelStyle, Severity};
use std::io;
use std::io::Write;

/// The result of a call that writes a style mark: the Rust crate's name for `io::Result<()>`.
pub type GeneralWriteResult = io::Result<()>;

/// A writer of bytes and style marks. It has a spelling: fixed bytes for each style mark, which no
/// call changes.
///
/// A style mark that succeeds appends its spelling, and one that fails a prefix of it. The writer
/// has a flag of whether it has failed: a style mark or a `put` that fails, and a `put` of some
/// bytes that takes none, set it, and nothing else does. The rules are this project's own.
///
/// Rendering writes bytes by `put` and never by the calls of `Write`, and it never flushes.
/// The guide on writers goes through the example.
///
/// # Examples
///
/// A writer of tags in brackets:
///
/// ```rust
/// #[tactic(auto, using(codespan_base::proofs::StyleMarks::spelled_style_marks))]
/// impl<W: Write> WriteStyle for TagWriter<W> {
///     ghost sink = { λ t. tag_sink t.failed (W.contents t.inner) };
///
///     fn set_header(&mut self, _severity: Severity) -> io::Result<()> {
///         self.write_tag(b"[header]")
///     }
///
///     fn set_header_message(&mut self) -> io::Result<()> {
///         self.write_tag(b"[message]")
///     }
///
///     fn set_line_number(&mut self) -> io::Result<()> {
///         self.write_tag(b"[number]")
///     }
///
///     fn set_note_bullet(&mut self) -> io::Result<()> {
///         self.write_tag(b"[bullet]")
///     }
///
///     fn set_source_border(&mut self) -> io::Result<()> {
///         self.write_tag(b"[border]")
///     }
///
///     fn set_label(&mut self, _severity: Severity, label_style: LabelStyle) -> io::Result<()> {
///         match label_style {
///             LabelStyle::Primary => self.write_tag(b"[primary]"),
///             LabelStyle::Secondary => self.write_tag(b"[secondary]"),
///         }
///     }
///
///     fn reset(&mut self) -> io::Result<()> {
///         self.write_tag(b"[/]")
///     }
///
///     fn put(&mut self, bytes: &[u8]) -> io::Result<usize> {
///         forward_put(&mut self.inner, &mut self.failed, bytes)
///     }
///
///     ghost holds_contents = { λ _. refl };
/// }
/// ```
pub trait WriteStyle: Write {
    ghost use Rattle.std.specs.Prelude.{◌≡◌};
    ghost use Rattle.codespan_core.specs.WriterLaw.{Sink};

    /// The spelling, the flag and the bytes of the writer, as contracts see them.
    ghost sink: { Self → Sink };

    /// Writes the style mark before the severity and the code of a header.
    ///
    /// # Errors
    ///
    /// An [`io::Error`] where a write fails or takes none of its bytes; a prefix of the style
    /// mark's spelling has then been written.
    fn set_header(&mut self, severity: Severity) -> io::Result<()>
        ensures { Writes (sink self.old) (style_mark (Header severity)) result (sink self.new) };

    /// Writes the style mark before the message of a header.
    ///
    /// # Errors
    ///
    /// An [`io::Error`] where a write fails or takes none of its bytes; a prefix of the style
    /// mark's spelling has then been written.
    fn set_header_message(&mut self) -> io::Result<()>
        ensures { Writes (sink self.old) (style_mark HeaderMessage) result (sink self.new) };

    /// Writes the style mark before a line number.
    ///
    /// # Errors
    ///
    /// An [`io::Error`] where a write fails or takes none of its bytes; a prefix of the style
    /// mark's spelling has then been written.
    fn set_line_number(&mut self) -> io::Result<()>
        ensures { Writes (sink self.old) (style_mark LineNumber) result (sink self.new) };

    /// Writes the style mark before the bullet of a note.
    ///
    /// # Errors
    ///
    /// An [`io::Error`] where a write fails or takes none of its bytes; a prefix of the style
    /// mark's spelling has then been written.
    fn set_note_bullet(&mut self) -> io::Result<()>
        ensures { Writes (sink self.old) (style_mark NoteBullet) result (sink self.new) };

    /// Writes the style mark before the border left of the source, and before the text before a
    /// locus.
    ///
    /// # Errors
    ///
    /// An [`io::Error`] where a write fails or takes none of its bytes; a prefix of the style
    /// mark's spelling has then been written.
    fn set_source_border(&mut self) -> io::Result<()>
        ensures { Writes (sink self.old) (style_mark SourceBorder) result (sink self.new) };

    /// Writes the style mark before a label's carets, pointers, lanes, underline and message, and
    /// before the source text that a primary label covers.
    ///
    /// # Errors
    ///
    /// An [`io::Error`] where a write fails or takes none of its bytes; a prefix of the style
    /// mark's spelling has then been written.
    fn set_label(&mut self, severity: Severity, label_style: LabelStyle) -> io::Result<()>
        ensures { Writes (sink self.old) (style_mark (Label severity label_style))
            result (sink self.new) };

    /// Writes the style mark that ends the style. A style mark also ends the style before it: there
    /// is no reset between `set_header` and `set_header_message`, nor between adjacent carets of
    /// two styles.
    ///
    /// # Errors
    ///
    /// An [`io::Error`] where a write fails or takes none of its bytes; a prefix of the style
    /// mark's spelling has then been written.
    fn reset(&mut self) -> io::Result<()>
        ensures { Writes (sink self.old) (style_mark Reset) result (sink self.new) };

    /// Writes once, and returns how many bytes it took; these are the first ones.
    ///
    /// # Errors
    ///
    /// An [`io::Error`] where the write fails; none of the bytes has then been taken.
    fn put(&mut self, bytes: &[u8]) -> io::Result<usize>
        ensures bound { WritesAtMost result bytes.now }
        ensures took { Puts (sink self.old) bytes.now result (sink self.new) };

    /// The bytes of the sink are those of the writer's `Write`.
    ghost holds_contents: { (w : Self) → (sink w).contents ≡ Self.contents w };
}
