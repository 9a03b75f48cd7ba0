//! Style marks.

use crate::diagnostic::{LabelStyle, Severity};

/// A style mark: the start of the style of one part of the output, or the reset to plain text.
/// There is one for each call of [`WriteStyle`](crate::term::WriteStyle) that writes one.
///
/// Rows are written by these values, and the definitions of rows are over this type. It is this
/// project's own.
#[derive(Clone, Copy, Debug, PartialEq, Eq)]
pub enum StyleMark {
    /// Starts the severity and the code of a header.
    Header(Severity),
    /// Starts the message of a header.
    HeaderMessage,
    /// Starts a line number.
    LineNumber,
    /// Starts the bullet of a note.
    NoteBullet,
    /// Starts the border left of the source, or the text before a locus.
    SourceBorder,
    /// Starts a label's carets, pointers, lanes, underline and message, or the source text that a
    /// primary label covers.
    Label(Severity, LabelStyle),
    /// Ends the style.
    Reset,
}
