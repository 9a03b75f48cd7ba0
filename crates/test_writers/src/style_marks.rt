//! A style mark of each kind.

use codespan_base::diagnostic::{LabelStyle, Severity};
use codespan_base::term::WriteStyle;
use std::io;

/// Writes a style mark of each kind, those that have a severity for an error, and the reset last.
///
/// # Errors
///
/// That of the first style mark that fails.
pub fn write_each_style_mark<W: WriteStyle>(w: &mut W) -> io::Result<()> {
    w.set_header(Severity::Error)?;
    w.set_header_message()?;
    w.set_line_number()?;
    w.set_note_bullet()?;
    w.set_source_border()?;
    w.set_label(Severity::Error, LabelStyle::Primary)?;
    w.set_label(Severity::Error, LabelStyle::Secondary)?;
    w.reset()
}
