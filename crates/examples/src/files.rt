//! Prints an error over a custom file database, whose two files are a document and its schema.

mod checked;

use checked::{Checked, Part};
use codespan_reporting::diagnostic::{Diagnostic, Label};
use codespan_reporting::files::Error;
use codespan_reporting::term::{Config, emit_to_io_write};

/// Prints the error.
///
/// # Errors
///
/// `Io` where the output fails, and `OutOfMemory` where an allocation does.
pub fn run(rt: &HostRuntime) -> Result<(), Error> {
    let alloc = rt.alloc();
    let schema = "port: number\nhost: text\n";
    let document = "host = \"atlas\"\nport = \"eighty\"\n";
    let checked = Checked::new(alloc, schema, document)?;
    let value = Label::primary(alloc, Part::Document, 22..30).with_message("this is a text")?;
    let kind = Label::secondary(alloc, Part::Schema, 6..12).with_message("expected by this")?;
    let diagnostic = Diagnostic::error(alloc)
        .with_message("`port` must be a number")?
        .with_label(value)?
        .with_label(kind)?;
    emit_to_io_write(&mut rt.stdout(), &Config::default(), &checked, &diagnostic)
}
