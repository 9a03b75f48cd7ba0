//! Prints the outputs of two diagnostics, each over a file of its own, as one text.

ghost use Rattle.std.specs.Prelude.{[], IfOk, OnOk, string_bytes};
ghost use Rattle.examples.specs.Outputs.{AreAppended};

use codespan_reporting::diagnostic::{Diagnostic, Label};
use codespan_reporting::files::{Error, Files, SimpleFiles};
use codespan_reporting::term::{Config, emit_to_string};
use std::alloc::Global;
use std::io::Write;

/// Prints both outputs.
///
/// # Errors
///
/// `Io` where the output fails, and `OutOfMemory` where an allocation does.
pub fn run(rt: &HostRuntime) -> Result<(), Error> {
    let alloc = rt.alloc();
    let mut files = SimpleFiles::new(alloc);
    let server = files.add("server.conf", "port = 80a\n")?;
    let users = files.add("users.conf", "anna = 1\nanna = 2\n")?;
    let diagnostics = [no_number(alloc, server)?, set_twice(alloc, users)?];
    let text = render_all(alloc, &Config::default(), &files, &diagnostics)?;
    rt.stdout().write_all(text.as_bytes())?;
    Ok(())
}

/// Returns the error of a value in the first file.
fn no_number(alloc: Global, file: usize) -> Result<Diagnostic<usize>, Error> {
    Diagnostic::error(alloc)
        .with_message("expected a number")?
        .with_label(Label::primary(alloc, file, 7..10).with_message("not a number")?)
}

/// Returns the warning of a key in the second file.
fn set_twice(alloc: Global, file: usize) -> Result<Diagnostic<usize>, Error> {
    Diagnostic::warning(alloc)
        .with_message("`anna` is set twice")?
        .with_label(Label::primary(alloc, file, 9..13).with_message("set again here")?)?
        .with_label(Label::secondary(alloc, file, 0..4).with_message("first set here")?)
}

/// Appends the output of each diagnostic to a string, in their order.
fn append_all<'files, F: Files<'files>>(
    string: &mut String,
    config: &Config<'_>,
    files: &'files F,
    diagnostics: &[Diagnostic<F::FileId>],
) -> Result<(), Error>
    ensures { OnOk result (AreAppended config.now (F.database files.now) diagnostics.now
        (string_bytes string.old) (string_bytes string.new)) }
{
    for diagnostic in diagnostics {
        emit_to_string(string, config, files, diagnostic)?;
    }
    Ok(())
}

/// Returns the output of each diagnostic over these files, in their order.
///
/// # Errors
///
/// Those of [`emit_to_string`].
fn render_all<'files, 'text: 'files>(
    alloc: Global,
    config: &Config<'_>,
    files: &'files SimpleFiles<&'text str, &'text str>,
    diagnostics: &[Diagnostic<usize>],
) -> Result<String, Error>
    ensures { let database = ⟦<SimpleFiles<&'text str, &'text str> as Files<'files>>⟧.database in
        IfOk result (λ text.
        AreAppended config.now (database files.now) diagnostics.now [] (string_bytes text)) }
{
    let mut text = String::new(alloc);
    append_all(&mut text, config, files, diagnostics)?;
    Ok(text)
}
