//! The output of a diagnostic as runs of text, each in one style.

ghost use Rattle.std.specs.Prelude.{IfErr, IfOk};
ghost use Rattle.codespan_views.specs.Output.{IsEmitError};
ghost use Rattle.codespan_styled.specs.Runs.{styled_runs};
ghost use Rattle.codespan_styled.specs.Outputs.{AreRuns};

pub mod laws;

use crate::recorder::Recorder;
use crate::text::StyledText;
use codespan_base::diagnostic::Diagnostic;
use codespan_base::files::{Error, Files};
use codespan_base::term::Config;
use codespan_output::scalar_chars::chars_are_scalars;
use codespan_views::emitting::emit_to_write_style;
use std::alloc::Global;

/// Returns the output of a diagnostic as runs of text: the output of `emit_to_write_style`, cut at
/// its style marks.
///
/// The first run is plain. Each style mark starts a run of its style, and a reset a plain one. The
/// texts of the runs, one after another, are the text that `emit_into_string` returns.
///
/// # Errors
///
/// - [`Error::OutOfMemory`]: an allocation fails, or a lookup fails with it. The contract leaves
///   open when. A style mark inside a character would fail with it too, but no output has one: see
///   [`laws::runs_are_utf8`].
/// - [`Error::FormatError`]: the `Display` of a file's name fails, or a lookup fails with it. The
///   contract leaves open when, but it is not returned where nothing is looked up.
/// - Any other error: that of the first lookup that fails.
///
/// # Example
///
/// ```rust
/// let text = styled_text(alloc, &Config::default(), &files, &diagnostic)?;
/// for run in &text.runs {
///     print_run(run.style, run.text.as_str());
/// }
/// ```
pub fn styled_text<'files, F: Files<'files>>(
    alloc: Global,
    config: &Config<'_>,
    files: &'files F,
    diagnostic: &Diagnostic<F::FileId>,
) -> Result<StyledText, Error>
    ensures ok { IfOk result (λ text.
        AreRuns config.now (F.database files.now) diagnostic.now (styled_runs text)) }
    ensures err { IfErr result (IsEmitError config.now (F.database files.now) diagnostic.now) }
{
    // Does nothing: shows the prover that the characters are Unicode scalar values.
    chars_are_scalars(&config.chars);
    let mut recorder = Recorder::new(alloc);
    match emit_to_write_style(&mut recorder, config, files, diagnostic) {
        Ok(()) => recorder.into_text(),
        Err(error) => Err(if recorder.has_failed() {
            Error::OutOfMemory
        } else {
            error
        }),
    }
}
