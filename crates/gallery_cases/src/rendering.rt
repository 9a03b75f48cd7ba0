//! The output of a case, by the calls of the library.

ghost use Rattle.std.specs.Prelude.{◌≡◌, IfOk, OnOk};
ghost use Rattle.gallery_cases.specs.declared.case.ColorChoice.TheVariants.{Plain};
ghost use Rattle.codespan_views.specs.Output.{IsAppended};
ghost use Rattle.codespan_styled.specs.Runs.{styled_runs};
ghost use Rattle.gallery_cases.specs.Documents.{AreRunsOf, AreRunsOver};
ghost use Rattle.gallery_cases.specs.CaseOutputs.{AppendsOutput, AppendsRendered, AreNamed};

use crate::case::{Case, ColorChoice};
use crate::database::{Database, database_of};
use crate::suggestions::{add_suggestion_runs, add_suggestions};
use codespan_base::diagnostic::Diagnostic;
use codespan_base::files::{Error, Files};
use codespan_base::term::{Ansi, Styles, StylesWriter, WriteColor};
use codespan_styled::{StyledText, styled_text};
use codespan_suggestions::{Suggestion, SuggestionError};
use codespan_views::emitting::{emit_into_string, emit_to_write_style};
use std::alloc::Global;

/// Appends the rendered case over its files: as plain text, or in colors by escape sequences.
///
/// # Errors
///
/// Those of [`database_of`] and of rendering.
pub fn render(alloc: Global, case: &Case<'_>, output: &mut Vec<u8>) -> Result<(), SuggestionError>
    ensures { case.now.colors ≡ Plain
        → OnOk result (AppendsOutput case.now output.old.items output.new.items) }
{
    let database = database_of(alloc, case)?;
    match &database {
        Database::One(files, diagnostic) => render_all(case, files, diagnostic, &[], output),
        Database::Several(files) => {
            render_all(case, files, &case.diagnostic, &case.suggestions, output)
        }
        Database::Mapped(files, diagnostic) => render_all(case, files, diagnostic, &[], output),
    }
}

/// Appends the rendered case over these files, and below it each suggestion.
fn render_all<'files, F: Files<'files>>(
    case: &Case<'_>,
    files: &'files F,
    diagnostic: &Diagnostic<F::FileId>,
    suggestions: &[Suggestion<F::FileId>],
    output: &mut Vec<u8>,
) -> Result<(), SuggestionError>
    ensures { AreNamed (F.database files.now) → case.now.colors ≡ Plain
        → OnOk result (AppendsRendered case.now.config (F.database files.now) diagnostic.now
        suggestions.now output.old.items output.new.items) }
{
    render_over(case, files, diagnostic, output)?;
    add_suggestions(case, files, suggestions, output)
}

/// Appends the rendered case over these files: as plain text, or in colors by escape sequences.
fn render_over<'files, F: Files<'files>>(
    case: &Case<'_>,
    files: &'files F,
    diagnostic: &Diagnostic<F::FileId>,
    output: &mut Vec<u8>,
) -> Result<(), Error>
    ensures { case.now.colors ≡ Plain
        → OnOk result (IsAppended case.now.config (F.database files.now) diagnostic.now
        output.old.items output.new.items) }
{
    if case.colors == ColorChoice::Plain {
        let text = emit_into_string(&case.config, files, diagnostic)?;
        output.extend_from_slice(text.as_bytes())?;
        Ok(())
    } else {
        render_colored(case, files, diagnostic, Ansi::new(output))
    }
}

/// Writes the rendered case over these files to a writer of colors.
fn render_colored<'files, F: Files<'files>, W: WriteColor + Drop>(
    case: &Case<'_>,
    files: &'files F,
    diagnostic: &Diagnostic<F::FileId>,
    colored: W,
) -> Result<(), Error> {
    let styles = Styles::default();
    let mut writer = StylesWriter::new(colored, &styles);
    emit_to_write_style(&mut writer, &case.config, files, diagnostic)
}

/// Renders a case over its files in colors, whatever colors it states, and returns its runs of
/// text, each in one style.
///
/// # Errors
///
/// Those of [`render`].
pub fn runs_of_case(alloc: Global, case: &Case<'_>) -> Result<StyledText, SuggestionError>
    ensures { IfOk result (λ text. AreRunsOf case.now (styled_runs text)) }
{
    let database = database_of(alloc, case)?;
    match &database {
        Database::One(files, diagnostic) => runs_over(alloc, case, files, diagnostic, &[]),
        Database::Several(files) => {
            runs_over(alloc, case, files, &case.diagnostic, &case.suggestions)
        }
        Database::Mapped(files, diagnostic) => runs_over(alloc, case, files, diagnostic, &[]),
    }
}

/// Returns the runs of text of a case over these files.
fn runs_over<'files, F: Files<'files>>(
    alloc: Global,
    case: &Case<'_>,
    files: &'files F,
    diagnostic: &Diagnostic<F::FileId>,
    suggestions: &[Suggestion<F::FileId>],
) -> Result<StyledText, SuggestionError>
    ensures { AreNamed (F.database files.now)
        → IfOk result (λ text. AreRunsOver case.now.config (F.database files.now) diagnostic.now
        suggestions.now (styled_runs text)) }
{
    let mut text = styled_text(alloc, &case.config, files, diagnostic)?;
    add_suggestion_runs(alloc, &case.config, files, suggestions, &mut text)?;
    Ok(text)
}
