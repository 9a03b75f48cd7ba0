//! The five calls that emit a diagnostic.

ghost use Rattle.std.specs.Prelude.{IfErr, IfOk, OnErr, OnOk, string_bytes, ◌≡◌};
ghost use Rattle.codespan_core.specs.declared.term.config.DisplayStyle.TheVariants.{Rich};
ghost use Rattle.codespan_views.specs.Output.{IsAppended, IsEmitError, IsRendered};
ghost use Rattle.codespan_views.specs.Output.{TextMeansLabels};
ghost use Rattle.codespan_views.specs.WriteCalls.{WritesStyled, WritesText};

use crate::rich::RichDiagnostic;
use crate::short::ShortDiagnostic;
use codespan_core::diagnostic::Diagnostic;
use codespan_core::files::{Error, Files};
use codespan_core::term::config::plain_ref::PlainWriterRef;
use codespan_core::term::{Config, DisplayStyle, PlainWriter, WriteStyle};
use codespan_output::scalar_chars::chars_are_scalars;
use codespan_renderer::term::renderer::Renderer;
use std::io::Write;

/// The capacity in bytes of a string before an output is rendered into it: an output of a few rows
/// needs no further allocation.
const INITIAL_CAPACITY: usize = 1024;

/// Returns the output of a diagnostic as plain text, in the style of the configuration.
///
/// # Errors
///
/// - [`Error::OutOfMemory`]: an allocation fails, or a lookup fails with it. The contract leaves
///   open when.
/// - [`Error::FormatError`]: the `Display` of a file's name fails, or a lookup fails with it. The
///   contract leaves open when, but it is not returned where nothing is looked up.
/// - Any other error: that of the first lookup that fails.
///
/// Nothing is looked up without labels, and in short and medium style without primary labels. The
/// order of the lookups is this project's own; the page on contracts states it.
///
/// # Example
///
/// ```rust
/// let mut files = SimpleFiles::new(alloc);
/// let id = files.add("settings.conf", "retries = many\n")?;
/// let label = Label::primary(alloc, id, 10..14).with_message("expected a number")?;
/// let diagnostic = Diagnostic::error(alloc)
///     .with_code("E0001")?
///     .with_message("invalid value for `retries`")?
///     .with_label(label)?;
///
/// emit_into_string(&Config::default(), &files, &diagnostic)
/// ```
///
/// It returns
///
/// ```text
/// error[E0001]: invalid value for `retries`
///   ┌─ settings.conf:1:11
///   │
/// 1 │ retries = many
///   │           ^^^^ expected a number
///
/// ```
pub fn emit_into_string<'files, F: Files<'files>>(
    config: &Config<'_>,
    files: &'files F,
    diagnostic: &Diagnostic<F::FileId>,
) -> Result<String, Error>
    ensures ok { IfOk result (λ text.
        IsRendered config.now (F.database files.now) diagnostic.now (string_bytes text)) }
    ensures means { config.now.display_style ≡ Rich → IfOk result (λ text.
        TextMeansLabels config.now (F.database files.now) diagnostic.now (string_bytes text)) }
    ensures err { IfErr result (IsEmitError config.now (F.database files.now) diagnostic.now) }
{
    // Does nothing: shows the prover that the characters are Unicode scalar values.
    chars_are_scalars(&config.chars);
    let bytes = Vec::with_capacity(*diagnostic.labels.allocator(), INITIAL_CAPACITY)?;
    let mut plain = PlainWriter::new(bytes);
    let rendered = emit_to_write_style(&mut plain, config, files, diagnostic);
    match rendered {
        // SAFETY: an output is UTF-8: its characters are Unicode scalar values, its texts are
        // UTF-8, and a line is cut at character boundaries only. The condition of the call is
        // proved from `OutputIsUtf8`, the law that `codespan_laws::laws::outputs_are_utf8` states.
        Ok(()) => Ok(unsafe { String::from_utf8_unchecked(plain.into_inner()) }),
        // A writer into memory fails only where an allocation does.
        Err(_) if plain.has_failed() => Err(Error::OutOfMemory),
        Err(error) => Err(error),
    }
}

/// Appends the output of a diagnostic to a string as plain text, in the style of the configuration.
///
/// # Errors
///
/// As [`emit_into_string`]. The string is then unchanged.
///
/// # Example
///
/// The string has a prefix here. The guide on using the library has a proved caller.
///
/// ```rust
/// let mut string = prefix.to_string(alloc)?;
/// emit_to_string(&mut string, &config, &files, &bug)?;
/// ```
pub fn emit_to_string<'files, F: Files<'files>>(
    string: &mut String,
    config: &Config<'_>,
    files: &'files F,
    diagnostic: &Diagnostic<F::FileId>,
) -> Result<(), Error>
    ensures ok { OnOk result (IsAppended config.now (F.database files.now) diagnostic.now
        (string_bytes string.old) (string_bytes string.new)) }
    ensures err { IfErr result (IsEmitError config.now (F.database files.now) diagnostic.now) }
    ensures unchanged { OnErr result (string_bytes string.new ≡ string_bytes string.old) }
{
    let text = emit_into_string(config, files, diagnostic)?;
    string.push_str(text.as_str())?;
    Ok(())
}

/// Writes the output of a diagnostic to a writer of bytes as plain text, in the style of the
/// configuration. It does not flush.
///
/// # Errors
///
/// - [`Error::Io`]: the writer fails or takes no bytes, or a lookup fails with it.
/// - [`Error::OutOfMemory`]: an allocation fails, or a lookup fails with it. The contract leaves
///   open when, but it is not returned where nothing is looked up.
/// - [`Error::FormatError`]: the `Display` of a file's name fails, or a lookup fails with it. The
///   contract leaves open when, but it is not returned where nothing is looked up.
/// - Any other error: that of the first lookup that fails.
///
/// A prefix of the text has then been written. In rich style nothing has been written where a
/// lookup before the header fails. In short and medium style, unless the error is `Io`, exactly the
/// headers of the primary labels before the one at which the call fails have been written. This is
/// known of a writer whose bytes are known.
///
/// Nothing is looked up without labels, and in short and medium style without primary labels.
///
/// # Example
///
/// ```rust
/// let config = Config {
///     display_style,
///     ..Config::default()
/// };
/// emit_to_io_write(&mut stdout, &config, &files, &diagnostic)?;
/// ```
pub fn emit_to_io_write<'files, F: Files<'files>, W: Write>(
    writer: &mut W,
    config: &Config<'_>,
    files: &'files F,
    diagnostic: &Diagnostic<F::FileId>,
) -> Result<(), Error>
    ensures { WritesText config.now (F.database files.now) diagnostic.now
        (W.contents writer.old) result (W.contents writer.new) }
{
    let mut plain = PlainWriterRef::new(writer);
    emit_to_write_style(&mut plain, config, files, diagnostic)
}

/// Writes the output of a diagnostic to a writer of styles, in the style of the configuration. It
/// does not flush.
///
/// # Errors
///
/// As [`RichDiagnostic::render`] in rich style, and as [`ShortDiagnostic::render`] in short and
/// medium style.
///
/// # Example
///
/// This writes in color.
///
/// ```rust
/// let styles = Styles::default();
/// let mut colored = StylesWriter::new(Ansi::new(&mut stdout), &styles);
/// emit_to_write_style(&mut colored, &rich, &files, &diagnostic)?;
/// ```
pub fn emit_to_write_style<'files, F: Files<'files>, W: WriteStyle>(
    writer: &mut W,
    config: &Config<'_>,
    files: &'files F,
    diagnostic: &Diagnostic<F::FileId>,
) -> Result<(), Error>
    ensures { WritesStyled config.now.display_style config.now config.now
        (F.database files.now) diagnostic.now (W.sink writer.old) result (W.sink writer.new) }
{
    let mut renderer = Renderer::new(writer, config);
    match config.display_style {
        DisplayStyle::Rich => {
            RichDiagnostic::new(diagnostic, config).render(files, &mut renderer)
        }
        DisplayStyle::Medium => {
            ShortDiagnostic::new(diagnostic, true).render(files, &mut renderer)
        }
        DisplayStyle::Short => {
            ShortDiagnostic::new(diagnostic, false).render(files, &mut renderer)
        }
    }
}

/// Writes the output of a diagnostic as [`emit_to_io_write`] does: the older name of that call,
/// which the Rust crate has deprecated since 0.13.0.
///
/// # Errors
///
/// As [`emit_to_io_write`].
pub fn emit<'files, F: Files<'files>, W: Write>(
    writer: &mut W,
    config: &Config<'_>,
    files: &'files F,
    diagnostic: &Diagnostic<F::FileId>,
) -> Result<(), Error>
    ensures { WritesText config.now (F.database files.now) diagnostic.now
        (W.contents writer.old) result (W.contents writer.new) }
{
    emit_to_io_write(writer, config, files, diagnostic)
}
