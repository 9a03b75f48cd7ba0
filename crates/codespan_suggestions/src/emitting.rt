//! The two calls that emit a suggestion.

ghost use Rattle.std.specs.Prelude.{◌≡◌, IfOk, OnOk, string_bytes};
ghost use Rattle.codespan_core.specs.Streams.{text_of};
ghost use Rattle.codespan_output.specs.Utf8Laws.{StreamIsUtf8};
ghost use Rattle.codespan_suggestions.specs.DrawnFiles.{NamesAreStated};
ghost use Rattle.codespan_suggestions.specs.SuggestionOutput.{WritesSuggestion, suggestion_stream};
ghost use Rattle.codespan_suggestions.specs.SuggestionOutput.{rendering_fault};
ghost use Rattle.codespan_suggestions.specs.NamedFiles.{FailsByFault};
ghost use Rattle.codespan_suggestions.specs.ReadingLaws.{TextGivesTexts};

use crate::drawn_files::draw_files;
use crate::error::SuggestionError;
use crate::rows::write_output;
use crate::suggestion::Suggestion;
use codespan_core::files::{Error, Files};
use codespan_core::term::{Config, PlainWriter, WriteStyle};
use codespan_edits::DiffContext;
use codespan_output::scalar_chars::chars_are_scalars;

/// Returns the output of a suggestion as plain text, in the style of the configuration.
///
/// # Errors
///
/// - The first error, where the files are gone through in the order of their first edits: of each
///   [`SuggestionError::Files`] with that of [`Files::source`], or else [`SuggestionError::Edit`]
///   with that of its edits, which are named by their indices in the suggestion, or else
///   [`SuggestionError::Files`] with that of [`Files::name`].
/// - [`SuggestionError::Files`] of `FormatError` where the `Display` of a file's name fails.
/// - [`SuggestionError::Files`] of `OutOfMemory` where an allocation fails.
///
/// # Examples
///
/// ```rust
/// let text = emit_suggestion_into_string(&Config::default(), &files, &suggestion)?;
/// ```
///
/// It returns
///
/// ```text
/// help: borrow the value
///     ┌─ src/main.rs:2:17
///     │
/// 2   │ -     let x = foo(y);
///   2 │ +     let x = foo(&y);
///
/// ```
pub fn emit_suggestion_into_string<'files, F: Files<'files>>(
    config: &Config<'_>,
    files: &'files F,
    suggestion: &Suggestion<F::FileId>,
) -> Result<String, SuggestionError>
    ensures text { NamesAreStated (F.database files.now) suggestion.now.edits.items
        → IfOk result (λ text. string_bytes text
        ≡ text_of (suggestion_stream config.now (F.database files.now) suggestion.now)) }
    ensures gives { NamesAreStated (F.database files.now) suggestion.now.edits.items
        → IfOk result (λ text.
        TextGivesTexts config.now (F.database files.now) suggestion.now (string_bytes text)) }
    ensures failed { FailsByFault
        (rendering_fault config.now (F.database files.now) suggestion.now) result }
{
    let alloc = *suggestion.edits.allocator();
    let mut plain = PlainWriter::new(Vec::new(alloc));
    let written = emit_suggestion_to_write_style(&mut plain, config, files, suggestion);
    match written {
        Ok(()) => match String::from_utf8(plain.into_inner()) {
            Ok(text) => Ok(text),
            Err(_) => Err(SuggestionError::Files(Error::FormatError)),
        },
        // A writer into memory fails only where an allocation does.
        Err(_) if plain.has_failed() => Err(SuggestionError::Files(Error::OutOfMemory)),
        Err(error) => Err(error),
    }
}

/// Writes the output of a suggestion to a writer of styles, in the style of the configuration. It
/// does not flush. The text of the output is UTF-8, and no style mark is inside a character.
///
/// # Errors
///
/// - Those of [`emit_suggestion_into_string`]. Nothing has then been written.
/// - [`SuggestionError::Files`] of `Io` where the writer fails or takes no bytes. A prefix of the
///   output has then been written.
pub fn emit_suggestion_to_write_style<'files, F: Files<'files>, W: WriteStyle>(
    writer: &mut W,
    config: &Config<'_>,
    files: &'files F,
    suggestion: &Suggestion<F::FileId>,
) -> Result<(), SuggestionError>
    ensures written { WritesSuggestion config.now (F.database files.now) suggestion.now
        (W.sink writer.old) result (W.sink writer.new) }
    ensures utf8 { NamesAreStated (F.database files.now) suggestion.now.edits.items
        → OnOk result
        (StreamIsUtf8 (suggestion_stream config.now (F.database files.now) suggestion.now)) }
{
    // Does nothing: shows the prover that the characters are Unicode scalar values.
    chars_are_scalars(&config.chars);
    let context = DiffContext {
        before: config.before_label_lines,
        after: config.after_label_lines,
    };
    let edits = &suggestion.edits;
    let drawn = draw_files(*edits.allocator(), files, edits, context)?;
    match write_output(writer, config, suggestion.message.as_str(), &drawn) {
        Ok(()) => Ok(()),
        Err(error) => Err(SuggestionError::Files(Error::Io(error))),
    }
}
