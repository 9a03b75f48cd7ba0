//! The header of a diagnostic, and the start of a snippet.

ghost use Rattle.std.specs.Prelude.{◌≡◌, ◌++◌};
ghost use Rattle.std.specs.Option.{option_map};
ghost use Rattle.codespan_core.specs.Diagnostics.{severity_name};
ghost use Rattle.codespan_core.specs.Streams.{newline};
ghost use Rattle.codespan_core.specs.WriterLaw.{Writes};
ghost use Rattle.codespan_output.specs.Arguments.{locus_view, text_now};
ghost use Rattle.codespan_output.specs.RowStreams.{bracketed, header_locus, snippet_start_row};
ghost use Rattle.codespan_output.specs.RenderedRows.{rendered_header};

use crate::arguments::Locus;
use crate::rows::parts::{outer_gutter, snippet_locus};
use codespan_core::diagnostic::Severity;
use codespan_core::term::config::put_style::PutStyle;
use codespan_core::term::config::style_mark::StyleMark;
use codespan_core::term::config::writing::put_all;
use codespan_core::term::{Chars, SnippetStart};

/// Returns the name of a severity.
fn severity_name(severity: Severity) -> &'static str
    ensures { result.now ≡ severity_name severity }
{
    match severity {
        Severity::Bug => "bug",
        Severity::Error => "error",
        Severity::Warning => "warning",
        Severity::Note => "note",
        Severity::Help => "help",
    }
}

/// Writes the locus of a header, a colon and a space, or nothing where there is no locus.
#[tactic(auto, using(codespan_core::proofs::Writes::write_chains), unfolding(crate::specs::RowStreams::header_locus))]
fn write_header_locus<W: PutStyle>(w: &mut W, locus: Option<&Locus>) -> Result<(), W::Error>
    ensures { Writes (W.sink w.old)
        (header_locus (option_map (λ x. locus_view x.now) locus.entry)) result (W.sink w.new) }
{
    if let Some(locus) = locus {
        snippet_locus(w, locus)?;
        put_all(w, b": ")?;
    }
    Ok(())
}

/// Writes the code in brackets, or nothing where it is `None` or empty.
#[tactic(auto, using(codespan_core::proofs::Writes::write_chains), unfolding(crate::specs::RowStreams::bracketed))]
fn write_code<W: PutStyle>(w: &mut W, code: Option<&str>) -> Result<(), W::Error>
    ensures { Writes (W.sink w.old) (bracketed (option_map text_now code.entry))
        result (W.sink w.new) }
{
    match code {
        Some(code) if !code.is_empty() => {
            put_all(w, b"[")?;
            put_all(w, code.as_bytes())?;
            put_all(w, b"]")
        }
        _ => Ok(()),
    }
}

/// Writes the header of a diagnostic: locus, severity, code and message. An empty code is left out.
///
/// # Errors
///
/// The writer's error; a prefix has then been written.
pub fn write_header<W: PutStyle>(
    w: &mut W,
    locus: Option<&Locus>,
    severity: Severity,
    code: Option<&str>,
    message: &str,
) -> Result<(), W::Error>
    ensures { Writes (W.sink w.old) (rendered_header locus.entry severity code.entry message.now)
        result (W.sink w.new) }
{
    write_header_locus(w, locus)?;
    w.put_mark(StyleMark::Header(severity))?;
    put_all(w, severity_name(severity).as_bytes())?;
    write_code(w, code)?;
    w.put_mark(StyleMark::HeaderMessage)?;
    put_all(w, b": ")?;
    put_all(w, message.as_bytes())?;
    w.put_mark(StyleMark::Reset)?;
    put_all(w, b"\n")
}

/// Writes the start of a file's snippet: outer gutter, [`Chars::snippet_start`] and locus.
///
/// # Errors
///
/// The writer's error; a prefix has then been written.
pub fn write_snippet_start<W: PutStyle>(
    w: &mut W,
    chars: &Chars<'_>,
    padding: usize,
    locus: &Locus,
) -> Result<(), W::Error>
    ensures { Writes (W.sink w.old)
        (snippet_start_row chars.now padding (locus_view locus.now) ++ newline)
        result (W.sink w.new) }
{
    outer_gutter(w, padding)?;
    w.put_mark(StyleMark::SourceBorder)?;
    let start = match &chars.snippet_start {
        SnippetStart::Fixed(text) => *text,
        SnippetStart::Owned(text) => text.as_str(),
    };
    put_all(w, start.as_bytes())?;
    w.put_mark(StyleMark::Reset)?;
    put_all(w, b" ")?;
    snippet_locus(w, locus)?;
    put_all(w, b"\n")
}
