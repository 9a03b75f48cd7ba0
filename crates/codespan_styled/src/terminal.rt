//! Text that is safe to print on a terminal.

ghost use Rattle.std.specs.Prelude.{◌≡◌, ◌++◌, IfOk, OnOk, map, string_bytes};
ghost use Rattle.codespan_styled.specs.Runs.{run_view, styled_runs};
ghost use Rattle.codespan_base.specs.StyleSpellings.{ansi_spelling};
ghost use Rattle.codespan_styled.specs.Terminal.{ShowsSafe, runs_bytes, terminal_text};

pub mod laws;

use crate::safe::push_safe;
pub use crate::safe::{is_safe, safe_text};
use crate::text::{Run, StyledText};
use codespan_base::term::config::put_style::PutStyle;
use codespan_base::term::config::style_mark::StyleMark;
use codespan_base::term::{Ansi, Styles, StylesWriter};
use std::alloc::{AllocError, Global};

/// Returns a styled text as text for a terminal: each run after the escape sequences of its style.
///
/// The sequences are those that `Ansi` writes for these styles, and the reset for plain text; a
/// plain first run has none. Characters that are not safe to print are left out of the texts, or
/// replaced: see [`is_safe`]. So no source text, name or message can start an escape sequence, lead
/// back over text, or change its direction by a directional control; right-to-left letters stay.
/// The characters left out take no cell, and those replaced one, so each caret stays in its column.
///
/// # Errors
///
/// [`AllocError`]: an allocation fails.
///
/// # Example
///
/// ```rust
/// let text = styled_text(alloc, &Config::default(), &files, &diagnostic)?;
/// let output = to_terminal(alloc, &text, &Styles::default())?;
/// ```
pub fn to_terminal(alloc: Global, text: &StyledText, styles: &Styles) -> Result<String, AllocError>
    ensures runs { IfOk result (λ terminal. string_bytes terminal
        ≡ terminal_text styles.now (styled_runs text.now)) }
    ensures safe { IfOk result (λ terminal.
        ShowsSafe (string_bytes terminal) (styled_runs text.now)) }
{
    let mut terminal = String::new(alloc);
    push_text(alloc, &mut terminal, styles, text.runs.as_slice())?;
    Ok(terminal)
}

/// Appends the text for a terminal that shows runs.
fn push_text(
    alloc: Global,
    terminal: &mut String,
    styles: &Styles,
    runs: &[Run],
) -> Result<(), AllocError>
    ensures { OnOk result (string_bytes terminal.new
        ≡ string_bytes terminal.old ++ terminal_text styles.now (map run_view runs.now)) }
{
    let [first, rest @ ..] = runs else {
        return Ok(());
    };
    if !first.is_plain() {
        push_sequences(alloc, terminal, styles, first.style)?;
    }
    push_safe(terminal, first.text.as_str())?;
    push_runs(alloc, terminal, styles, rest)
}

/// Appends runs, each after the sequences of its style.
fn push_runs(
    alloc: Global,
    terminal: &mut String,
    styles: &Styles,
    runs: &[Run],
) -> Result<(), AllocError>
    ensures { OnOk result (string_bytes terminal.new
        ≡ string_bytes terminal.old ++ runs_bytes styles.now (map run_view runs.now)) }
{
    for run in runs {
        push_sequences(alloc, terminal, styles, run.style)?;
        push_safe(terminal, run.text.as_str())?;
    }
    Ok(())
}

/// Appends the sequences of a style.
fn push_sequences(
    alloc: Global,
    terminal: &mut String,
    styles: &Styles,
    style: StyleMark,
) -> Result<(), AllocError>
    ensures { OnOk result (string_bytes terminal.new
        ≡ string_bytes terminal.old ++ ansi_spelling styles.now style) }
{
    let bytes = sequences(alloc, styles, style)?;
    let Ok(text) = String::from_utf8(bytes) else {
        unreachable!()
    };
    terminal.push_str(text.as_str())
}

/// Returns the bytes of the sequences of a style.
fn sequences(alloc: Global, styles: &Styles, style: StyleMark) -> Result<Vec<u8>, AllocError>
    ensures { IfOk result (λ bytes. bytes.items ≡ ansi_spelling styles.now style) }
{
    let mut writer = StylesWriter::new(Ansi::new(Vec::new(alloc)), styles);
    match writer.put_mark(style) {
        Ok(()) => Ok(writer.into_inner().into_inner()),
        Err(_) => Err(AllocError),
    }
}
