//! Prints the warnings of a linter of settings, and the settings after the edits that it suggests.

ghost use Rattle.std.specs.Prelude.{◌≡◌, IfOk, IfSome, slice_get};
ghost use Rattle.examples.specs.Bytes.{byte_range};

use crate::config::front_end::{Token, lex, token_text};
use codespan_edits::Edit;
use codespan_reporting::diagnostic::{Diagnostic, Label, LabelStyle};
use codespan_reporting::files::{Error, SimpleFile};
use codespan_reporting::term::{Config, emit_to_io_write};
use codespan_suggestions::{Applicability, Suggestion, SuggestionError, apply_suggestion};
use std::alloc::Global;

/// Settings, two of them with a word for which there is a better one.
const SETTINGS: &str = "\
name = server
verbose = yes
port = 8080
color = off
";

/// Prints each warning, and then the settings after the edits.
///
/// # Errors
///
/// `Io` where the output fails, and `OutOfMemory` where an allocation does.
pub fn run(rt: &HostRuntime) -> Result<(), Error> {
    let alloc = rt.alloc();
    let file = SimpleFile::new(alloc, "server.conf", SETTINGS)?;
    let mut suggestion = Suggestion::new(alloc)
        .with_message("write `true` or `false`")?
        .with_applicability(Applicability::MachineApplicable);
    for token in &lex(alloc, SETTINGS)? {
        let Some(word) = better_word(token_text(SETTINGS, *token)) else {
            continue;
        };
        let warning = warning(alloc, *token, word)?;
        emit_to_io_write(&mut rt.stdout(), &Config::default(), &file, &warning)?;
        let edit = Edit::new(alloc, (), token.start..token.end, word)?;
        suggestion = suggestion.with_edit(edit)?;
    }
    print_edited(rt, &file, &suggestion)
}

/// Returns the word to be written in place of this one, if there is a better one.
fn better_word(word: &str) -> Option<&'static str> {
    match word {
        "yes" | "on" => Some("true"),
        "no" | "off" => Some("false"),
        _ => None,
    }
}

/// Returns the warning of a token for which there is a better word.
fn warning(alloc: Global, token: Token, word: &str) -> Result<Diagnostic<()>, Error>
    ensures { IfOk result (λ d. IfSome (slice_get d.labels.items 0) (λ label.
        (label.style ≡ LabelStyle.Primary) × (label.range ≡ byte_range token))) }
{
    let label = Label::primary(alloc, (), token.start..token.end).with_message(word)?;
    Diagnostic::warning(alloc)
        .with_message("there is a better word")?
        .with_label(label)
}

/// Prints the settings after the edits of the suggestion.
fn print_edited(
    rt: &HostRuntime,
    file: &SimpleFile<&str, &str>,
    suggestion: &Suggestion<()>,
) -> Result<(), Error> {
    match apply_suggestion(rt.alloc(), file, suggestion) {
        Ok(texts) => {
            for (_, text) in &texts {
                print!(rt; "{text}")?;
            }
        }
        Err(SuggestionError::Files(error)) => return Err(error),
        Err(SuggestionError::Edit(error)) => print!(rt; "{error}\n")?,
    }
    Ok(())
}
