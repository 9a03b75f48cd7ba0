//! The texts of a diagnostic that a language server sends.

ghost use Rattle.std.specs.Prelude.{◌≡◌, ◌++◌, IfOk, OnOk, OnErr, IsErrOf, string_bytes};
ghost use Rattle.std.specs.Option.{option_map};
ghost use Rattle.codespan_lsp.specs.Messages.{next_line, joined_messages, full_message};

use codespan_base::diagnostic::{Diagnostic, Label};
use codespan_base::files::Error;

/// Returns the diagnostic's message with the label's message, and with the notes below, each on a
/// line of its own.
///
/// # Errors
///
/// [`Error::OutOfMemory`] where an allocation fails.
pub(crate) fn full_message<FileId>(
    diagnostic: &Diagnostic<FileId>,
    label: &Label<FileId>,
) -> Result<String, Error>
    ensures text { IfOk result (λ text.
        string_bytes text ≡ full_message diagnostic.now label.now) }
    ensures failed { OnErr result (IsErrOf result Error.OutOfMemory) }
{
    let mut text = joined_messages(diagnostic, label)?;
    for note in &diagnostic.notes {
        push_line(&mut text, note.as_str())?;
    }
    Ok(text)
}

/// Returns the diagnostic's message, and the label's message on the next line, if it is not empty.
fn joined_messages<FileId>(
    diagnostic: &Diagnostic<FileId>,
    label: &Label<FileId>,
) -> Result<String, Error>
    ensures text { IfOk result (λ text.
        string_bytes text ≡ joined_messages diagnostic.now label.now) }
    ensures failed { OnErr result (IsErrOf result Error.OutOfMemory) }
{
    let mut text = diagnostic.message.clone()?;
    let more = label.message.as_str();
    if !more.is_empty() {
        push_line(&mut text, more)?;
    }
    Ok(text)
}

/// Appends a newline and a text.
fn push_line(text: &mut String, line: &str) -> Result<(), Error>
    ensures text { OnOk result
        (string_bytes text.new ≡ string_bytes text.old ++ next_line line.now) }
    ensures failed { OnErr result (IsErrOf result Error.OutOfMemory) }
{
    text.push('\n')?;
    text.push_str(line)?;
    Ok(())
}

/// Returns a copy of a code.
///
/// # Errors
///
/// [`Error::OutOfMemory`] where an allocation fails.
pub(crate) fn clone_code(code: &Option<String>) -> Result<Option<String>, Error>
    ensures code { IfOk result (λ copy.
        option_map string_bytes copy ≡ option_map string_bytes code.now) }
    ensures failed { OnErr result (IsErrOf result Error.OutOfMemory) }
{
    match code {
        Some(code) => Ok(Some(code.clone()?)),
        None => Ok(None),
    }
}
