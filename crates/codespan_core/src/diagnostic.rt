//! Diagnostics as data: severities, labels on ranges of files, messages and notes.
//!
//! Constructors do not allocate and do not fail. The calls that begin with `with_` take a value and
//! return it with one field changed; where such a call fails, the value is dropped.

ghost use Rattle.std.specs.Prelude.{◌≡◌, [], IfOk, IfSome, IfErr, string_bytes, None};
ghost use Rattle.std.specs.Global.{Global};

mod builders;
mod clones;
pub mod text;

use crate::diagnostic::text::display_text;
use crate::files::Error;
use std::alloc::Global;
use std::fmt::Display;
use std::ops::Range;

/// The severity of a diagnostic. The order is the Rust crate's: `Help` < `Note` < `Warning` <
/// `Error` < `Bug`.
///
/// Equality, order and hash agree, by the law [`codespan_base::laws::severities_agree`].
///
/// # Examples
///
/// ```rust
/// assert!(rt; Severity::Bug > Severity::Error);
/// assert!(rt; Severity::Error > Severity::Warning);
/// assert!(rt; Severity::Warning > Severity::Note);
/// assert!(rt; Severity::Note > Severity::Help);
/// ```
#[derive(Clone, Copy, Debug, PartialEq, Eq, PartialOrd, Ord, Hash)]
pub enum Severity {
    /// Advice on what to do.
    Help,
    /// Information.
    Note,
    /// A possible error.
    Warning,
    /// An error in the input.
    Error,
    /// An error in the program that reports.
    Bug,
}

/// The style of a label. The order is the Rust crate's: `Primary` < `Secondary`.
///
/// Equality and order agree, by the law [`codespan_base::laws::label_styles_agree`].
#[derive(Clone, Copy, Debug, PartialEq, Eq, PartialOrd)]
pub enum LabelStyle {
    /// Labels what the diagnostic is about. Short and medium style render a header for each primary
    /// label.
    Primary,
    /// Labels a range that gives more context.
    Secondary,
}

/// A labeled range of a file's text, with a message.
///
/// # Examples
///
/// ```rust
/// let label = Label::primary(alloc, 'a', 0..1).with_message("here")?;
/// assert_eq!(rt; label.message.as_str(), "here");
/// ```
#[derive(Debug, Drop, PartialEq, Eq)]
pub struct Label<FileId> {
    /// Whether the label is primary or secondary.
    pub style: LabelStyle,
    /// The id of the file, in the file database that the diagnostic is rendered with.
    pub file_id: FileId,
    /// The labeled bytes of the file's text, from 0, with an exclusive end. Any range is valid,
    /// also one past the end of the text, off character boundaries, or with its start after its
    /// end.
    pub range: Range<usize>,
    /// The message. It should be one line: the Rust crate's documentation excludes line breaks. An
    /// empty one is not rendered.
    pub message: String,
}

impl<FileId> Label<FileId> {
    /// Returns a label of this style without a message. The range is in bytes of the text, from 0,
    /// with an exclusive end.
    pub fn new(alloc: Global, style: LabelStyle, file_id: FileId, range: Range<usize>) -> Self
        ensures style { result.style ≡ style }
        ensures file_id { result.file_id ≡ file_id }
        ensures range { result.range ≡ range }
        ensures message { string_bytes result.message ≡ [] }
    {
        Label {
            style,
            file_id,
            range,
            message: String::new(alloc),
        }
    }

    /// Returns a label of style [`LabelStyle::Primary`] without a message. The range is in bytes of
    /// the text, from 0, with an exclusive end.
    pub fn primary(alloc: Global, file_id: FileId, range: Range<usize>) -> Self
        ensures style { result.style ≡ LabelStyle.Primary }
        ensures file_id { result.file_id ≡ file_id }
        ensures range { result.range ≡ range }
        ensures message { string_bytes result.message ≡ [] }
    {
        Label::new(alloc, LabelStyle::Primary, file_id, range)
    }

    /// Returns a label of style [`LabelStyle::Secondary`] without a message. The range is in bytes
    /// of the text, from 0, with an exclusive end.
    pub fn secondary(alloc: Global, file_id: FileId, range: Range<usize>) -> Self
        ensures style { result.style ≡ LabelStyle.Secondary }
        ensures file_id { result.file_id ≡ file_id }
        ensures range { result.range ≡ range }
        ensures message { string_bytes result.message ≡ [] }
    {
        Label::new(alloc, LabelStyle::Secondary, file_id, range)
    }
}

impl<FileId: Drop> Label<FileId> {
    ghost use Rattle.codespan_core.specs.Diagnostics.{IsDisplayError};

    /// Returns the label with the text that `message` displays as its message, instead of the
    /// earlier one.
    ///
    /// # Errors
    ///
    /// - [`Error::FormatError`] where the `Display` fails.
    /// - [`Error::OutOfMemory`] where an allocation fails.
    pub fn with_message<D: Display + Drop>(mut self, message: D) -> Result<Self, Error>
        ensures message { IfOk result (λ label.
            IfSome (D.output message) (λ bytes. string_bytes label.message ≡ bytes)) }
        ensures others { IfOk result (λ label. label ≡ record self { message = label.message }) }
        ensures failed { IfErr result IsDisplayError }
    {
        let text = display_text(*self.message.allocator(), message)?;
        self.message = text;
        Ok(self)
    }
}

/// A diagnostic: what a compiler, or any program that reads texts, reports.
///
/// The order of its labels decides the order of files, of lanes and of equal ranges in rich style,
/// the order of headers in the other styles, and which error is returned where several lookups
/// fail; nothing else of an output. The Rust crate's documentation says that the order has no
/// meaning, but its code does the same.
///
/// # Examples
///
/// ```rust
/// let label = Label::primary(alloc, id, 10..14).with_message("expected a number")?;
/// let diagnostic = Diagnostic::error(alloc)
///     .with_code("E0001")?
///     .with_message("invalid value for `retries`")?
///     .with_label(label)?;
///
/// emit_into_string(&Config::default(), &files, &diagnostic)
/// ```
#[derive(Debug, Drop, PartialEq, Eq)]
pub struct Diagnostic<FileId> {
    /// The severity.
    pub severity: Severity,
    /// The code of this kind of diagnostic. An empty one is not rendered.
    pub code: Option<String>,
    /// The message. It should be one line that makes sense without labels and notes, as the Rust
    /// crate's documentation says.
    pub message: String,
    /// The labels.
    pub labels: Vec<Label<FileId>>,
    /// The notes. Each may have several lines.
    pub notes: Vec<String>,
}

impl<FileId> Diagnostic<FileId> {
    /// Returns a diagnostic of this severity, with empty texts and lists and no code.
    pub fn new(alloc: Global, severity: Severity) -> Self
        ensures severity { result.severity ≡ severity }
        ensures code { result.code ≡ None }
        ensures message { string_bytes result.message ≡ [] }
        ensures labels { result.labels.items ≡ [] }
        ensures notes { result.notes.items ≡ [] }
    {
        Diagnostic {
            severity,
            code: None,
            message: String::new(alloc),
            labels: Vec::new(alloc),
            notes: Vec::new(alloc),
        }
    }

    /// Returns a diagnostic of severity [`Severity::Bug`], with empty texts and lists and no code.
    pub fn bug(alloc: Global) -> Self
        ensures severity { result.severity ≡ Severity.Bug }
        ensures code { result.code ≡ None }
        ensures message { string_bytes result.message ≡ [] }
        ensures labels { result.labels.items ≡ [] }
        ensures notes { result.notes.items ≡ [] }
    {
        Diagnostic::new(alloc, Severity::Bug)
    }

    /// Returns a diagnostic of severity [`Severity::Error`], with empty texts and lists and no
    /// code.
    pub fn error(alloc: Global) -> Self
        ensures severity { result.severity ≡ Severity.Error }
        ensures code { result.code ≡ None }
        ensures message { string_bytes result.message ≡ [] }
        ensures labels { result.labels.items ≡ [] }
        ensures notes { result.notes.items ≡ [] }
    {
        Diagnostic::new(alloc, Severity::Error)
    }

    /// Returns a diagnostic of severity [`Severity::Warning`], with empty texts and lists and no
    /// code.
    pub fn warning(alloc: Global) -> Self
        ensures severity { result.severity ≡ Severity.Warning }
        ensures code { result.code ≡ None }
        ensures message { string_bytes result.message ≡ [] }
        ensures labels { result.labels.items ≡ [] }
        ensures notes { result.notes.items ≡ [] }
    {
        Diagnostic::new(alloc, Severity::Warning)
    }

    /// Returns a diagnostic of severity [`Severity::Note`], with empty texts and lists and no code.
    pub fn note(alloc: Global) -> Self
        ensures severity { result.severity ≡ Severity.Note }
        ensures code { result.code ≡ None }
        ensures message { string_bytes result.message ≡ [] }
        ensures labels { result.labels.items ≡ [] }
        ensures notes { result.notes.items ≡ [] }
    {
        Diagnostic::new(alloc, Severity::Note)
    }

    /// Returns a diagnostic of severity [`Severity::Help`], with empty texts and lists and no code.
    pub fn help(alloc: Global) -> Self
        ensures severity { result.severity ≡ Severity.Help }
        ensures code { result.code ≡ None }
        ensures message { string_bytes result.message ≡ [] }
        ensures labels { result.labels.items ≡ [] }
        ensures notes { result.notes.items ≡ [] }
    {
        Diagnostic::new(alloc, Severity::Help)
    }
}
