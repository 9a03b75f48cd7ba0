//! Diagnostics as a language server sends them.

ghost use Rattle.std.specs.Prelude.{◌≡◌, IfOk, map};
ghost use Rattle.codespan_base.specs.LawfulFiles.{FailsBy};
ghost use Rattle.codespan_base.specs.Labels.{is_primary_style};
ghost use Rattle.codespan_lsp.specs.LspDiagnostics.{lsp_view, lsp_diagnostics, lsp_diagnostic_for};
ghost use Rattle.codespan_lsp.specs.LspDiagnostics.{lsp_failure, lsp_diagnostics_failure};
ghost use Rattle.codespan_lsp.specs.LspDiagnostics.{label_range, label_range_failure, related_view};
ghost use Rattle.codespan_lsp.specs.LspDiagnostics.{related_information_of, related_failure};
ghost use Rattle.codespan_lsp.specs.declared.encoding.PositionEncoding.TheVariants.{Utf16};

use crate::encoding::PositionEncoding;
use crate::messages::{clone_code, full_message};
use crate::severity::DiagnosticSeverity;
use crate::spans::{Range, ordered_span};
use codespan_base::diagnostic::{Diagnostic, Label, LabelStyle};
use codespan_base::files::{Error, Files};

/// Related information of a diagnostic: a message on a range of a file.
#[derive(Debug, Drop, PartialEq, Eq)]
pub struct RelatedInformation<FileId> {
    /// The id of the file.
    pub file_id: FileId,
    /// The range.
    pub range: Range,
    /// The message.
    pub message: String,
}

/// A diagnostic as a language server sends it, for one range of a file.
#[derive(Debug, Drop, PartialEq, Eq)]
pub struct LspDiagnostic<FileId> {
    /// The id of the file for which it is sent.
    pub file_id: FileId,
    /// The range.
    pub range: Range,
    /// The severity.
    pub severity: DiagnosticSeverity,
    /// The code, if the diagnostic has one.
    pub code: Option<String>,
    /// The message, which may have several lines.
    pub message: String,
    /// The related information.
    pub related_information: Vec<RelatedInformation<FileId>>,
}

impl PositionEncoding {
    /// Returns the diagnostics that a language server sends for a diagnostic, as
    /// [`to_lsp_diagnostics`] does, in this encoding.
    ///
    /// # Errors
    ///
    /// Those of [`to_lsp_diagnostics`].
    pub fn to_lsp_diagnostics<'files, F: Files<'files>>(
        self,
        files: &'files F,
        diagnostic: &Diagnostic<F::FileId>,
    ) -> Result<Vec<LspDiagnostic<F::FileId>>, Error>
        ensures value { IfOk result (λ found.
            map lsp_view found.items ≡ lsp_diagnostics self (F.database files.now) diagnostic.now) }
        ensures failed { FailsBy
            (lsp_diagnostics_failure self (F.database files.now) diagnostic.now) result }
    {
        let mut found = Vec::new(*diagnostic.message.allocator());
        for label in &diagnostic.labels {
            if is_primary(label) {
                found.push(self.lsp_diagnostic(files, diagnostic, label)?)?;
            }
        }
        Ok(found)
    }

    /// Returns the diagnostic for a primary label. The labels that are not primary are its related
    /// information.
    fn lsp_diagnostic<'files, F: Files<'files>>(
        self,
        files: &'files F,
        diagnostic: &Diagnostic<F::FileId>,
        label: &Label<F::FileId>,
    ) -> Result<LspDiagnostic<F::FileId>, Error>
        ensures value { IfOk result (λ found. lsp_view found
            ≡ lsp_diagnostic_for self (F.database files.now) diagnostic.now label.now) }
        ensures failed { FailsBy (lsp_failure self (F.database files.now) diagnostic.now label.now)
            result }
    {
        let range = self.label_range(files, label)?;
        let related_information = self.related_information(files, &diagnostic.labels)?;
        Ok(LspDiagnostic {
            file_id: label.file_id,
            range,
            severity: DiagnosticSeverity::from(diagnostic.severity),
            code: clone_code(&diagnostic.code)?,
            message: full_message(diagnostic, label)?,
            related_information,
        })
    }

    /// Returns the related information of a diagnostic with these labels: one for each secondary
    /// label, in their order.
    fn related_information<'files, F: Files<'files>>(
        self,
        files: &'files F,
        labels: &Vec<Label<F::FileId>>,
    ) -> Result<Vec<RelatedInformation<F::FileId>>, Error>
        ensures value { IfOk result (λ related. map related_view related.items
            ≡ related_information_of self (F.database files.now) labels.now.items) }
        ensures failed { FailsBy (related_failure self (F.database files.now) labels.now.items)
            result }
    {
        let mut related = Vec::new(*labels.allocator());
        for label in labels {
            if !is_primary(label) {
                let range = self.label_range(files, label)?;
                let message = label.message.clone()?;
                related.push(RelatedInformation {
                    file_id: label.file_id,
                    range,
                    message,
                })?;
            }
        }
        Ok(related)
    }

    /// Returns the range of a label, from the lesser end of the label's span to the greater.
    fn label_range<'files, F: Files<'files>>(
        self,
        files: &'files F,
        label: &Label<F::FileId>,
    ) -> Result<Range, Error>
        ensures value { IfOk result (λ range.
            range ≡ label_range self (F.database files.now) label.now) }
        ensures failed { FailsBy (label_range_failure self (F.database files.now) label.now)
            result }
    {
        self.byte_span_to_range(files, label.file_id, ordered_span(&label.range))
    }
}

/// Returns the diagnostics that a language server sends for a diagnostic: one for each primary
/// label, in the order of the labels. Their positions count UTF-16 code units.
///
/// - The range is the label's, from the lesser end to the greater: the protocol has no range that
///   ends before its start. Severity and code are the diagnostic's.
/// - The message is the diagnostic's, then the label's, if it is not empty, and the notes, each
///   after a newline.
/// - Related information is the file, the range and the message of each secondary label, in the
///   order of the labels.
///
/// For a diagnostic without primary labels the list is empty: no file is known for which it could
/// be sent.
///
/// # Example
///
/// ```rust
/// for sent in &to_lsp_diagnostics(&files, &diagnostic)? {
///     publish(sent.file_id, sent.range, sent.severity.number(), sent.message.as_str());
/// }
/// ```
///
/// # Errors
///
/// - [`Error::OutOfMemory`] where an allocation fails.
/// - The first error of [`byte_span_to_range`](crate::byte_span_to_range): for each primary label
///   in turn, that of its own range, and then those of the ranges of the secondary labels. Of a
///   range the lesser end is looked up first.
pub fn to_lsp_diagnostics<'files, F: Files<'files>>(
    files: &'files F,
    diagnostic: &Diagnostic<F::FileId>,
) -> Result<Vec<LspDiagnostic<F::FileId>>, Error>
    ensures value { IfOk result (λ found.
        map lsp_view found.items ≡ lsp_diagnostics Utf16 (F.database files.now) diagnostic.now) }
    ensures failed { FailsBy (lsp_diagnostics_failure Utf16 (F.database files.now) diagnostic.now)
        result }
{
    PositionEncoding::Utf16.to_lsp_diagnostics(files, diagnostic)
}

/// Returns whether a label is primary.
fn is_primary<FileId>(label: &Label<FileId>) -> bool
    ensures { result ≡ is_primary_style label.now.style }
{
    matches!(label.style, LabelStyle::Primary)
}
