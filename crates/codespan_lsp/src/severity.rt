//! Severities as the protocol has them.

ghost use Rattle.std.specs.Prelude.{◌≡◌};

use codespan_base::diagnostic::Severity;

/// The severity of a diagnostic that a language server sends.
///
/// `from` converts a [`Severity`]: `Bug` and `Error` to `Error`, `Warning` to `Warning`, `Note` to
/// `Information`, and `Help` to `Hint`.
#[derive(Clone, Copy, Debug, PartialEq, Eq)]
pub enum DiagnosticSeverity {
    /// An error.
    Error,
    /// A warning.
    Warning,
    /// Information.
    Information,
    /// A hint.
    Hint,
}

impl DiagnosticSeverity {
    ghost use Rattle.codespan_lsp.specs.Severities.{severity_number};

    /// Returns the protocol's number: 1 for an error, 2 for a warning, 3 for information, 4 for a
    /// hint.
    pub fn number(self) -> u8
        ensures { result ≡ severity_number self }
    {
        match self {
            DiagnosticSeverity::Error => 1,
            DiagnosticSeverity::Warning => 2,
            DiagnosticSeverity::Information => 3,
            DiagnosticSeverity::Hint => 4,
        }
    }
}

impl From<Severity> for DiagnosticSeverity {
    ghost use Rattle.codespan_lsp.specs.Severities.{lsp_severity};

    ghost from_gives = { λ severity converted. converted ≡ lsp_severity severity };

    fn from(severity: Severity) -> DiagnosticSeverity {
        match severity {
            Severity::Bug | Severity::Error => DiagnosticSeverity::Error,
            Severity::Warning => DiagnosticSeverity::Warning,
            Severity::Note => DiagnosticSeverity::Information,
            Severity::Help => DiagnosticSeverity::Hint,
        }
    }
}
