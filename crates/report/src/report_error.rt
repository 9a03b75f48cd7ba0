//! The errors that only `report` has.

ghost use Rattle.std.specs.Prelude.{◌≡◌, codes};
ghost use Rattle.program_io.specs.declared.run_error.RunError.TheVariants.{Program};
ghost use Rattle.report.specs.declared.report_error.ReportError.TheVariants.{CannotRender};

use codespan_core::files::Error;
use program_io::run_error::{ProgramError, RunError};
use std::fmt;

/// An error that only `report` has.
#[derive(Debug, Drop)]
pub enum ReportError {
    /// Rendering failed, or an allocation for the script or for the diagnostic.
    CannotRender(Error),
    /// The input is not a script: the rendered diagnostic of its first error.
    BadScript(String),
}

impl ProgramError for ReportError {
    ghost program_name = { codes "report" };

    ghost usage_line = { codes "usage: report STYLE NAME START END MESSAGE" };

    fn program() -> &'static str {
        "report"
    }

    fn usage() -> &'static str {
        "usage: report STYLE NAME START END MESSAGE"
    }
}

/// Converts an error of rendering to `CannotRender`.
impl From<Error> for ReportError {
    ghost from_gives = { λ error report_error. report_error ≡ CannotRender error };

    fn from(error: Error) -> ReportError {
        ReportError::CannotRender(error)
    }
}

/// Converts an error that only `report` has to `Program`.
impl From<ReportError> for RunError<ReportError> {
    ghost from_gives = { λ report_error run_error. run_error ≡ Program report_error };

    fn from(report_error: ReportError) -> RunError<ReportError> {
        RunError::Program(report_error)
    }
}

/// Writes the error's line, without its newline; for `BadScript`, the rendered diagnostic.
impl fmt::Display for ReportError {
    ghost use Rattle.report.specs.ReportErrors.{displayed_report_error};

    ghost output = { displayed_report_error };

    fn fmt<W: fmt::Write>(&self, f: &mut fmt::Formatter<W>) -> fmt::Result {
        match self {
            ReportError::CannotRender(error) => write!(f, "report: {error}"),
            ReportError::BadScript(text) => write!(f, "{text}"),
        }
    }
}

impl std::error::Error for ReportError {}
