//! The error that only `safe_text` has.

ghost use Rattle.std.specs.Prelude.{Some, codes};

use program_io::run_error::ProgramError;
use std::fmt;

/// The error that only `safe_text` has. It stands where one is asked for, and is never returned.
#[derive(Debug, Drop)]
pub struct NoError;

impl ProgramError for NoError {
    ghost program_name = { codes "safe_text" };

    ghost usage_line = { codes "usage: safe_text < TEXT" };

    fn program() -> &'static str {
        "safe_text"
    }

    fn usage() -> &'static str {
        "usage: safe_text < TEXT"
    }
}

/// Writes nothing.
impl fmt::Display for NoError {
    ghost output = { λ _. Some (codes "") };

    fn fmt<W: fmt::Write>(&self, f: &mut fmt::Formatter<W>) -> fmt::Result {
        f.write_str("")
    }
}

impl std::error::Error for NoError {}
