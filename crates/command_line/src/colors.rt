//! Whether an output is in color: as users expect it, by the stream and the environment.

use std::env;
use std::env::VarError;
use std::io::IsTerminal;

/// Returns whether standard output is to be in color: where it is a terminal, `NO_COLOR` is not set
/// and `TERM` is not `dumb`, or where `CLICOLOR_FORCE` is set to anything but `0`. A variable that
/// is set to an empty text counts as one that is not set.
pub fn are_wanted(rt: &HostRuntime) -> bool {
    is_set_but(rt, "CLICOLOR_FORCE", "0")
        || (rt.stdout().is_terminal() && !is_set_but(rt, "NO_COLOR", "") && !is_terminal_dumb(rt))
}

/// Returns whether an environment variable is set, neither to an empty text nor to `other`.
fn is_set_but(rt: &HostRuntime, name: &str, other: &str) -> bool {
    match env::var(rt, name) {
        Ok(value) => !value.is_empty() && value.as_str() != other,
        Err(VarError::NotPresent) => false,
        Err(_) => true,
    }
}

/// Returns whether the environment variable `TERM` names a terminal without colors.
fn is_terminal_dumb(rt: &HostRuntime) -> bool {
    match env::var(rt, "TERM") {
        Ok(value) => value.as_str() == "dumb",
        Err(_) => false,
    }
}
