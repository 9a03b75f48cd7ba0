//! The version of the program, which is that of the repository.

ghost use Rattle.std.specs.Prelude.{◌≡◌, codes, map, string_bytes};
ghost use Rattle.std.specs.Io.KnownBytes.{Appends};
ghost use Rattle.report.specs.Requests.{requests_version};

use crate::run::conclude;
use program_io::run_error::write_output;
use std::io::Write;

/// The line that is written where the version is requested.
const VERSION_LINE: &[u8] = b"report 0.1.0\n";

/// Returns whether the arguments request the version: `--version` is the only one.
pub fn is_version_requested(args: &[String]) -> bool
    ensures { result ≡ requests_version (map string_bytes args.now) }
{
    match args {
        [word] => word.as_str() == "--version",
        _ => false,
    }
}

/// Writes the program's name and its version in a line, and returns the program's status: 0, or 1
/// where writing failed, which `stderr` then says.
pub fn write_version<W: Write, E: Write>(stdout: &mut W, stderr: &mut E) -> u8
    ensures written { result ≡ 0
        → Appends (W.contents stdout.old) (W.contents stdout.new) (codes "report 0.1.0\n") }
    ensures no_error { result ≡ 0 → stderr.new ≡ stderr.old }
{
    let outcome = write_output(stdout, VERSION_LINE);
    conclude(outcome, stderr)
}
