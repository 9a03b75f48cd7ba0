//! One run of the program.

ghost use Rattle.std.specs.Prelude.{◌≡◌, ◌≢◌, ◌≤◌, ◌↔◌, []};
ghost use Rattle.std.specs.Prelude.{IfErr, IfSome, IsErrOf, OnOk, codes};
ghost use Rattle.std.specs.Io.KnownBytes.{Appends, IsAtEnd};
ghost use Rattle.std.specs.Str.{IsUtf8};
ghost use Rattle.codespan_styled.specs.SafeText.{safe_text};
ghost use Rattle.program_io.specs.Output.{AppendsPrefix};
ghost use Rattle.program_io.specs.RunErrors.{failed_output_line};

use crate::no_error::NoError;
use codespan_styled::terminal::safe_text;
use program_io::input::read_text;
use program_io::run_error::{RunError, conclude, write_output};
use std::alloc::Global;
use std::io::{Read, Write};

/// Writes the input as safe text, and returns the program's status: 0; 2 where there are arguments,
/// before anything is read; 1 where the input is no text, or an allocation or writing fails. An
/// error is written to `stderr` in one line, whose failure is ignored.
pub fn run<R: Read, W: Write, E: Write>(
    alloc: Global,
    args: &[String],
    stdin: &mut R,
    stdout: &mut W,
    stderr: &mut E,
) -> u8
    ensures status { result ≤ 2 }
    ensures usage { (result ≡ 2) ↔ (args.now ≢ []) }
    ensures unread { result ≡ 2 → stdin.new ≡ stdin.old }
    ensures no_error { result ≡ 0 → stderr.new ≡ stderr.old }
    ensures read { result ≡ 0 → IsAtEnd (R.remaining stdin.new) }
    ensures safe { result ≡ 0 → IfSome (R.remaining stdin.old)
        (λ bytes. Appends (W.contents stdout.old) (W.contents stdout.new) (safe_text bytes)) }
    ensures not_utf8 { IfSome (R.remaining stdin.old)
        (λ bytes. ¬ (IsUtf8 bytes) → stdout.new ≡ stdout.old) }
    ensures prefix { IfSome (R.remaining stdin.old) (λ bytes.
        AppendsPrefix (W.contents stdout.old) (W.contents stdout.new) (safe_text bytes)) }
{
    let outcome = respond(alloc, args, stdin, stdout);
    conclude(outcome, stderr)
}

/// Reads the input, and writes it as safe text.
fn respond<R: Read, W: Write>(
    alloc: Global,
    args: &[String],
    stdin: &mut R,
    stdout: &mut W,
) -> Result<(), RunError<NoError>>
    ensures usage { IsErrOf result RunError.WrongArguments ↔ (args.now ≢ []) }
    ensures unread { IsErrOf result RunError.WrongArguments → stdin.new ≡ stdin.old }
    ensures read { OnOk result (IsAtEnd (R.remaining stdin.new)) }
    ensures safe { OnOk result (IfSome (R.remaining stdin.old)
        (λ bytes. Appends (W.contents stdout.old) (W.contents stdout.new) (safe_text bytes))) }
    ensures not_utf8 { IfSome (R.remaining stdin.old)
        (λ bytes. ¬ (IsUtf8 bytes) → stdout.new ≡ stdout.old) }
    ensures prefix { IfSome (R.remaining stdin.old) (λ bytes.
        AppendsPrefix (W.contents stdout.old) (W.contents stdout.new) (safe_text bytes)) }
{
    if !args.is_empty() {
        return Err(RunError::WrongArguments);
    }
    let text = read_text(alloc, stdin)?;
    let safe = safe_text(alloc, text.as_str())?;
    write_output(stdout, safe.as_bytes())
}
