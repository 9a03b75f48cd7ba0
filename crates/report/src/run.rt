//! One run of the program.

ghost use Rattle.std.specs.Prelude.{◌≡◌, ◌≢◌, ◌≤◌, ◌↔◌, ◌⊎◌, ℕ};
ghost use Rattle.std.specs.Prelude.{List, None, Ok, Err, IfErr, IsErrOf, OnOk, codes, map};
ghost use Rattle.std.specs.Prelude.{string_bytes};
ghost use Rattle.std.specs.Io.KnownBytes.{Appends, IsAtEnd};
ghost use Rattle.std.specs.Str.{IsUtf8};
ghost use Rattle.report.specs.RenderedTexts.{rendering_of};
ghost use Rattle.program_io.specs.Output.{AppendsPrefix};
ghost use Rattle.program_io.specs.RunErrors.{failed_output_line};
ghost use Rattle.report.specs.ReportErrors.{IsRunError, IfBadScript, IsReportStatusOf};
ghost use Rattle.report.specs.ReportErrors.{UnchangedUnlessRendered};
ghost use Rattle.report.specs.Requests.{WhereKnown, request_of};

use crate::rendering::render;
use crate::report_error::ReportError;
use crate::request::Request;
use program_io::input::read_text;
use program_io::output::write_and_flush;
use program_io::run_error::{RunError, write_output};
use std::alloc::Global;
use std::io::{Read, Write};

/// Writes the output that the arguments request over the input, and returns the program's status.
///
/// If nothing is rendered, or writing the output fails, the error is written to `stderr`:
/// that of a script as a rendered diagnostic, any other in one line. The status is 0 if the output
/// was written; 2 if the arguments are wrong, before anything is read; 3 if a script's error was
/// written whole; and 1 otherwise, also where writing a script's error failed. Any other failure of
/// `stderr` is ignored.
///
/// The output is changed only after the whole of it was rendered: with status 0, or with status 1
/// where `stderr` has received nothing but the line of a failed output or a prefix of it.
pub fn run<R: Read, W: Write, E: Write>(
    alloc: Global,
    args: &[String],
    stdin: &mut R,
    stdout: &mut W,
    stderr: &mut E,
) -> u8
    ensures status { result ≤ 3 }
    ensures usage { (result ≡ 2) ↔ (request_of (map string_bytes args.now) ≡ None) }
    ensures unread { result ≡ 2 → stdin.new ≡ stdin.old }
    ensures no_error { result ≡ 0 → stderr.new ≡ stderr.old }
    ensures read { result ≡ 0 → IsAtEnd (R.remaining stdin.new) }
    ensures rendered { result ≡ 0
        → WhereKnown (map string_bytes args.now) (R.remaining stdin.old)
        (λ request bytes.
        (text : List ℕ) × (rendering_of request bytes ≡ Ok text)
        × Appends (W.contents stdout.old) (W.contents stdout.new) text) }
    ensures utf8 { result ≡ 0 → WhereKnown (map string_bytes args.now) (R.remaining stdin.old)
        (λ _ bytes. IsUtf8 bytes) }
    ensures unchanged { WhereKnown (map string_bytes args.now) (R.remaining stdin.old) (λ _ bytes.
        ¬ (IsUtf8 bytes) → stdout.new ≡ stdout.old) }
    ensures reported { result ≡ 3
        → WhereKnown (map string_bytes args.now) (R.remaining stdin.old)
        (λ request bytes.
        (text : List ℕ) × (rendering_of request bytes ≡ Err text)
        × Appends (E.contents stderr.old) (E.contents stderr.new) text) }
    ensures bad_script { WhereKnown (map string_bytes args.now) (R.remaining stdin.old)
        (λ request bytes.
        (text : List ℕ) → rendering_of request bytes ≡ Err text
        → ((result ≡ 3) ⊎ (result ≡ 1))
        × (stdout.new ≡ stdout.old)) }
    ensures unrendered { UnchangedUnlessRendered (stdout.new ≡ stdout.old) result
        (E.contents stderr.old) (E.contents stderr.new) }
    ensures prefix { result ≡ 1 → WhereKnown (map string_bytes args.now) (R.remaining stdin.old)
        (λ request bytes. (stdout.new ≡ stdout.old)
        ⊎ ((text : List ℕ) × (rendering_of request bytes ≡ Ok text)
        × AppendsPrefix (W.contents stdout.old) (W.contents stdout.new) text)) }
{
    let outcome = respond(alloc, args, stdin, stdout);
    conclude(outcome, stderr)
}

/// Writes the error, if there is one, and returns the program's status: the error of a script as a
/// rendered diagnostic, any other in one line. The status is 0 without an error, 2 for wrong
/// arguments, 3 for a script's error, and 1 for any other.
///
/// A failure of `stderr` is ignored, except that the status of a script's error is then 1.
pub fn conclude<E: Write>(outcome: Result<(), RunError<ReportError>>, stderr: &mut E) -> u8
    ensures status { IsReportStatusOf outcome result }
    ensures no_error { OnOk outcome (stderr.new ≡ stderr.old) }
    ensures reported { result ≡ 3 → IfErr outcome
        (λ error. IfBadScript error
        (λ text. Appends (E.contents stderr.old) (E.contents stderr.new)
        (string_bytes text))) }
    ensures prefix { IsErrOf outcome RunError.CannotWriteOutput
        → AppendsPrefix (E.contents stderr.old) (E.contents stderr.new)
        (failed_output_line (codes "report")) }
{
    match outcome {
        Err(RunError::Program(ReportError::BadScript(text))) => {
            match write_and_flush(stderr, text.as_bytes()) {
                Ok(()) => 3,
                Err(_) => 1,
            }
        }
        other => program_io::run_error::conclude(other, stderr),
    }
}

/// Reads the arguments and the input, renders, and writes.
fn respond<R: Read, W: Write>(
    alloc: Global,
    args: &[String],
    stdin: &mut R,
    stdout: &mut W,
) -> Result<(), RunError<ReportError>>
    ensures usage { IsErrOf result RunError.WrongArguments
        ↔ (request_of (map string_bytes args.now) ≡ None) }
    ensures unread { IsErrOf result RunError.WrongArguments → stdin.new ≡ stdin.old }
    ensures read { OnOk result (IsAtEnd (R.remaining stdin.new)) }
    ensures rendered { OnOk result (WhereKnown (map string_bytes args.now) (R.remaining stdin.old)
        (λ request bytes.
        (text : List ℕ) × (rendering_of request bytes ≡ Ok text)
        × Appends (W.contents stdout.old) (W.contents stdout.new) text)) }
    ensures utf8 { OnOk result (WhereKnown (map string_bytes args.now) (R.remaining stdin.old)
        (λ _ bytes. IsUtf8 bytes)) }
    ensures reported { IfErr result (λ error.
        WhereKnown (map string_bytes args.now) (R.remaining stdin.old) (IsRunError error)) }
    ensures unchanged { IfErr result (λ error. error ≢ RunError.CannotWriteOutput
        → stdout.new ≡ stdout.old) }
    ensures prefix { IsErrOf result RunError.CannotWriteOutput
        → WhereKnown (map string_bytes args.now) (R.remaining stdin.old) (λ request bytes.
        (text : List ℕ) × (rendering_of request bytes ≡ Ok text)
        × AppendsPrefix (W.contents stdout.old) (W.contents stdout.new) text) }
{
    let request = Request::from_arguments(args).ok_or(RunError::WrongArguments)?;
    let input_text = read_text(alloc, stdin)?;
    let text = render(alloc, &request, input_text.as_str())?;
    write_output(stdout, text.as_bytes())
}
