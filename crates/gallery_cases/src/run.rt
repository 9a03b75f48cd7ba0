//! One run of the program.

ghost use Rattle.std.specs.Prelude.{◌≡◌, ◌≢◌, ◌≤◌, ◌↔◌, ℕ, List};
ghost use Rattle.std.specs.Prelude.{MatchResult, None, OnOk, IfErr, IfOk, IfSome, IsErrAnd};
ghost use Rattle.std.specs.Prelude.{IsErrOf, IsOkAnd, map, string_bytes};
ghost use Rattle.std.specs.Io.KnownBytes.{Appends};
ghost use Rattle.gallery_cases.specs.Responses.{IsResponse, IsResponseOf, IsGalleryRunError};
ghost use Rattle.gallery_cases.specs.Responses.{IsResponseError};
ghost use Rattle.gallery_cases.specs.Requests.{gallery_request_of, gallery_request_view};

use crate::case::Case;
use crate::cases::{case_named, parse_cases};
use crate::document::{default_style_sheet, document};
use crate::errors::GalleryError;
use crate::gallery::render_cases;
use crate::request::Request;
use codespan_suggestions::SuggestionError;
use program_io::input::read_text;
use program_io::run_error::{RunError, conclude, write_output};
use std::alloc::Global;
use std::io::{Read, Write};

/// Writes the requested output of the cases of the input, and returns the program's status: 0, or,
/// after one line about the error on `stderr`, 2 for wrong arguments and 1 for any other error.
///
/// Nothing is written to the output before all is rendered. A failure of `stderr` is ignored.
pub fn run<R: Read, W: Write, E: Write>(
    alloc: Global,
    args: &[String],
    stdin: &mut R,
    stdout: &mut W,
    stderr: &mut E,
) -> u8
    ensures status { result ≤ 2 }
    ensures usage { (result ≡ 2) ↔ (gallery_request_of (map string_bytes args.now) ≡ None) }
    ensures unread { result ≡ 2 → stdin.new ≡ stdin.old }
    ensures unwritten { result ≡ 2 → stdout.new ≡ stdout.old }
    ensures no_error { result ≡ 0 → stderr.new ≡ stderr.old }
    ensures rendered { result ≡ 0 → IfSome (gallery_request_of (map string_bytes args.now))
        (λ request. IfSome (R.remaining stdin.old) (λ text.
        (response : List ℕ) × IsResponse request text response
        × Appends (W.contents stdout.old) (W.contents stdout.new) response)) }
{
    conclude(respond(alloc, args, stdin, stdout), stderr)
}

/// Reads the cases, renders what is requested, and writes it.
fn respond<R: Read, W: Write>(
    alloc: Global,
    args: &[String],
    stdin: &mut R,
    stdout: &mut W,
) -> Result<(), RunError<GalleryError>>
    ensures usage { IsErrOf result RunError.WrongArguments
        ↔ (gallery_request_of (map string_bytes args.now) ≡ None) }
    ensures unread { IsErrOf result RunError.WrongArguments → stdin.new ≡ stdin.old }
    ensures rendered { OnOk result (IfSome (gallery_request_of (map string_bytes args.now))
        (λ request. IfSome (R.remaining stdin.old) (λ text.
        (response : List ℕ) × IsResponse request text response
        × Appends (W.contents stdout.old) (W.contents stdout.new) response))) }
    ensures reported { IfErr result (λ error.
        IfSome (R.remaining stdin.old)
        (IsGalleryRunError (gallery_request_of (map string_bytes args.now)) error)) }
    ensures unchanged { IfErr result (λ error. error ≢ RunError.CannotWriteOutput
        → stdout.new ≡ stdout.old) }
{
    let request = Request::from_arguments(args).ok_or(RunError::WrongArguments)?;
    let text = read_text(alloc, stdin)?;
    let cases = parse_cases(alloc, text.as_str())?;
    let response = response(alloc, request, cases.as_slice())?;
    write_output(stdout, response.as_slice())
}

/// Returns what is requested of the cases.
fn response(
    alloc: Global,
    request: Request<'_>,
    cases: &[Case<'_>],
) -> Result<Vec<u8>, RunError<GalleryError>>
    ensures responds { IfOk result (λ bytes.
        IsResponseOf (gallery_request_view request.entry) cases.now bytes.items) }
    ensures fails { IfErr result (IsResponseError (gallery_request_view request.entry) cases.now) }
{
    match request {
        Request::All => Ok(render_cases(alloc, cases)?),
        Request::Styles => bytes_of(default_style_sheet(alloc)),
        Request::Document(format, name) => {
            let Some(case) = case_named(cases, name) else {
                let name = String::from_str(alloc, name)?;
                return Err(RunError::Program(GalleryError::UnknownCase(name)));
            };
            bytes_of(document(alloc, case, format))
        }
    }
}

/// Returns the bytes of a document; fails with `CannotRender` if that could not be rendered.
fn bytes_of(document: Result<String, SuggestionError>) -> Result<Vec<u8>, RunError<GalleryError>>
    ensures { MatchResult result
        (λ bytes. IsOkAnd document (λ text. bytes.items ≡ string_bytes text))
        (λ run_error. IsErrAnd document (λ error.
        run_error ≡ RunError.Program (GalleryError.CannotRender error))) }
{
    match document {
        Ok(document) => Ok(document.into_bytes()),
        Err(error) => Err(RunError::Program(GalleryError::CannotRender(error))),
    }
}
