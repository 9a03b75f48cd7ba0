//! Statuses by their numbers, and the texts of statuses and arguments.

ghost use Rattle.std.specs.Prelude.{◌≡◌, ◌≤◌, length};
ghost use Rattle.codespan_native.specs.Constants.{STATUS_TEXT_MAX};
ghost use Rattle.codespan_native.specs.Results.{IsTooSmall, IsWritten};
ghost use Rattle.codespan_native.specs.Statuses.{OK, TOO_SMALL};
ghost use Rattle.codespan_native.specs.StatusTexts.{argument_text, status_text, text_for};
ghost use Rattle.codespan_native.specs.Validity.{status_for};

use crate::buffer::copy_out;
use crate::error::Argument;
use crate::raw::Detail;

/// The output was written.
pub const OK: u32 = 0;

/// The output does not fit into the caller's buffer.
pub const TOO_SMALL: u32 = 1;

/// An allocation failed.
pub const OUT_OF_MEMORY: u32 = 2;

/// The first invalid argument is the file of a label: it is not one of the files.
pub const FILE_MISSING: u32 = 3;

/// The first invalid argument is another one.
pub const INVALID: u32 = 4;

/// The number of no argument.
pub const NO_ARGUMENT: u32 = 0;

/// The detail that names no argument.
pub const NO_DETAIL: Detail = Detail {
    argument: NO_ARGUMENT,
    index: 0,
};

/// The text of a number that is of no argument or of one without a text of its own.
const ANY_ARGUMENT_TEXT: &str = "an argument is invalid";

/// What each argument must be, at the index that is its number.
static ARGUMENT_TEXTS: [&str; 35] = [
    ANY_ARGUMENT_TEXT,
    "the ABI version must be that of the library",
    "the display style must be one of those of the header",
    "the layout must be one of those of the header",
    "the form must be one of those of the header",
    "the color mode must be one of those of the header",
    "the choice of characters must be one of those of the header",
    "the text before a locus must be UTF-8",
    "a character must be a Unicode scalar value",
    "a color must be one of those of the header",
    "the reserved words of the configuration must be 0",
    "the name of a file must be UTF-8",
    "the source of a file must be UTF-8",
    "the lines of a file must start with its source, ascend without overlap and end inside it, at \
     boundaries of characters",
    "the locations of a file must ascend strictly",
    "the reserved words of a file must be 0",
    "the severity must be one of those of the header",
    "the code must be UTF-8",
    "the message must be UTF-8",
    "the reserved words of the diagnostic must be 0",
    "the style of a label must be one of those of the header",
    "the message of a label must be UTF-8",
    ANY_ARGUMENT_TEXT,
    "the reserved words of a label must be 0",
    "a note must be UTF-8",
    "the encoding must be one of those of the header",
    "the line must be one of the source, with an index of 32 bits",
    "the byte or the character must not be past the end of its line",
    "the byte or the character must not be inside a character of the source",
    "the replacement of an edit must be UTF-8",
    "the reserved words of an edit must be 0",
    "an edit must not end before it starts",
    "an edit must not end past the end of the source",
    "an edit must start and end at boundaries of characters",
    "edits must not overlap",
];

/// Returns the status of a call whose first invalid argument is this one.
pub fn status_for(argument: Argument) -> u32
    ensures { result ≡ status_for argument }
{
    match argument {
        Argument::LabelFile => FILE_MISSING,
        Argument::Abi
        | Argument::DisplayStyle
        | Argument::Layout
        | Argument::Form
        | Argument::ColorMode
        | Argument::Characters
        | Argument::SnippetStart
        | Argument::Character
        | Argument::Color
        | Argument::ConfigReserved
        | Argument::FileName
        | Argument::FileSource
        | Argument::FileLines
        | Argument::FileLocations
        | Argument::FileReserved
        | Argument::Severity
        | Argument::Code
        | Argument::Message
        | Argument::DiagnosticReserved
        | Argument::LabelStyle
        | Argument::LabelMessage
        | Argument::LabelReserved
        | Argument::Note => INVALID,
    }
}

/// Writes what a status means to `out`, as [`copy_out`] copies bytes, and returns [`OK`] or
/// [`TOO_SMALL`].
///
/// For [`INVALID`] it writes what the argument must be: `argument` is the number of an
/// [`Argument`], and is read for this status alone. The text is ASCII, and at most
/// `STATUS_TEXT_MAX` bytes long, which is 128.
pub fn write_status(status: u32, argument: u32, out: &mut [u8], written: &mut usize) -> u32
    ensures ok { result ≡ OK
        → IsWritten (text_for status argument) out.old out.new written.new }
    ensures too_small { result ≡ TOO_SMALL
        → IsTooSmall (text_for status argument) out.old out.new written.new }
    ensures short { written.new ≤ STATUS_TEXT_MAX }
    ensures status { result ≤ TOO_SMALL }
{
    let text = if status == INVALID {
        argument_text(argument)
    } else {
        status_text(status)
    };
    copy_out(text.as_bytes(), out, written)
}

/// Returns what a status means.
fn status_text(status: u32) -> &'static str
    ensures value { result.now ≡ status_text status }
    ensures short { length result.now ≤ STATUS_TEXT_MAX }
{
    match status {
        OK => "the output was written",
        TOO_SMALL => "the output does not fit into the buffer",
        OUT_OF_MEMORY => "out of memory",
        FILE_MISSING => "the file of a label is not one of the files",
        _ => "unknown status",
    }
}

/// Returns what an argument must be.
fn argument_text(argument: u32) -> &'static str
    ensures value { result.now ≡ argument_text argument }
    ensures short { length result.now ≤ STATUS_TEXT_MAX }
{
    match ARGUMENT_TEXTS.get(argument as usize) {
        Some(text) => text,
        None => ANY_ARGUMENT_TEXT,
    }
}
