//! What is wrong in a run or in what runs are compared with, and the errors that end the program.

use crate::rendering::RenderCall;
use crate::style_writers::StyleWriterKind;
use codespan_base::files::Error;
use codespan_base::term::DisplayStyle;
use gallery_cases::errors::LineError;
use program_io::input::InputError;
use std::fmt::Write;
use std::{fmt, io};
use test_writers::stopping::Stop;

/// Where and how a run is stopped: by the writer of bytes, or by the writer of styles.
#[derive(Clone, Copy)]
pub enum StopKind {
    /// Never: it accepts one byte at a time.
    Slow,
    /// In this way, at a write.
    AtWrite(Stop),
    /// It accepts one byte at a time, and fails after some.
    AtByte,
    /// It fails at a style mark, after the first byte of its spelling.
    AtStyleMark,
}

/// What is wrong in a run, or in what runs are compared with.
#[derive(Drop)]
pub enum WrongRun {
    /// A call or an allocation failed, although no writer stops.
    Failed(Error),
    /// The text differs from the one that is expected.
    UnexpectedText,
    /// A string to which the text was appended is not its old text followed by the new one.
    UnexpectedString,
    /// The bytes written by way of a writer of styles differ from the text.
    UnexpectedBytes(StyleWriterKind),
    /// The text in escape sequences differs from what is expected.
    UnexpectedColors,
    /// By way of a writer of styles, no write begins at the first byte, although no output is
    /// empty.
    NoFirstWrite(StyleWriterKind),
    /// By way of a writer of styles, with a writer that stops in this way after this many writes or
    /// style marks: the result is not the expected one (`Io` if the writer stopped, and else `Ok`),
    /// the writer does not hold exactly what it accepted, or it was called again or flushed.
    UnexpectedResult(StyleWriterKind, StopKind, usize),
}

/// An error, with the style and the call in which it occurred.
#[derive(Drop)]
pub struct WrongRunAt {
    /// The style; `None` for a direct call, and before any text is rendered.
    pub style: Option<DisplayStyle>,
    /// The call; `None` for a direct call, and before a call writes to a writer.
    pub call: Option<RenderCall>,
    /// The error.
    pub wrong_run: WrongRun,
}

/// An error that ends the program.
#[derive(Drop)]
pub enum FatalError {
    /// Reading the input failed, or it is not UTF-8.
    Input(InputError),
    /// The line of this number, from 1, has an error.
    Line(usize, LineError),
    /// Writing the output failed.
    CannotWriteOutput,
}

/// Converts an error of reading the input.
impl From<InputError> for FatalError {
    fn from(error: InputError) -> FatalError {
        FatalError::Input(error)
    }
}

/// Converts an error of writing the output.
impl From<io::Error> for FatalError {
    fn from(_error: io::Error) -> FatalError {
        FatalError::CannotWriteOutput
    }
}

/// Writes a few words.
impl fmt::Display for FatalError {
    fn fmt<W: Write>(&self, f: &mut fmt::Formatter<W>) -> fmt::Result {
        match self {
            FatalError::Input(InputError::Unreadable) => f.write_str("cannot read input"),
            FatalError::Input(InputError::NotUtf8) => f.write_str("input is not UTF-8"),
            FatalError::Line(number, line_error) => write!(f, "line {number}: {line_error}"),
            FatalError::CannotWriteOutput => f.write_str("cannot write output"),
        }
    }
}

/// Converts an error of a call or an allocation to `Failed`.
impl From<Error> for WrongRun {
    fn from(error: Error) -> WrongRun {
        WrongRun::Failed(error)
    }
}

/// Writes a few words.
impl fmt::Display for StopKind {
    fn fmt<W: Write>(&self, f: &mut fmt::Formatter<W>) -> fmt::Result {
        f.write_str(match self {
            StopKind::Slow => "takes one byte at a time",
            StopKind::AtWrite(Stop::Fails) => "fails at a write",
            StopKind::AtWrite(Stop::TakesNothing) => "takes nothing of a write",
            StopKind::AtWrite(Stop::IsInterrupted) => "is interrupted",
            StopKind::AtWrite(Stop::TakesOneByte) => "takes one byte and then fails",
            StopKind::AtByte => "takes one byte at a time and then fails",
            StopKind::AtStyleMark => "fails at a style mark",
        })
    }
}

/// Writes a few words.
impl fmt::Display for WrongRun {
    fn fmt<W: Write>(&self, f: &mut fmt::Formatter<W>) -> fmt::Result {
        match self {
            WrongRun::Failed(error) => write!(f, "error: {error}"),
            WrongRun::UnexpectedText => f.write_str("another text than expected"),
            WrongRun::UnexpectedString => f.write_str("another string"),
            WrongRun::UnexpectedBytes(style_writer) => write!(f, "by {style_writer}: another text"),
            WrongRun::UnexpectedColors => f.write_str("other colors than expected"),
            WrongRun::NoFirstWrite(style_writer) => write!(f, "by {style_writer}: no first write"),
            WrongRun::UnexpectedResult(style_writer, writer, after) => {
                write!(
                    f,
                    "by {style_writer}: wrong where a writer {writer}, after {after}"
                )
            }
        }
    }
}

/// Writes the error, after its style and its call.
impl fmt::Display for WrongRunAt {
    fn fmt<W: Write>(&self, f: &mut fmt::Formatter<W>) -> fmt::Result {
        f.write_str(match self.style {
            Some(DisplayStyle::Rich) => "rich, ",
            Some(DisplayStyle::Medium) => "medium, ",
            Some(DisplayStyle::Short) => "short, ",
            None => "",
        })?;
        if let Some(call) = self.call {
            write!(f, "{call}, ")?;
        }
        let wrong_run = &self.wrong_run;
        write!(f, "{wrong_run}")
    }
}
