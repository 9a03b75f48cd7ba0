//! The error of a run, its line, and the status that the program ends with.

ghost use Rattle.std.specs.Prelude.{◌≡◌, ℕ, List, IfErr, IfSome, IsErrOf, OnOk};
ghost use Rattle.std.specs.Fmt.{with_newline};
ghost use Rattle.std.specs.Io.KnownBytes.{Appends};
ghost use Rattle.program_io.specs.Output.{AppendsPrefix};
ghost use Rattle.program_io.specs.RunErrors.{IsStatusOf, displayed_error, failed_output_line};
ghost use Rattle.program_io.specs.declared.run_error.RunError.TheVariants as run_errors;

use crate::arguments::ArgumentsError;
use crate::input::InputError;
use crate::output::{write_all, write_and_flush};
use std::alloc::AllocError;
use std::error::Error;
use std::io::Write;
use std::{fmt, io};

/// The error of a run; `E` is the type of the errors that only this program has.
#[derive(Debug, Drop)]
pub enum RunError<E> {
    /// The arguments are wrong.
    WrongArguments,
    /// Reading the input failed, or an allocation for it.
    CannotReadInput,
    /// The input is not UTF-8.
    NotUtf8,
    /// An allocation failed that no other variant covers, for instance one for the arguments.
    OutOfMemory,
    /// Writing or flushing the output failed.
    CannotWriteOutput,
    /// An error that only this program has.
    Program(E),
}

/// An error that only one program has. Its type also has the name and the usage of that program,
/// from which [`RunError`] makes its lines.
pub trait ProgramError: Error {
    /// The program's name.
    ghost program_name: { List ℕ };

    /// The usage, which is the line of wrong arguments, without its newline.
    ghost usage_line: { List ℕ };

    /// Returns the program's name.
    fn program() -> &'static str
        ensures { result.now ≡ program_name };

    /// Returns the usage, which is the line of wrong arguments, without its newline.
    fn usage() -> &'static str
        ensures { result.now ≡ usage_line };
}

impl<E: ProgramError> RunError<E> {
    /// Writes the error and a newline.
    ///
    /// # Errors
    ///
    /// An [`io::Error`] if a write fails. Of the line of a failed output a prefix has then been
    /// written; what has been written of another error is unspecified.
    pub fn write_line<W: Write>(&self, stderr: &mut W) -> io::Result<()>
        ensures written { OnOk result
            (IfSome (with_newline (displayed_error E.program_name E.usage_line E.output self.now))
            (Appends (W.contents stderr.old) (W.contents stderr.new))) }
        ensures prefix { self.now ≡ run_errors.CannotWriteOutput
            → AppendsPrefix (W.contents stderr.old) (W.contents stderr.new)
            (failed_output_line E.program_name) }
    {
        match self {
            // The contract of `writeln!` leaves open what a failed one has written.
            RunError::CannotWriteOutput => {
                write_all(stderr, E::program().as_bytes())?;
                write_all(stderr, b": cannot write output\n")
            }
            _ => writeln!(stderr, "{self}"),
        }
    }
}

/// Writes the error, if there is one, in one line, and returns the program's status: 0 without an
/// error, 2 for wrong arguments, 1 for any other. A failure of `stderr` is ignored.
pub fn conclude<E: ProgramError + Drop, W: Write>(
    outcome: Result<(), RunError<E>>,
    stderr: &mut W,
) -> u8
    ensures status { IsStatusOf outcome result }
    ensures no_error { OnOk outcome (stderr.new ≡ stderr.old) }
    ensures prefix { IsErrOf outcome RunError.CannotWriteOutput
        → AppendsPrefix (W.contents stderr.old) (W.contents stderr.new)
        (failed_output_line E.program_name) }
{
    match outcome {
        Ok(()) => 0,
        Err(error) => {
            let _ = error.write_line(stderr);
            match error {
                RunError::WrongArguments => 2,
                _ => 1,
            }
        }
    }
}

/// Writes all the bytes to the output and flushes it.
///
/// # Errors
///
/// `CannotWriteOutput` if a write or the flush fails. A prefix of the bytes, or all of them, has
/// then been written.
pub fn write_output<E, W: Write>(stdout: &mut W, bytes: &[u8]) -> Result<(), RunError<E>>
    ensures written { OnOk result (Appends (W.contents stdout.old)
        (W.contents stdout.new) bytes.now) }
    ensures prefix { AppendsPrefix (W.contents stdout.old) (W.contents stdout.new) bytes.now }
    ensures failed { IfErr result (λ error. error ≡ RunError.CannotWriteOutput) }
{
    match write_and_flush(stdout, bytes) {
        Ok(()) => Ok(()),
        Err(_) => Err(RunError::CannotWriteOutput),
    }
}

/// Converts an error of reading the arguments: arguments that are not UTF-8 are wrong.
impl<E> From<ArgumentsError> for RunError<E> {
    ghost use Rattle.program_io.specs.RunErrors.{arguments_error};

    ghost from_gives = { λ error run_error. run_error ≡ arguments_error error };

    fn from(error: ArgumentsError) -> RunError<E> {
        match error {
            ArgumentsError::NotUtf8 => RunError::WrongArguments,
            ArgumentsError::OutOfMemory => RunError::OutOfMemory,
        }
    }
}

/// Converts an error of reading the input.
impl<E> From<InputError> for RunError<E> {
    ghost use Rattle.program_io.specs.RunErrors.{input_error};

    ghost from_gives = { λ error run_error. run_error ≡ input_error error };

    fn from(error: InputError) -> RunError<E> {
        match error {
            InputError::Unreadable => RunError::CannotReadInput,
            InputError::NotUtf8 => RunError::NotUtf8,
        }
    }
}

/// Converts a failed allocation.
impl<E> From<AllocError> for RunError<E> {
    ghost from_gives = { λ _ run_error. run_error ≡ run_errors.OutOfMemory };

    fn from(_error: AllocError) -> RunError<E> {
        RunError::OutOfMemory
    }
}

/// Writes the error's line, without its newline; for [`RunError::Program`], what the `Display` of
/// the program's own error writes.
impl<E: ProgramError> fmt::Display for RunError<E> {
    ghost output = { displayed_error E.program_name E.usage_line E.output };

    fn fmt<W: fmt::Write>(&self, f: &mut fmt::Formatter<W>) -> fmt::Result {
        let program = E::program();
        match self {
            RunError::WrongArguments => f.write_str(E::usage()),
            RunError::CannotReadInput => write!(f, "{program}: cannot read input"),
            RunError::NotUtf8 => write!(f, "{program}: input is not UTF-8"),
            RunError::OutOfMemory => write!(f, "{program}: out of memory"),
            RunError::CannotWriteOutput => write!(f, "{program}: cannot write output"),
            RunError::Program(error) => write!(f, "{error}"),
        }
    }
}

impl<E: ProgramError> Error for RunError<E> {}
