//! The calls that make file databases or add to them.

use crate::outcome::{Outcome, judge_failure, judge_success};
use codespan_base::files::{Error, Files, MappedFile, SimpleFile, SimpleFiles};
use std::alloc::Global;
use std::convert::AsStr;

/// A call of a file database.
#[derive(Clone, Copy)]
pub enum DatabaseCall {
    /// `SimpleFile::new`
    SimpleFileNew,
    /// `SimpleFiles::add`
    Add,
    /// `MappedFile::new`
    MappedFileNew,
    /// `MappedFile::set_line`
    SetLine,
}

/// The text of a file.
const TEXT: &str = "a\nb\nc\nd";

/// The numbers of its lines, if none is set.
const NUMBERS: [usize; 4] = [1, 2, 3, 4];

/// Makes a call of a file database, and judges its result and what it leaves.
///
/// # Errors
///
/// `OutOfMemory` if an allocation of the preparation fails.
pub fn judge_database(alloc: Global, call: DatabaseCall) -> Result<Outcome, Error> {
    match call {
        DatabaseCall::SimpleFileNew => Ok(judge_made(&SimpleFile::new(alloc, "f", TEXT))),
        DatabaseCall::MappedFileNew => Ok(judge_made(&MappedFile::new(alloc, "f", TEXT))),
        DatabaseCall::Add => judge_add(alloc),
        DatabaseCall::SetLine => judge_set_line(alloc),
    }
}

/// Judges the result of a call that makes a database of one file.
fn judge_made<'files, F: Files<'files, FileId = ()>>(made: &'files Result<F, Error>) -> Outcome {
    match made {
        Ok(file) => judge_success(is_file(file, (), NUMBERS)),
        Err(error) => judge_failure(error, true),
    }
}

/// Returns whether a file has the text, and lines of these numbers.
fn is_file<'files, F: Files<'files>>(files: &'files F, id: F::FileId, numbers: [usize; 4]) -> bool {
    has_text(files, id, TEXT)
        && is_ok_with(files.line_index(id, 6), 3)
        && has_numbers(files, id, numbers)
}

/// Returns whether a call returned `Ok` with this value.
pub fn is_ok_with<T: PartialEq + Drop>(returned: Result<T, Error>, expected: T) -> bool {
    match returned {
        Ok(value) => value == expected,
        Err(_) => false,
    }
}

/// Returns whether a file has this text.
pub fn has_text<'files, F: Files<'files>>(files: &'files F, id: F::FileId, text: &str) -> bool {
    match files.source(id) {
        Ok(source) => source.as_str() == text,
        Err(_) => false,
    }
}

/// Returns whether the lines of a file have these numbers.
fn has_numbers<'files, F: Files<'files>>(
    files: &'files F,
    id: F::FileId,
    numbers: [usize; 4],
) -> bool {
    for (line, number) in numbers.iter().enumerate() {
        if !is_ok_with(files.line_number(id, line), *number) {
            return false;
        }
    }
    true
}

/// Returns whether a database has this many files, each of them with the text.
fn has_files(files: &SimpleFiles<&'static str, &'static str>, count: usize) -> bool {
    for id in 0..count {
        if !is_file(files, id, NUMBERS) {
            return false;
        }
    }
    matches!(files.get(count), Err(Error::FileMissing))
}

/// Adds a fifth file to four, and judges it.
fn judge_add(alloc: Global) -> Result<Outcome, Error> {
    let mut files = SimpleFiles::new(alloc);
    for name in &["f", "g", "h", "i"] {
        files.add(*name, TEXT)?;
    }
    Ok(match files.add("j", TEXT) {
        Ok(id) => judge_success(id == 4 && has_files(&files, 5)),
        Err(error) => judge_failure(&error, has_files(&files, 4)),
    })
}

/// Sets the first line number, and judges it.
fn judge_set_line(alloc: Global) -> Result<Outcome, Error> {
    let mut file = MappedFile::new(alloc, "f", TEXT)?;
    Ok(match file.set_line(2, 100) {
        Ok(()) => judge_success(is_file(&file, (), [1, 2, 100, 101])),
        Err(error) => judge_failure(&error, is_file(&file, (), NUMBERS)),
    })
}
