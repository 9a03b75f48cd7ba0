//! Worked lookups and errors.

mod example;
mod generic;
mod ids;

use crate::asserts::{
    assert_file_missing, assert_line_too_large, assert_ok, assert_same, assert_same_at,
    is_file_missing,
};
use crate::fixtures::{mapped_file, simple_file, two_files};
use codespan_base::files::{
    Error, Files, MappedFile, SimpleFile, SimpleFiles, column_index, default_line_number,
    line_starts,
};
use std::alloc::{AllocError, Global};
use std::panic::Expect;
use std::process::Abort;
use std::{fmt, io};

/// Bytes, and their columns in the line `2..13` of the text below.
static COLUMNS: [(usize, usize); 8] = [
    (0, 0),
    (2, 0),
    (3, 0),
    (6, 1),
    (10, 2),
    (12, 2),
    (13, 3),
    (14, 3),
];

/// The starts of the lines of `FOUR_LINES`.
static STARTS: [usize; 4] = [0, 4, 9, 10];

/// Asserts that the lines of a text start at these bytes.
fn assert_starts(rt: &impl Abort, alloc: Global, text: &str, expected: &[usize]) {
    let starts: Vec<usize> = line_starts(text).collect(alloc).expect(rt, "the starts");
    assert_same(rt, &starts.as_slice(), &expected);
}

#[test]
fn columns_and_starts(rt: HostRuntime) {
    let text = "\n\n🗻∈🌏\n\n";
    assert_same(&rt, &column_index(text, 0..1, 0), &0);
    for (byte, column) in &COLUMNS {
        assert_same_at(&rt, *byte, &column_index(text, 2..13, *byte), column);
    }
    assert_starts(&rt, rt.alloc(), FOUR_LINES, STARTS.as_slice());
}

/// A text of four lines, the second of which ends with two characters, and the last with none.
const FOUR_LINES: &str = "foo\nbar\r\n\nbaz";

/// Its lines.
static LINES: [&str; 4] = ["foo\n", "bar\r\n", "\n", "baz"];

#[test]
fn ranges_of_lines(rt: HostRuntime) {
    let file = simple_file(&rt, rt.alloc(), FOUR_LINES);
    for (line, part) in LINES.iter().enumerate() {
        let range = file.line_range((), line).expect(&rt, "the range of a line");
        assert_same_at(&rt, line, &FOUR_LINES.get(range), &Some(*part));
    }
}

#[test]
fn indices_of_lines(rt: HostRuntime) {
    let file = simple_file(&rt, rt.alloc(), FOUR_LINES);
    assert_ok(&rt, file.line_index((), 5), 1);
    assert_ok(&rt, file.line_index((), 99), 3);
}

#[test]
fn line_past_the_last(rt: HostRuntime) {
    let file = simple_file(&rt, rt.alloc(), "a\nb");
    assert_line_too_large(&rt, file.line_range((), 2), (2, 1));
}

/// Whether each of three lookups fails with `FileMissing`.
type Missing = (bool, bool, bool);

/// Returns of the six lookups that need the file whether each fails so.
fn missing_lookups<'a, F: Files<'a>>(files: &'a F, id: F::FileId) -> (Missing, Missing) {
    (
        (
            is_file_missing(files.name(id)),
            is_file_missing(files.source(id)),
            is_file_missing(files.line_index(id, 0)),
        ),
        (
            is_file_missing(files.column_number(id, 0, 0)),
            is_file_missing(files.location(id, 0)),
            is_file_missing(files.line_range(id, 0)),
        ),
    )
}

/// Asserts that all of these lookups fail for an id, or that none does.
fn assert_missing(rt: &impl Abort, files: &SimpleFiles<&str, &str>, id: usize, is_missing: bool) {
    let three = (is_missing, is_missing, is_missing);
    assert_same_at(rt, id, &missing_lookups(files, id), &(three, three));
}

#[test]
fn file_database(rt: HostRuntime) {
    let mut files = two_files(&rt, rt.alloc(), "ab", "c\nd");
    assert_ok(&rt, files.add("h", ""), 2);
    assert_missing(&rt, &files, 0, false);
    assert_missing(&rt, &files, 2, false);
    assert_missing(&rt, &files, 3, true);
    assert_missing(&rt, &files, 7, true);
    assert_ok(&rt, files.line_number(7, 0), 1);
}

/// Asserts that a call returned the file of this name and text.
fn assert_file(
    rt: &impl Abort,
    returned: Result<&SimpleFile<&'static str, &'static str>, Error>,
    expected: (&str, &str),
) {
    let file = returned.expect(rt, "a file");
    assert_same(rt, &(*file.name(), *file.source()), &expected);
}

#[test]
fn file_of_database(rt: HostRuntime) {
    let files = two_files(&rt, rt.alloc(), "ab", "c\nd");
    assert_file(&rt, files.get(1), ("g", "c\nd"));
    assert_file_missing(&rt, files.get(2));
}

/// Returns the text of a line, without its newline.
fn line_text<'a>(
    file: &'a MappedFile<&'static str, &'static str>,
    line: usize,
) -> Result<Option<&'a str>, Error> {
    let range = file.line_range((), line)?;
    Ok(file.source(())?.get(range))
}

/// Lines, and their numbers where line 2 has the number 100.
static NUMBERS: [(usize, usize); 4] = [(0, 1), (1, 2), (2, 100), (3, 101)];

#[test]
fn mapped_numbers(rt: HostRuntime) {
    let file = mapped_file(&rt, rt.alloc(), "a\nb\nc\nd", 2, 100);
    for (line, number) in &NUMBERS {
        assert_ok(&rt, file.line_number((), *line), *number);
    }
    assert_ok(&rt, line_text(&file, 1), Some("b"));
}

#[test]
fn mapped_overflow(rt: HostRuntime) {
    let mut file = mapped_file(&rt, rt.alloc(), "a\nb\nc\nd", 1, usize::MAX);
    assert_ok(&rt, file.line_number((), 1), usize::MAX);
    assert_line_too_large(&rt, file.line_number((), 2), (2, 1));
    assert_line_too_large(&rt, file.set_line(4, 1), (4, 3));
    assert_ok(&rt, file.line_number((), 0), 1);
    assert_ok(&rt, file.line_number((), 1), usize::MAX);
}

#[test]
fn greatest_indices(rt: HostRuntime) {
    assert_same(&rt, &column_index("é", 0..9, usize::MAX), &1);
    assert_same(&rt, &column_index("ab", 5..1, 9), &0);
    let file = simple_file(&rt, rt.alloc(), "a\nb");
    assert_line_too_large(&rt, file.line_range((), usize::MAX), (usize::MAX, 1));
}

#[test]
fn greatest_numbers(rt: HostRuntime) {
    let file = simple_file(&rt, rt.alloc(), "a\nb");
    assert_ok(&rt, file.line_number((), usize::MAX - 1), usize::MAX);
    let limits = (usize::MAX, usize::MAX - 1);
    assert_line_too_large(&rt, file.line_number((), usize::MAX), limits);
    assert_line_too_large(&rt, default_line_number(usize::MAX), limits);
}

/// Errors, and their texts.
static ERRORS: [(Error, &str); 5] = [
    (Error::FileMissing, "file missing"),
    (
        Error::IndexTooLarge { given: 9, max: 4 },
        "invalid index 9, maximum index is 4",
    ),
    (
        Error::LineTooLarge { given: 2, max: 1 },
        "invalid line 2, maximum line is 1",
    ),
    (
        Error::ColumnTooLarge { given: 8, max: 3 },
        "invalid column 8, maximum column 3",
    ),
    (
        Error::InvalidCharBoundary { given: 1 },
        "index is not a code point boundary",
    ),
];

/// Asserts that an error has this text.
fn assert_error_text(rt: &impl Abort, alloc: Global, error: &Error, text: &str) {
    let printed = error.to_string(alloc).expect(rt, "the text of an error");
    assert_same(rt, &printed.as_str(), &text);
}

#[test]
fn error_texts(rt: HostRuntime) {
    for (error, text) in &ERRORS {
        assert_error_text(&rt, rt.alloc(), error, text);
    }
}

#[test]
fn converted_error_texts(rt: HostRuntime) {
    let alloc = rt.alloc();
    let cause = io::Error::from(io::ErrorKind::BrokenPipe);
    assert_error_text(&rt, alloc, &Error::from(cause), "broken pipe");
    assert_error_text(&rt, alloc, &Error::from(fmt::Error), "formatting error");
    assert_error_text(&rt, alloc, &Error::from(AllocError), "out of memory");
}
