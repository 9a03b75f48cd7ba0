//! Assertions in functions: each is proved once for all tests that call it.

use codespan_base::files::Error;
use std::fmt::Debug;
use std::panic::Expect;
use std::process::Abort;

/// Asserts that two values are equal.
pub fn assert_same<T: PartialEq + Debug>(rt: &impl Abort, left: &T, right: &T) {
    assert_eq!(rt; left, right);
}

/// Asserts that two values are equal, and prints `at` where they are not.
pub fn assert_same_at<T: PartialEq + Debug>(rt: &impl Abort, at: usize, left: &T, right: &T) {
    assert_same(rt, &(at, left), &(at, right));
}

/// Asserts that a call returned this value.
pub fn assert_ok<T: Copy + PartialEq + Debug>(
    rt: &impl Abort,
    returned: Result<T, Error>,
    expected: T,
) {
    match returned {
        Ok(value) => assert_same(rt, &value, &expected),
        Err(error) => panic!(rt; "error: {error:?}"),
    }
}

/// Returns whether a call failed with `FileMissing`.
pub fn is_file_missing<T: Drop>(returned: Result<T, Error>) -> bool {
    matches!(&returned, Err(Error::FileMissing))
}

/// Asserts that a call failed with `FileMissing`.
pub fn assert_file_missing<T: Drop>(rt: &impl Abort, returned: Result<T, Error>) {
    assert!(rt; is_file_missing(returned));
}

/// Asserts that a call failed with `FormatError`.
pub fn assert_format_error<T: Drop>(rt: &impl Abort, returned: Result<T, Error>) {
    assert!(rt; matches!(&returned, Err(Error::FormatError)));
}

/// Asserts that a call failed with `LineTooLarge`, with these values of `given` and `max`.
pub fn assert_line_too_large<T: Drop>(
    rt: &impl Abort,
    returned: Result<T, Error>,
    limits: (usize, usize),
) {
    let found = match returned {
        Err(Error::LineTooLarge { given, max }) => Some((given, max)),
        _ => None,
    };
    assert_same(rt, &found, &Some(limits));
}

/// Asserts that a call failed with `ColumnTooLarge`, with these values of `given` and `max`.
pub fn assert_column_too_large<T: Drop>(
    rt: &impl Abort,
    returned: Result<T, Error>,
    limits: (usize, usize),
) {
    let found = match returned {
        Err(Error::ColumnTooLarge { given, max }) => Some((given, max)),
        _ => None,
    };
    assert_same(rt, &found, &Some(limits));
}

/// Returns the byte index in `InvalidCharBoundary`, where a call failed with it.
pub fn invalid_boundary<T: Drop>(returned: Result<T, Error>) -> Option<usize> {
    match returned {
        Err(Error::InvalidCharBoundary { given }) => Some(given),
        _ => None,
    }
}

/// Asserts that a text is this one.
pub fn assert_text(rt: &impl Abort, text: &str, expected: &str) {
    assert_eq!(rt; text, expected);
}

/// Asserts that bytes are those of this text.
pub fn assert_bytes(rt: &impl Abort, bytes: &[u8], expected: &str) {
    assert_text(rt, text_of_bytes(rt, bytes), expected);
}

/// Asserts that the text of the row of this name is this one.
pub fn assert_row(rt: &impl Abort, name: &str, text: &str, expected: &str) {
    assert_eq!(rt; text, expected, "{name}");
}

/// Asserts that rendering failed with `Io`, and that this text was written before.
pub fn assert_stopped(rt: &impl Abort, failed: &Result<(), Error>, written: &[u8], text: &str) {
    assert!(rt; matches!(failed, Err(Error::Io(_))));
    assert_bytes(rt, written, text);
}

/// Returns the text of these bytes.
pub fn text_of_bytes<'text>(rt: &impl Abort, bytes: &'text [u8]) -> &'text str {
    std::str::from_utf8(bytes).expect(rt, "UTF-8")
}
