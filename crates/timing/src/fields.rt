//! The input: fields, one after another.
//!
//! They are, in this order: how many times to render; `once` or `anew`, whether the file database
//! is made once, before the first time, or for each time; the width that lines have to fit, in
//! cells, 0 for none; the number of files, and of each its name and its source; the code; the
//! message; the number of labels, and of each `primary` or `secondary`, its file, its start, its
//! end and its message; the number of notes, and each note. A number is a line. A text is a line
//! with its length in bytes, and then that many bytes and a newline. With an empty code the
//! diagnostic has none. Files are numbered from 0; starts and ends are byte indices in the source,
//! the end exclusive.

use std::str;

/// The input is malformed.
#[derive(Clone, Copy)]
pub struct Malformed;

/// The fields that are left to be read.
#[derive(Drop)]
pub struct Fields<'a> {
    left: &'a [u8],
}

impl<'a> Fields<'a> {
    /// Returns the fields of an input.
    pub fn new(input: &'a [u8]) -> Fields<'a> {
        Fields { left: input }
    }

    /// Reads a line.
    ///
    /// # Errors
    ///
    /// `Malformed` if no newline is left, or the line is not UTF-8.
    pub fn line(&mut self) -> Result<&'a str, Malformed> {
        match self.left.iter().position(|byte| *byte == b'\n') {
            Some(length) => self.bytes_and_newline(length),
            None => Err(Malformed),
        }
    }

    /// Reads a number.
    ///
    /// # Errors
    ///
    /// `Malformed` if there is no line, or it is not a number.
    pub fn number(&mut self) -> Result<usize, Malformed> {
        match self.line()?.parse() {
            Ok(number) => Ok(number),
            Err(_) => Err(Malformed),
        }
    }

    /// Reads a text.
    ///
    /// # Errors
    ///
    /// `Malformed` if its length, the text or its newline is not there, or the text is not UTF-8.
    pub fn text(&mut self) -> Result<&'a str, Malformed> {
        let length = self.number()?;
        self.bytes_and_newline(length)
    }

    /// Reads `length` bytes and the newline after them. Fails with `Malformed` if these are not
    /// there, or the bytes are not UTF-8.
    fn bytes_and_newline(&mut self, length: usize) -> Result<&'a str, Malformed> {
        let Some((taken, rest)) = self.left.split_at_checked(length) else {
            return Err(Malformed);
        };
        let Some((b'\n', left)) = rest.split_first() else {
            return Err(Malformed);
        };
        self.left = left;
        match str::from_utf8(taken) {
            Ok(text) => Ok(text),
            Err(_) => Err(Malformed),
        }
    }
}
