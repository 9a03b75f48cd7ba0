//! The calls of `codespan_native` for editors. What is expected is worked out by hand.

use crate::native::{judge_bytes, judge_found};
use crate::outcome::Outcome;
use codespan_native::edits::write_edited;
use codespan_native::positions::{find_byte, find_position};
use codespan_native::raw::{RawEdit, RawFile, RawPosition};
use std::alloc::Global;

/// A file with a character of two UTF-16 code units, on its second line.
static FILE: RawFile<'static> = RawFile {
    name: b"f",
    source: b"a\n\xf0\x90\x90\x80b\n",
    first_byte: 0,
    first_line: 0,
    lines: &[],
    locations: &[],
    reserved: [0; 2],
};

/// The byte after that character.
const BYTE: usize = 6;

/// Its position in UTF-16.
const POSITION: RawPosition = RawPosition {
    line: 1,
    character: 2,
};

/// The edits of `foo(y)`.
static EDITS: [RawEdit<'static>; 2] = [
    RawEdit {
        start: 4,
        end: 5,
        replacement: b"&y",
        reserved: [0; 2],
    },
    RawEdit {
        start: 0,
        end: 0,
        replacement: b"let x = ",
        reserved: [0; 2],
    },
];

/// Makes the call that looks up a position, and judges it.
pub fn judge_position(alloc: Global) -> Outcome {
    let found = find_position(alloc, &FILE, 0, BYTE);
    let numbers = (found.value.line, found.value.character);
    judge_found(
        found.status,
        numbers == (POSITION.line, POSITION.character),
        numbers == (0, 0),
    )
}

/// Makes the call that looks up a byte, and judges it.
pub fn judge_byte(alloc: Global) -> Outcome {
    let found = find_byte(alloc, &FILE, 0, &POSITION);
    judge_found(found.status, found.value == BYTE, found.value == 0)
}

/// Makes the call that applies edits, and judges it.
pub fn judge_edited(alloc: Global) -> Outcome {
    let mut out = [b'.'; 32];
    let outcome = write_edited(alloc, b"foo(y)", &EDITS, &mut out);
    judge_bytes(outcome.status, outcome.written, &out, b"let x = foo(&y)")
}
