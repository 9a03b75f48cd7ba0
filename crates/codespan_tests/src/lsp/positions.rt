//! Positions and ranges of worked files.

use crate::asserts::{assert_ok, assert_same, assert_same_at, invalid_boundary};
use crate::fixtures::{mapped_file, simple_file, two_files};
use codespan_base::files::{Files, Location, MappedFile, SimpleFile, SimpleFiles};
use codespan_lsp::{
    Position, PositionEncoding, Range, byte_index_to_position, byte_span_to_range,
    position_to_byte_index, range_to_byte_span,
};
use std::alloc::Global;
use std::panic::Expect;
use std::process::Abort;

/// Returns a position from its numbers.
pub fn at(line: u32, character: u32) -> Position {
    Position { line, character }
}

/// A byte index, and the line and the character of its position.
type Counterpart = (usize, u32, u32);

/// Asserts that a byte has this position, and the position this byte.
fn assert_at<'a, F: Files<'a>>(
    rt: &impl Abort,
    files: &'a F,
    id: F::FileId,
    byte_index: usize,
    position: Position,
) {
    let found = byte_index_to_position(files, id, byte_index).expect(rt, "a position");
    assert_same_at(rt, byte_index, &found, &position);
    let back = position_to_byte_index(files, id, &position).expect(rt, "a byte index");
    assert_same_at(rt, byte_index, &back, &byte_index);
}

/// Asserts the same of each counterpart of a table.
fn assert_counterparts<'a, F: Files<'a>>(
    rt: &impl Abort,
    files: &'a F,
    id: F::FileId,
    table: &[Counterpart],
) {
    for (byte_index, line, character) in table {
        assert_at(rt, files, id, *byte_index, at(*line, *character));
    }
}

/// Asserts the same of a database of one file.
fn assert_in_file(
    rt: &impl Abort,
    file: &SimpleFile<&'static str, &'static str>,
    table: &[Counterpart],
) {
    assert_counterparts(rt, file, (), table);
}

/// The bytes and the positions of `a𐐀b`.
static PROTOCOL_EXAMPLE: [Counterpart; 4] = [(0, 0, 0), (1, 0, 1), (5, 0, 3), (6, 0, 4)];

/// The protocol's own example: of `a𐐀b` the character of `a` is 0, that of `𐐀` is 1, and that
/// of `b` is 3.
#[test]
fn protocol_example(rt: HostRuntime) {
    let file = simple_file(&rt, rt.alloc(), "a𐐀b");
    assert_in_file(&rt, &file, &PROTOCOL_EXAMPLE);
}

/// Asserts that the byte of `é∈🗻x` at which a character starts has this position by an
/// encoding, and the position this byte.
fn assert_encoded(
    rt: &impl Abort,
    file: &SimpleFile<&str, &str>,
    encoding: PositionEncoding,
    byte_index: usize,
    character: u32,
) {
    let position = encoding
        .byte_index_to_position(file, (), byte_index)
        .expect(rt, "a position");
    assert_same_at(rt, byte_index, &position, &at(0, character));
    let back = encoding
        .position_to_byte_index(file, (), &position)
        .expect(rt, "a byte index");
    assert_same_at(rt, byte_index, &back, &byte_index);
}

/// Encodings, the bytes at which the characters of `é∈🗻x` start, and the code units before
/// them.
static ENCODED: [(PositionEncoding, usize, u32); 15] = [
    (PositionEncoding::Utf8, 0, 0),
    (PositionEncoding::Utf8, 2, 2),
    (PositionEncoding::Utf8, 5, 5),
    (PositionEncoding::Utf8, 9, 9),
    (PositionEncoding::Utf8, 10, 10),
    (PositionEncoding::Utf16, 0, 0),
    (PositionEncoding::Utf16, 2, 1),
    (PositionEncoding::Utf16, 5, 2),
    (PositionEncoding::Utf16, 9, 4),
    (PositionEncoding::Utf16, 10, 5),
    (PositionEncoding::Utf32, 0, 0),
    (PositionEncoding::Utf32, 2, 1),
    (PositionEncoding::Utf32, 5, 2),
    (PositionEncoding::Utf32, 9, 3),
    (PositionEncoding::Utf32, 10, 4),
];

/// The code units of each encoding before the characters of a text, as Python's codecs count them.
#[test]
fn encodings(rt: HostRuntime) {
    let file = simple_file(&rt, rt.alloc(), "é∈🗻x");
    for (encoding, byte_index, character) in &ENCODED {
        assert_encoded(&rt, &file, *encoding, *byte_index, *character);
    }
}

/// The bytes and the positions of lines with each end.
static LINE_ENDS: [Counterpart; 8] = [
    (0, 0, 0),
    (3, 0, 3),
    (4, 1, 0),
    (7, 1, 3),
    (8, 1, 4),
    (9, 2, 0),
    (10, 3, 0),
    (13, 3, 3),
];

/// A newline is part of its line, and so is the carriage return before it.
#[test]
fn line_ends(rt: HostRuntime) {
    let file = simple_file(&rt, rt.alloc(), "foo\nbar\r\n\nbaz");
    assert_in_file(&rt, &file, &LINE_ENDS);
    // after the newline of a line the next one starts
    assert_ok(&rt, position_to_byte_index(&file, (), &at(0, 4)), 4);
    assert_ok(&rt, position_to_byte_index(&file, (), &at(1, 5)), 9);
}

/// The byte and the position of an empty file.
static EMPTY: [Counterpart; 1] = [(0, 0, 0)];

/// An empty file has one line and one position.
#[test]
fn empty_file(rt: HostRuntime) {
    let file = simple_file(&rt, rt.alloc(), "");
    assert_in_file(&rt, &file, &EMPTY);
}

/// The values of a test of Rust's `codespan-lsp`: the byte at a position is where users see it.
#[test]
fn original_values(rt: HostRuntime) {
    let text = "\nlet test = 2\nlet test1 = \"\"\nte\n";
    let file = simple_file(&rt, rt.alloc(), text);
    let byte_index = position_to_byte_index(&file, (), &at(3, 2)).expect(&rt, "a byte index");
    let location = Location {
        line_number: 4,
        column_number: 3,
    };
    assert_ok(&rt, file.location((), byte_index), location);
}

/// Returns the files `åä t𐐀b`, and the same after a newline.
pub fn unicode_files(rt: &impl Abort, alloc: Global) -> SimpleFiles<&'static str, &'static str> {
    two_files(rt, alloc, "åä t𐐀b", "\nåä t𐐀b")
}

/// Bytes and positions of the first of these files, and those of the second.
static UNICODE: [[Counterpart; 2]; 2] = [[(5, 0, 3), (10, 0, 6)], [(6, 1, 3), (11, 1, 6)]];

/// Of these, in Rust's `codespan-lsp` too, the characters 3 and 6 are the bytes 5 and 10.
#[test]
fn original_values_in_files(rt: HostRuntime) {
    let files = unicode_files(&rt, rt.alloc());
    for (id, table) in UNICODE.iter().enumerate() {
        assert_counterparts(&rt, &files, id, table);
    }
}

/// Spans of bytes of `a𐐀b\ncd`, and their ranges.
static SPANS: [(std::ops::Range<usize>, Range); 4] = [
    (
        1..5,
        Range {
            start: Position {
                line: 0,
                character: 1,
            },
            end: Position {
                line: 0,
                character: 3,
            },
        },
    ),
    (
        5..9,
        Range {
            start: Position {
                line: 0,
                character: 3,
            },
            end: Position {
                line: 1,
                character: 2,
            },
        },
    ),
    (
        6..6,
        Range {
            start: Position {
                line: 0,
                character: 4,
            },
            end: Position {
                line: 0,
                character: 4,
            },
        },
    ),
    (
        8..1,
        Range {
            start: Position {
                line: 1,
                character: 1,
            },
            end: Position {
                line: 0,
                character: 1,
            },
        },
    ),
];

/// Asserts that a span of bytes has this range, and the range this span.
fn assert_span(
    rt: &impl Abort,
    file: &MappedFile<&str, &str>,
    span: &std::ops::Range<usize>,
    expected: &Range,
) {
    let range = byte_span_to_range(file, (), span.start..span.end).expect(rt, "a range");
    assert_same(rt, &range, expected);
    let back = range_to_byte_span(file, (), &range).expect(rt, "a span");
    assert_same(rt, &back, span);
}

/// A span of bytes and its range, also where it is empty or reversed. Line numbers that are set
/// change no position.
#[test]
fn spans(rt: HostRuntime) {
    let file = mapped_file(&rt, rt.alloc(), "a𐐀b\ncd", 1, 90);
    for (span, expected) in &SPANS {
        assert_span(&rt, &file, span, expected);
    }
    let late = invalid_boundary(byte_span_to_range(&file, (), 0..2));
    assert_same(&rt, &late, &Some(2));
}

/// Bytes and positions of `a𐐀b` after a newline.
static DOCUMENTED: [Counterpart; 5] = [(0, 0, 0), (1, 1, 0), (2, 1, 1), (6, 1, 3), (7, 1, 4)];

/// The examples of the doc comments.
#[test]
fn documented(rt: HostRuntime) {
    let units = (
        PositionEncoding::Utf8.code_units("a𐐀b"),
        PositionEncoding::Utf16.code_units("a𐐀b"),
        PositionEncoding::Utf32.code_units("a𐐀b"),
    );
    assert_same(&rt, &units, &(6, 4, 3));
    let file = simple_file(&rt, rt.alloc(), "\na𐐀b");
    assert_in_file(&rt, &file, &DOCUMENTED);
    let given = invalid_boundary(position_to_byte_index(&file, (), &at(1, 2)));
    assert_same(&rt, &given, &Some(2));
}
