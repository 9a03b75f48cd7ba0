//! Positions and bytes that have no counterpart.

use crate::asserts::{
    assert_column_too_large, assert_file_missing, assert_line_too_large, assert_same,
    invalid_boundary,
};
use crate::fixtures::simple_file;
use crate::lsp::positions::{at, unicode_files};
use codespan_base::files::SimpleFile;
use codespan_lsp::{Position, PositionEncoding, byte_index_to_position, position_to_byte_index};
use std::process::Abort;

/// Asserts that a byte is inside a character.
fn assert_inside(rt: &impl Abort, file: &SimpleFile<&str, &str>, byte_index: usize) {
    let given = invalid_boundary(byte_index_to_position(file, (), byte_index));
    assert_same(rt, &given, &Some(byte_index));
}

/// Asserts that a position is between the code units of the character at byte 1, by an encoding.
fn assert_between(
    rt: &impl Abort,
    file: &SimpleFile<&str, &str>,
    encoding: PositionEncoding,
    character: u32,
) {
    let returned = encoding.position_to_byte_index(file, (), &at(0, character));
    assert_same(rt, &invalid_boundary(returned), &Some(1));
}

/// A byte inside a character and a position between its code units have no counterpart.
#[test]
fn inside_characters(rt: HostRuntime) {
    let file = simple_file(&rt, rt.alloc(), "a𐐀b");
    assert_inside(&rt, &file, 2);
    assert_inside(&rt, &file, 3);
    assert_inside(&rt, &file, 4);
    assert_between(&rt, &file, PositionEncoding::Utf8, 2);
    assert_between(&rt, &file, PositionEncoding::Utf8, 4);
    assert_between(&rt, &file, PositionEncoding::Utf16, 2);
}

/// Asserts that a position is past the end of its line, with these limits.
fn assert_past_line(
    rt: &impl Abort,
    file: &SimpleFile<&str, &str>,
    position: Position,
    limits: (usize, usize),
) {
    let past = position_to_byte_index(file, (), &position);
    assert_column_too_large(rt, past, limits);
}

/// Asserts that a position is past the last line, with these limits.
fn assert_past_lines(
    rt: &impl Abort,
    file: &SimpleFile<&str, &str>,
    position: Position,
    limits: (usize, usize),
) {
    let past = position_to_byte_index(file, (), &position);
    assert_line_too_large(rt, past, limits);
}

/// Asserts that a byte is past the end of the text, with these limits.
fn assert_past_text(
    rt: &impl Abort,
    file: &SimpleFile<&str, &str>,
    byte_index: usize,
    limits: (usize, usize),
) {
    let past = byte_index_to_position(file, (), byte_index);
    assert_column_too_large(rt, past, limits);
}

/// Past the end of a line, of the lines and of the text.
#[test]
fn past_ends(rt: HostRuntime) {
    let file = simple_file(&rt, rt.alloc(), "é𐐀\nb");
    assert_past_line(&rt, &file, at(0, 5), (5, 4));
    assert_past_line(&rt, &file, at(1, u32::MAX), (4294967295, 1));
    assert_past_lines(&rt, &file, at(2, 0), (2, 1));
    assert_past_text(&rt, &file, 9, (2, 1));
}

/// An empty file has one line and one position, and nothing past them.
#[test]
fn past_empty_file(rt: HostRuntime) {
    let file = simple_file(&rt, rt.alloc(), "");
    assert_past_text(&rt, &file, 1, (1, 0));
    assert_past_line(&rt, &file, at(0, 1), (1, 0));
    assert_past_lines(&rt, &file, at(1, 0), (1, 0));
}

/// A missing file fails.
#[test]
fn missing_file(rt: HostRuntime) {
    let files = unicode_files(&rt, rt.alloc());
    assert_file_missing(&rt, byte_index_to_position(&files, 2, 0));
    assert_file_missing(&rt, position_to_byte_index(&files, 2, &at(0, 0)));
}
