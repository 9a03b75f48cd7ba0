//! Each lookup, called through the trait alone, over each file database.

use crate::asserts::{assert_file_missing, assert_ok, assert_same};
use crate::files::example::Listing;
use crate::fixtures::{mapped_file, simple_file, two_files};
use codespan_base::files::{Files, Location, default_column_number, default_location};
use std::alloc::Global;
use std::convert::AsStr;
use std::panic::Expect;
use std::process::Abort;

/// A text of three lines, the second of which has a character of two bytes.
const THREE_LINES: &str = "foo\nbär\nbaz";

/// Returns the location of byte 7 of that text, in its second line, where that has this number.
fn location(line_number: usize) -> Location {
    Location {
        line_number,
        column_number: 3,
    }
}

/// Asserts that the lookups of that byte, through the trait, are those of a line of this number.
fn assert_numbers<'a, F: Files<'a>>(rt: &impl Abort, files: &'a F, id: F::FileId, number: usize) {
    assert_ok(rt, files.line_index(id, 7), 1);
    assert_ok(rt, files.line_number(id, 1), number);
    assert_ok(rt, files.column_number(id, 1, 7), 3);
    assert_ok(rt, files.location(id, 7), location(number));
}

/// Asserts that the second line is this one, through the trait. The law keeps the line inside the
/// source.
fn assert_line<'a, F: Files<'a>>(rt: &impl Abort, files: &'a F, id: F::FileId, line: &str) {
    let range = files.line_range(id, 1).expect(rt, "a range");
    let source = files.source(id).expect(rt, "a text");
    assert_same(rt, &&source.as_str()[range], &line);
}

/// Asserts that the name of a file is `f`, through the trait.
fn assert_name<'a, F: Files<'a>>(rt: &impl Abort, alloc: Global, files: &'a F, id: F::FileId) {
    let name = files.name(id).expect(rt, "a name");
    let printed = name.to_string(alloc).expect(rt, "its text");
    assert_same(rt, &printed.as_str(), &"f");
}

/// Asserts all of this of a file whose second line has this text and this number.
fn assert_lookups<'a, F: Files<'a>>(
    rt: &impl Abort,
    alloc: Global,
    files: &'a F,
    id: F::FileId,
    (line, number): (&str, usize),
) {
    assert_numbers(rt, files, id, number);
    assert_line(rt, files, id, line);
    assert_name(rt, alloc, files, id);
}

#[test]
fn generic_calls(rt: HostRuntime) {
    let file = simple_file(&rt, rt.alloc(), THREE_LINES);
    assert_lookups(&rt, rt.alloc(), &file, (), ("bär\n", 2));
}

#[test]
fn generic_calls_of_listing(rt: HostRuntime) {
    let listing = Listing::new(rt.alloc(), "f", THREE_LINES).expect(&rt, "a listing");
    assert_lookups(&rt, rt.alloc(), &listing, (), ("bär\n", 1));
}

#[test]
fn generic_calls_of_mapped_file(rt: HostRuntime) {
    let mapped = mapped_file(&rt, rt.alloc(), THREE_LINES, 1, 40);
    assert_lookups(&rt, rt.alloc(), &mapped, (), ("bär", 40));
    assert_ok(&rt, default_location(&mapped, (), 7), location(40));
}

#[test]
fn generic_calls_of_simple_files(rt: HostRuntime) {
    let database = two_files(&rt, rt.alloc(), THREE_LINES, "");
    assert_lookups(&rt, rt.alloc(), &database, 0, ("bär\n", 2));
    assert_ok(&rt, default_column_number(&database, 0, 1, 7), 3);
    assert_file_missing(&rt, database.line_index(7, 0));
}
