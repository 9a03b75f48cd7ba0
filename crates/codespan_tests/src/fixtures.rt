//! Files that tests make. Each function ends the test where an allocation fails.

use codespan_base::files::{MappedFile, SimpleFile, SimpleFiles};
use std::alloc::Global;
use std::panic::Expect;
use std::process::Abort;

/// Returns a file `f` of this text.
pub fn simple_file(
    rt: &impl Abort,
    alloc: Global,
    text: &'static str,
) -> SimpleFile<&'static str, &'static str> {
    SimpleFile::new(alloc, "f", text).expect(rt, "a file")
}

/// Returns a file `f` of this text, whose line `line`, a 0-based index, has this number.
pub fn mapped_file(
    rt: &impl Abort,
    alloc: Global,
    text: &'static str,
    line: usize,
    number: usize,
) -> MappedFile<&'static str, &'static str> {
    let mut file = MappedFile::new(alloc, "f", text).expect(rt, "a file");
    file.set_line(line, number).expect(rt, "the line");
    file
}

/// Returns the files `f` and `g` of these texts.
pub fn two_files(
    rt: &impl Abort,
    alloc: Global,
    first: &'static str,
    second: &'static str,
) -> SimpleFiles<&'static str, &'static str> {
    let mut files = SimpleFiles::new(alloc);
    files.add("f", first).expect(rt, "the first file");
    files.add("g", second).expect(rt, "the second file");
    files
}
