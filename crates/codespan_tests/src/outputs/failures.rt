//! Rendering that fails.

mod order;

use crate::outputs::listing::{FailedLookups, Listing};
use crate::outputs::rendering::{Parts, assert_renders};
use codespan_reporting::diagnostic::{Diagnostic, Label};
use codespan_reporting::files::{Error, SimpleFile};
use codespan_reporting::term::{Config, Layout};
use std::alloc::Global;
use std::fmt;
use std::fmt::Display;
use std::ops::Range;
use std::panic::Expect;
use std::process::Abort;

/// A lookup of a [`Listing`], with its byte or its line, if it has one. Both are 0-based indices.
#[derive(Clone, Copy)]
pub enum LookupCall {
    /// `name`
    Name,
    /// `source`
    Source,
    /// `location` of a byte
    Location(usize),
    /// `line_index` of a byte
    LineIndex(usize),
    /// `line_number` of a line
    LineNumber(usize),
    /// `line_range` of a line
    LineRange(usize),
}

impl LookupCall {
    /// Returns `failed` with this lookup failing too. Where `line_index` of a byte fails, so does
    /// that of each later byte.
    pub fn failed_beside(&self, mut failed: FailedLookups) -> FailedLookups {
        match *self {
            LookupCall::Name => failed.name = true,
            LookupCall::Source => failed.source = true,
            LookupCall::Location(_) => failed.location = true,
            LookupCall::LineIndex(byte) => failed.line_index = Some(byte),
            LookupCall::LineNumber(line) => failed.line_number = Some(line),
            LookupCall::LineRange(line) => failed.line_range = Some(line),
        }
        failed
    }

    /// Returns the parts of the error of this lookup.
    fn error_parts(&self) -> Parts<'static> {
        let (given, max) = match *self {
            LookupCall::Name => (1, 0),
            LookupCall::Source => (2, 0),
            LookupCall::Location(byte) => (3, byte),
            LookupCall::LineIndex(byte) => (4, byte),
            LookupCall::LineNumber(line) => (5, line),
            LookupCall::LineRange(line) => (6, line),
        };
        ("ColumnTooLarge", given, max)
    }
}

/// A lookup, and what is written before it.
pub type Lookup = (LookupCall, &'static str);

/// The lookups of a label of the first byte.
static LOOKUPS: [Lookup; 7] = [
    (LookupCall::LineIndex(0), ""),
    (LookupCall::LineIndex(1), ""),
    (LookupCall::LineRange(0), ""),
    (LookupCall::LineNumber(0), ""),
    (LookupCall::Name, ""),
    (LookupCall::Location(0), ""),
    (LookupCall::Source, "error: \n"),
];

/// Asserts that the view and a call that emits return the error of a failed lookup, and that the
/// view has written its text before.
pub fn assert_fails(
    rt: &impl Abort,
    config: &Config<'_>,
    files: &Listing<'_>,
    diagnostic: &Diagnostic<()>,
    (lookup, prefix): &Lookup,
) {
    let expected = (*prefix, lookup.error_parts());
    assert_renders(rt, config, files, diagnostic, expected);
}

/// Asserts the same of a lookup that fails alone.
fn assert_fails_alone(rt: &impl Abort, diagnostic: &Diagnostic<()>, lookup: &Lookup) {
    let failed = lookup.0.failed_beside(FailedLookups::default());
    let files = Listing::new(*diagnostic.labels.allocator(), "f", "ab", failed).expect(
        rt,
        "the files",
    );
    assert_fails(rt, &Config::default(), &files, diagnostic, lookup);
}

/// The error of a failed lookup is returned before anything is written; that of the source, after
/// the header.
#[test]
fn failed_lookups(rt: HostRuntime) {
    let diagnostic = with_label(rt.alloc()).expect(&rt, "the diagnostic");
    for lookup in &LOOKUPS {
        assert_fails_alone(&rt, &diagnostic, lookup);
    }
}

/// Returns a diagnostic with a label of the first byte.
///
/// # Errors
///
/// `OutOfMemory`: an allocation fails.
pub fn with_label(alloc: Global) -> Result<Diagnostic<()>, Error> {
    Diagnostic::error(alloc).with_label(Label::primary(alloc, (), 0..1))
}

/// Returns a diagnostic with labels of these two ranges, without messages.
pub fn with_two_labels(
    rt: &impl Abort,
    alloc: Global,
    first: Range<usize>,
    second: Range<usize>,
) -> Diagnostic<()> {
    Diagnostic::error(alloc)
        .with_label(Label::primary(alloc, (), first))
        .expect(rt, "the first label")
        .with_label(Label::primary(alloc, (), second))
        .expect(rt, "the second label")
}

/// Returns the default configuration in a layout.
fn in_layout<'chars>(layout: Layout) -> Config<'chars> {
    Config {
        layout,
        ..Config::default()
    }
}

/// The number of a filled line, and what is written before it is looked up, by layout.
static NUMBER_OF_FILLED_LINE: [(Layout, Lookup); 2] = [
    (
        Layout::Classic,
        (
            LookupCall::LineNumber(1),
            "error: \n  ┌─ f:0:1\n  │\n0 │ a\n  │ ^\n",
        ),
    ),
    (Layout::Unbroken, (LookupCall::LineNumber(1), "")),
];

/// The number of a filled line is looked up with the line in the classic layout, and before the
/// header in the unbroken one.
#[test]
fn failed_number_of_filled_line(rt: HostRuntime) {
    let failed = LookupCall::LineNumber(1).failed_beside(FailedLookups::default());
    let files = Listing::new(rt.alloc(), "f", "a\nb\nc", failed).expect(&rt, "the files");
    let diagnostic = with_two_labels(&rt, rt.alloc(), 0..1, 4..5);
    for (layout, lookup) in &NUMBER_OF_FILLED_LINE {
        assert_fails(&rt, &in_layout(*layout), &files, &diagnostic, lookup);
    }
}

/// A name whose `Display` fails.
#[derive(Clone, Copy, Drop)]
struct Unprintable;

impl Display for Unprintable {
    fn fmt<W: fmt::Write>(&self, f: &mut fmt::Formatter<W>) -> fmt::Result {
        f.write_str("ab")?;
        Err(fmt::Error)
    }
}

/// A name whose `Display` fails leads to `FormatError`, and nothing is written.
#[test]
fn unprintable_name(rt: HostRuntime) {
    let files = SimpleFile::new(rt.alloc(), Unprintable, "ab").expect(&rt, "the file");
    let diagnostic = with_label(rt.alloc()).expect(&rt, "the diagnostic");
    let expected = ("", ("FormatError", 0, 0));
    assert_renders(&rt, &Config::default(), &files, &diagnostic, expected);
}
