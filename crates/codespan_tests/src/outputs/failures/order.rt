//! Which error is returned where two lookups fail.

use crate::outputs::failures::{Lookup, LookupCall, assert_fails, with_two_labels};
use crate::outputs::listing::{FailedLookups, Listing};
use codespan_reporting::diagnostic::Diagnostic;
use codespan_reporting::term::{Config, Layout};
use std::panic::Expect;
use std::process::Abort;

/// What is written before the line that is filled in.
const LINES_BEFORE: &str = "error: \n\
    \x20 ┌─ f:1:1\n\
    \x20 │  \n\
    0 │   a\n\
    1 │ ╭ b\n\
    2 │ │ c\n\
    3 │ │ d\n\
    \x20 │ ╰─^\n\
    4 │   e\n";

/// The lookups of a label over the lines 1 to 3 and of one inside line 7, in their order in both
/// layouts.
static OF_LABELS: [Lookup; 20] = [
    // the label over the lines 1 to 3
    (LookupCall::LineIndex(2), ""),
    (LookupCall::LineIndex(7), ""),
    (LookupCall::LineRange(0), ""),
    (LookupCall::LineNumber(0), ""),
    (LookupCall::LineRange(1), ""),
    (LookupCall::LineNumber(1), ""),
    (LookupCall::LineRange(2), ""),
    (LookupCall::LineNumber(2), ""),
    (LookupCall::LineRange(3), ""),
    (LookupCall::LineNumber(3), ""),
    (LookupCall::LineRange(4), ""),
    (LookupCall::LineNumber(4), ""),
    // the label inside line 7
    (LookupCall::LineIndex(14), ""),
    (LookupCall::LineIndex(15), ""),
    (LookupCall::LineRange(6), ""),
    (LookupCall::LineNumber(6), ""),
    (LookupCall::LineRange(7), ""),
    (LookupCall::LineNumber(7), ""),
    (LookupCall::LineRange(8), ""),
    (LookupCall::LineNumber(8), ""),
];

/// The lookups after those in the classic layout: of the header, and of the line 5, which is filled
/// in between the lines around the labels.
static LAST_IN_CLASSIC: [Lookup; 5] = [
    (LookupCall::Name, ""),
    (LookupCall::Location(2), ""),
    (LookupCall::Source, "error: \n"),
    (LookupCall::LineRange(5), LINES_BEFORE),
    (LookupCall::LineNumber(5), LINES_BEFORE),
];

/// Those in the unbroken layout, where the number of line 5 comes first.
static LAST_IN_UNBROKEN: [Lookup; 5] = [
    (LookupCall::LineNumber(5), ""),
    (LookupCall::Name, ""),
    (LookupCall::Location(2), ""),
    (LookupCall::Source, "error: \n"),
    (LookupCall::LineRange(5), LINES_BEFORE),
];

/// Returns the lookup of this position, of those of the labels and then these; past the end the
/// last one.
fn lookup_at(last: &'static [Lookup; 5], position: usize) -> &'static Lookup {
    OF_LABELS
        .get(position)
        .unwrap_or(&last[position.saturating_sub(20).min(4)])
}

/// Returns a configuration with a line before each label and one after it.
fn around_labels<'chars>(layout: Layout) -> Config<'chars> {
    Config {
        before_label_lines: 1,
        after_label_lines: 1,
        layout,
        ..Config::default()
    }
}

/// Asserts that the error of the first one of two lookups that fail is returned.
fn assert_first_error(
    rt: &impl Abort,
    diagnostic: &Diagnostic<()>,
    layout: Layout,
    first: &Lookup,
    next: &Lookup,
) {
    let failed = first
        .0
        .failed_beside(next.0.failed_beside(FailedLookups::default()));
    let source = "a\nb\nc\nd\ne\nf\ng\nh\ni";
    let files = Listing::new(*diagnostic.labels.allocator(), "f", source, failed).expect(
        rt,
        "the files",
    );
    assert_fails(rt, &around_labels(layout), &files, diagnostic, first);
}

/// Asserts the same of each lookup in a layout and the next one.
fn assert_first_errors(
    rt: &impl Abort,
    diagnostic: &Diagnostic<()>,
    layout: Layout,
    last: &'static [Lookup; 5],
) {
    for position in 0..25 {
        let first = lookup_at(last, position);
        let next = lookup_at(last, position + 1);
        assert_first_error(rt, diagnostic, layout, first, next);
    }
}

/// Of two lookups that fail the first one's error is returned. Each lookup of an output fails in
/// turn, together with the next one.
#[test]
fn first_error(rt: HostRuntime) {
    let diagnostic = with_two_labels(&rt, rt.alloc(), 2..7, 14..15);
    assert_first_errors(&rt, &diagnostic, Layout::Classic, &LAST_IN_CLASSIC);
    assert_first_errors(&rt, &diagnostic, Layout::Unbroken, &LAST_IN_UNBROKEN);
}
