//! Parts of rows, and style marks, written to writers that take little at a time, or stop.

use crate::asserts::assert_same;
use crate::writers::written::{Part, write_parts};
use codespan_base::diagnostic::{LabelStyle, Severity};
use codespan_base::term::PlainWriter;
use codespan_base::term::config::style_mark::StyleMark;
use std::alloc::Global;
use std::process::Abort;
use test_writers::example::TagWriter;
use test_writers::stopping::{Stop, StoppingWriter};

/// A part of a row of each kind, and a style mark of each kind.
static PARTS: [Part; 15] = [
    Part::Number(1024),
    Part::Text("┌─"),
    Part::Char('·'),
    Part::Spaces(3),
    Part::Repeated('─', 2),
    Part::Text(""),
    Part::Spaces(0),
    Part::Mark(StyleMark::Header(Severity::Bug)),
    Part::Mark(StyleMark::HeaderMessage),
    Part::Mark(StyleMark::LineNumber),
    Part::Mark(StyleMark::NoteBullet),
    Part::Mark(StyleMark::SourceBorder),
    Part::Mark(StyleMark::Label(Severity::Help, LabelStyle::Primary)),
    Part::Mark(StyleMark::Label(Severity::Help, LabelStyle::Secondary)),
    Part::Mark(StyleMark::Reset),
];

/// These parts in plain text.
const PLAIN_PARTS: &str = "1024┌─·   ──";

/// These parts in tags.
const TAG_PARTS: &str =
    "1024┌─·   ──[header][message][number][bullet][border][primary][secondary][/]";

/// A writer that stops.
#[derive(Drop)]
struct Case {
    // How it stops.
    stop: Stop,
    // The most bytes that a write takes.
    most: usize,
    // The number of writes before it stops.
    writes: usize,
}

impl Case {
    /// Returns such a writer.
    fn writer(&self, alloc: Global) -> StoppingWriter {
        StoppingWriter::new(alloc, self.most, self.writes, self.stop)
    }
}

/// Asserts that a writer holds `whole` if writing the parts succeeded, and else a prefix of it.
fn assert_is_right(rt: &impl Abort, inner: &StoppingWriter, is_ok: bool, whole: &str, case: &Case) {
    let Case { stop, most, writes } = case;
    assert!(rt;
        inner.is_right(is_ok, whole.as_bytes()),
        "{stop:?} {most} {writes}"
    );
}

/// Asserts what a writer that stops in this way holds of the parts in tags.
fn assert_tags_stop(rt: &impl Abort, alloc: Global, case: &Case) {
    let mut inner = case.writer(alloc);
    let is_ok = write_parts(&mut TagWriter::new(&mut inner), &PARTS).is_ok();
    assert_is_right(rt, &inner, is_ok, TAG_PARTS, case);
}

/// Asserts the same of the parts in plain text, and that `has_failed` is true exactly if they
/// failed.
fn assert_plain_stops(rt: &impl Abort, alloc: Global, case: &Case) {
    let mut plain = PlainWriter::new(case.writer(alloc));
    let is_ok = write_parts(&mut plain, &PARTS).is_ok();
    assert_same(rt, &plain.has_failed(), &!is_ok);
    assert_is_right(rt, &plain.into_inner(), is_ok, PLAIN_PARTS, case);
}

/// How writers stop.
static STOPS: [Stop; 4] = [
    Stop::Fails,
    Stop::IsInterrupted,
    Stop::TakesNothing,
    Stop::TakesOneByte,
];

/// The most bytes that a write takes.
static MOST: [usize; 4] = [1, 2, 5, 100];

/// A writer that stops holds a prefix of the parts, and no write follows the one that stopped it.
#[test]
fn parts_over_writers_that_stop(rt: HostRuntime) {
    for stop in &STOPS {
        for most in &MOST {
            for writes in 0..100 {
                let case = Case {
                    stop: *stop,
                    most: *most,
                    writes,
                };
                assert_tags_stop(&rt, rt.alloc(), &case);
                assert_plain_stops(&rt, rt.alloc(), &case);
            }
        }
    }
}
