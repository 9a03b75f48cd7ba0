//! Direct calls of `Renderer`, beside those of the table of `writer_runs`.

use crate::asserts::{assert_bytes, assert_stopped};
use codespan_base::diagnostic::{LabelStyle, Severity};
use codespan_base::files::{Error, Location};
use codespan_base::term::{
    Ansi, Config, PlainWriter, Styles, StylesWriter, WriteColor, WriteStyle,
};
use codespan_renderer::term::renderer::{Locus, MultiLabel, Renderer, lanes_in_order};
use std::alloc::Global;
use std::io::Write;
use std::panic::Expect;
use std::process::Abort;
use test_writers::counting::CountingWriter;
use test_writers::stopping::{Stop, StoppingWriter};
use test_writers::style_marks::write_each_style_mark;

/// A lane mark: the lane, 0-based, the style of the label and what the label does on the
/// line.
type LaneMark = (usize, LabelStyle, MultiLabel<'static>);

/// The lane mark of a label that goes through the line, in the first lane.
const FIRST: LaneMark = (0, LabelStyle::Primary, MultiLabel::Left);

/// Such a lane mark in the second lane.
const SECOND: LaneMark = (1, LabelStyle::Primary, MultiLabel::Left);

/// Such a lane mark in the third lane.
const THIRD: LaneMark = (2, LabelStyle::Primary, MultiLabel::Left);

/// The number of lanes of a file, some lane marks, and whether these are in order.
static LANES: [(usize, &[LaneMark], bool); 5] = [
    (0, &[], true),
    (2, &[FIRST, SECOND], true),
    (2, &[SECOND, FIRST], false),
    (2, &[FIRST, FIRST], false),
    (2, &[THIRD], false),
];

/// Lanes are in order where each is one of the file's, and greater than the one before.
#[test]
fn lanes_in_order_test(rt: HostRuntime) {
    for (count, lanes, are_in_order) in &LANES {
        assert!(rt; lanes_in_order(*count, lanes) == *are_in_order);
    }
}

/// Renders an empty row, with this padding and this number of lanes.
fn render_empty_row<W: WriteStyle>(w: &mut W, padding: usize, lanes: usize) -> Result<(), Error> {
    let config = Config::default();
    let mut renderer = Renderer::new(w, &config);
    renderer.render_snippet_empty(padding, Severity::Error, lanes, &[])
}

/// A padding, a number of lanes, and the first ten bytes of the row.
static ENDLESS: [(usize, usize, &str); 2] = [
    (usize::MAX, 0, "          "),
    (0, usize::MAX, " │      "),
];

/// The padding of the greatest width, and the greatest number of lanes, are written until the
/// writer fails.
#[test]
fn endless_padding(rt: HostRuntime) {
    for (padding, lanes, expected) in &ENDLESS {
        let mut plain = PlainWriter::new(StoppingWriter::new(rt.alloc(), 1, 10, Stop::Fails));
        let failed = render_empty_row(&mut plain, *padding, *lanes);
        assert_stopped(&rt, &failed, plain.into_inner().text.as_slice(), expected);
    }
}

/// Writes a style mark of each kind and some text, and then flushes once.
pub fn write_style_marks<W: WriteStyle>(rt: &impl Abort, w: &mut W) {
    write_each_style_mark(w).expect(rt, "the style marks");
    w.write_all(b"text").expect(rt, "the text");
    w.put(b"\n").expect(rt, "the newline");
    w.flush().expect(rt, "the flush");
}

/// Renders a header, and writes the style marks and the text through the renderer as a writer.
fn render_header_and_style_marks<W: WriteStyle>(rt: &impl Abort, w: &mut W) {
    let config = Config::default();
    let mut renderer = Renderer::new(w, &config);
    renderer
        .render_header(None, Severity::Error, None, "m")
        .expect(rt, "the header");
    write_style_marks(rt, &mut renderer);
}

/// Renders a header and the style marks over a writer of colors, and returns that writer.
fn render_colored<C: WriteColor + Drop>(rt: &impl Abort, colors: C) -> C {
    let styles = Styles::default();
    let mut colored = StylesWriter::new(colors, &styles);
    render_header_and_style_marks(rt, &mut colored);
    colored.into_inner()
}

/// A renderer passes on the style marks and the text that are written to it.
#[test]
fn coloured_header(rt: HostRuntime) {
    let colored = render_colored(&rt, Ansi::new(Vec::new(rt.alloc())));
    let expected = "\x1b[0m\x1b[1m\x1b[38;5;9merror\x1b[0m\x1b[1m: m\x1b[0m\n\
                \x1b[0m\x1b[1m\x1b[38;5;9m\x1b[0m\x1b[1m\x1b[0m\x1b[36m\x1b[0m\x1b[36m\
                \x1b[0m\x1b[36m\x1b[0m\x1b[31m\x1b[0m\x1b[36m\x1b[0mtext\n";
    assert_bytes(&rt, colored.into_inner().as_slice(), expected);
}

/// Returns the first locus of a file.
fn first_locus(rt: &impl Abort, alloc: Global) -> Locus {
    Locus {
        name: String::from_str(alloc, "f").expect(rt, "the name"),
        location: Location {
            line_number: 1,
            column_number: 1,
        },
    }
}

/// The lane mark of a line with a lane.
static LANE_MARKS: [LaneMark; 1] = [FIRST];

/// Renders a line with one lane, after asserting that its lanes are in order, as the call requires.
fn render_line<W: WriteStyle>(rt: &impl Abort, renderer: &mut Renderer<'_, '_, W>) {
    assert!(rt; lanes_in_order(1, &LANE_MARKS));
    renderer
        .render_snippet_source(1, 1, "ab", Severity::Error, &[], 1, &LANE_MARKS)
        .expect(rt, "the line");
}

/// Renders the rows above a line.
fn render_above<W: WriteStyle>(rt: &impl Abort, renderer: &mut Renderer<'_, '_, W>, locus: &Locus) {
    renderer
        .render_header(Some(locus), Severity::Error, Some("E0001"), "m")
        .expect(rt, "the header");
    renderer
        .render_snippet_start(1, locus)
        .expect(rt, "the start");
    renderer
        .render_snippet_empty(1, Severity::Error, 1, &[])
        .expect(rt, "the row above");
}

/// Renders the rows below a line.
fn render_below<W: WriteStyle>(rt: &impl Abort, renderer: &mut Renderer<'_, '_, W>) {
    renderer
        .render_snippet_break(1, Severity::Error, 1, &[])
        .expect(rt, "the break");
    renderer
        .render_snippet_note(1, "a\nb")
        .expect(rt, "the note");
    renderer.render_empty().expect(rt, "the empty line");
}

/// Renders rows by each call, writes a style mark of each kind and some text, and flushes once.
fn render_rows<W: WriteStyle>(rt: &impl Abort, w: &mut W, locus: &Locus) {
    let config = Config::default();
    let mut renderer = Renderer::new(w, &config);
    render_above(rt, &mut renderer, locus);
    render_line(rt, &mut renderer);
    render_below(rt, &mut renderer);
    write_style_marks(rt, &mut renderer);
}

/// A renderer passes on a flush, and no other call flushes.
#[test]
fn only_flush_flushes(rt: HostRuntime) {
    let locus = first_locus(&rt, rt.alloc());
    let mut inner = CountingWriter::default();
    render_rows(&rt, &mut PlainWriter::new(&mut inner), &locus);
    assert!(rt; inner.flushes == 1);
}
