//! Every style mark of every writer, and the bytes of colors.

use crate::writers::written::{
    Rows, ansi, assert_written, color_sequences, no_color_style_marks, plain_ref_style_marks,
    plain_style_marks, tag_color_style_marks, tag_style_marks, write_style_marks,
};
use codespan_base::term::{Color, PlainWriter};
use std::panic::Expect;

/// The style marks of `write_style_marks` where each is spelled as nothing: a newline for each but
/// the reset.
const NO_STYLE_MARKS: &str = "\n\n\n\n\n\n\n\n\n\n\n\n\n\n\n\n\n\n\n";

/// The style marks of `write_style_marks` in color: for each severity those of a header, a primary
/// label and a secondary label, and then those without a severity.
const ANSI_STYLE_MARKS: &str = "\x1b[0m\x1b[1m\x1b[38;5;9m\n\x1b[0m\x1b[31m\n\x1b[0m\x1b[36m\n\
    \x1b[0m\x1b[1m\x1b[38;5;9m\n\x1b[0m\x1b[31m\n\x1b[0m\x1b[36m\n\
    \x1b[0m\x1b[1m\x1b[38;5;11m\n\x1b[0m\x1b[33m\n\x1b[0m\x1b[36m\n\
    \x1b[0m\x1b[1m\x1b[38;5;10m\n\x1b[0m\x1b[32m\n\x1b[0m\x1b[36m\n\
    \x1b[0m\x1b[1m\x1b[38;5;14m\n\x1b[0m\x1b[36m\n\x1b[0m\x1b[36m\n\
    \x1b[0m\x1b[1m\n\x1b[0m\x1b[36m\n\x1b[0m\x1b[36m\n\x1b[0m\x1b[36m\n\x1b[0m";

/// The style marks of `write_style_marks` by a `WriteColor` that writes a tag for a bold style.
const BOLD_STYLE_MARKS: &str =
    "[bold]\n\n\n[bold]\n\n\n[bold]\n\n\n[bold]\n\n\n[bold]\n\n\n[bold]\n\n\n\n[/]";

/// The style marks of `write_style_marks` in tags.
const TAG_STYLE_MARKS: &str = "[header]\n[primary]\n[secondary]\n[header]\n[primary]\n[secondary]\n\
    [header]\n[primary]\n[secondary]\n[header]\n[primary]\n[secondary]\n\
    [header]\n[primary]\n[secondary]\n[message]\n[number]\n[bullet]\n[border]\n[/]";

#[test]
fn every_style_mark_of_every_writer(rt: HostRuntime) {
    let alloc = rt.alloc();
    assert_written(&rt, plain_style_marks(alloc), NO_STYLE_MARKS);
    assert_written(&rt, plain_ref_style_marks(alloc), NO_STYLE_MARKS);
    assert_written(&rt, ansi(alloc, Rows::StyleMarks), ANSI_STYLE_MARKS);
    assert_written(&rt, no_color_style_marks(alloc), NO_STYLE_MARKS);
    assert_written(&rt, tag_color_style_marks(alloc), BOLD_STYLE_MARKS);
    assert_written(&rt, tag_style_marks(alloc), TAG_STYLE_MARKS);
}

/// No style mark of a writer of plain text fails.
#[test]
fn plain_style_marks_set_no_flag(rt: HostRuntime) {
    let mut plain = PlainWriter::new(Vec::new(rt.alloc()));
    write_style_marks(&mut plain).expect(&rt, "the style marks");
    assert!(rt; !plain.has_failed());
}

#[test]
fn coloured_header(rt: HostRuntime) {
    let expected = "\x1b[0m\x1b[1m\x1b[38;5;9merror\x1b[0m\x1b[1m: m\x1b[0m\n";
    assert_written(&rt, ansi(rt.alloc(), Rows::Header), expected);
}

/// A foreground and a background color, whether they are intense, and their escape sequences.
static COLORS: [(Option<Color>, Option<Color>, bool, &str); 5] = [
    (None, Some(Color::Black), false, "\x1b[0m\x1b[40m"),
    (
        Some(Color::White),
        Some(Color::Blue),
        false,
        "\x1b[0m\x1b[37m\x1b[44m",
    ),
    (
        Some(Color::Black),
        Some(Color::Red),
        true,
        "\x1b[0m\x1b[38;5;8m\x1b[48;5;9m",
    ),
    (
        Some(Color::Magenta),
        Some(Color::White),
        true,
        "\x1b[0m\x1b[38;5;13m\x1b[48;5;15m",
    ),
    (None, None, true, "\x1b[0m"),
];

#[test]
fn foreground_and_background_colors(rt: HostRuntime) {
    for (fg, bg, intense, expected) in &COLORS {
        let text = color_sequences(rt.alloc(), *fg, *bg, *intense);
        assert_written(&rt, text, expected);
    }
}
