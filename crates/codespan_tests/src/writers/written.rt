//! What tests write: style marks and parts of rows, over writers of each kind.

use crate::asserts::assert_same;
use codespan_base::diagnostic::{LabelStyle, Severity};
use codespan_base::term::config::plain_ref::PlainWriterRef;
use codespan_base::term::config::put_style::PutStyle;
use codespan_base::term::config::style_mark::StyleMark;
use codespan_base::term::config::writing::{
    put_all, put_char, put_number, put_repeated, put_spaces,
};
use codespan_base::term::{
    Ansi, Color, ColorSpec, NoColor, PlainWriter, Styles, StylesWriter, WriteColor, WriteStyle,
};
use std::alloc::Global;
use std::io;
use std::panic::Expect;
use std::process::Abort;
use test_writers::example::{TagColor, TagWriter};

/// What one call writes.
#[derive(Clone, Copy)]
pub enum Part {
    /// A style mark.
    Mark(StyleMark),
    /// A text.
    Text(&'static str),
    /// A character.
    Char(char),
    /// A character, repeated.
    Repeated(char, usize),
    /// Spaces.
    Spaces(usize),
    /// A number.
    Number(usize),
    /// A text, by `write_all`.
    Written(&'static str),
    /// A flush.
    Flush,
}

/// Writes a part.
pub fn write_part<W: WriteStyle>(w: &mut W, part: Part) -> io::Result<()> {
    match part {
        Part::Mark(mark) => w.put_mark(mark),
        Part::Text(text) => put_all(w, text.as_bytes()),
        Part::Char(c) => put_char(w, c),
        Part::Repeated(c, count) => put_repeated(w, c, count),
        Part::Spaces(count) => put_spaces(w, count),
        Part::Number(number) => put_number(w, number),
        Part::Written(text) => w.write_all(text.as_bytes()),
        Part::Flush => w.flush(),
    }
}

/// Writes parts, one after another.
pub fn write_parts<W: WriteStyle>(w: &mut W, parts: &[Part]) -> io::Result<()> {
    for part in parts {
        write_part(w, *part)?;
    }
    Ok(())
}

/// Every style mark but the reset.
static STYLE_MARKS: [StyleMark; 19] = [
    StyleMark::Header(Severity::Bug),
    StyleMark::Label(Severity::Bug, LabelStyle::Primary),
    StyleMark::Label(Severity::Bug, LabelStyle::Secondary),
    StyleMark::Header(Severity::Error),
    StyleMark::Label(Severity::Error, LabelStyle::Primary),
    StyleMark::Label(Severity::Error, LabelStyle::Secondary),
    StyleMark::Header(Severity::Warning),
    StyleMark::Label(Severity::Warning, LabelStyle::Primary),
    StyleMark::Label(Severity::Warning, LabelStyle::Secondary),
    StyleMark::Header(Severity::Note),
    StyleMark::Label(Severity::Note, LabelStyle::Primary),
    StyleMark::Label(Severity::Note, LabelStyle::Secondary),
    StyleMark::Header(Severity::Help),
    StyleMark::Label(Severity::Help, LabelStyle::Primary),
    StyleMark::Label(Severity::Help, LabelStyle::Secondary),
    StyleMark::HeaderMessage,
    StyleMark::LineNumber,
    StyleMark::NoteBullet,
    StyleMark::SourceBorder,
];

/// Writes every style mark, each but the reset before a newline.
pub fn write_style_marks<W: WriteStyle>(w: &mut W) -> io::Result<()> {
    for mark in &STYLE_MARKS {
        w.put_mark(*mark)?;
        put_char(w, '\n')?;
    }
    w.reset()
}

/// The header of an error with the message `m`.
static HEADER: [Part; 6] = [
    Part::Mark(StyleMark::Header(Severity::Error)),
    Part::Text("error"),
    Part::Mark(StyleMark::HeaderMessage),
    Part::Text(": m"),
    Part::Mark(StyleMark::Reset),
    Part::Text("\n"),
];

/// Some text by `put` and by `write_all`, and then one flush.
static FLUSHED: [Part; 4] = [
    Part::Text("text"),
    Part::Spaces(70),
    Part::Written("text"),
    Part::Flush,
];

/// What a test writes.
#[derive(Clone, Copy)]
pub enum Rows {
    /// Every style mark.
    StyleMarks,
    /// The header of an error.
    Header,
    /// Every style mark, some text by `put` and by `write_all`, and then one flush.
    Flushed,
}

/// Writes such rows.
pub fn write_rows<W: WriteStyle>(w: &mut W, rows: Rows) -> io::Result<()> {
    match rows {
        Rows::StyleMarks => write_style_marks(w),
        Rows::Header => write_parts(w, &HEADER),
        Rows::Flushed => {
            write_style_marks(w)?;
            write_parts(w, &FLUSHED)
        }
    }
}

/// Asserts that a call wrote this text.
pub fn assert_written(rt: &impl Abort, written: io::Result<Vec<u8>>, expected: &str) {
    let bytes = written.expect(rt, "a text");
    let text = str::from_utf8(bytes.as_slice());
    assert_same(rt, &text.ok(), &Some(expected));
}

/// Returns a part, plain.
fn plain_part(alloc: Global, part: Part) -> io::Result<Vec<u8>> {
    let mut plain = PlainWriter::new(Vec::new(alloc));
    write_part(&mut plain, part)?;
    Ok(plain.into_inner())
}

/// Asserts that a part is this text, plain.
pub fn assert_plain(rt: &impl Abort, alloc: Global, part: Part, expected: &str) {
    assert_written(rt, plain_part(alloc, part), expected);
}

/// Returns every style mark of a writer of plain text.
pub fn plain_style_marks(alloc: Global) -> io::Result<Vec<u8>> {
    let mut plain = PlainWriter::new(Vec::new(alloc));
    write_style_marks(&mut plain)?;
    Ok(plain.into_inner())
}

/// Returns every style mark of a writer of plain text over a borrowed one.
pub fn plain_ref_style_marks(alloc: Global) -> io::Result<Vec<u8>> {
    let mut text = Vec::new(alloc);
    write_style_marks(&mut PlainWriterRef::new(&mut text))?;
    Ok(text)
}

/// Writes rows in the default styles over a writer of colors, and returns that writer.
pub fn styled<C: WriteColor + Drop>(inner: C, rows: Rows) -> io::Result<C> {
    let styles = Styles::default();
    let mut styled = StylesWriter::new(inner, &styles);
    write_rows(&mut styled, rows)?;
    Ok(styled.into_inner())
}

/// Returns rows in color.
pub fn ansi(alloc: Global, rows: Rows) -> io::Result<Vec<u8>> {
    Ok(styled(Ansi::new(Vec::new(alloc)), rows)?.into_inner())
}

/// Returns every style mark of a writer without color.
pub fn no_color_style_marks(alloc: Global) -> io::Result<Vec<u8>> {
    Ok(styled(NoColor::new(Vec::new(alloc)), Rows::StyleMarks)?.into_inner())
}

/// Returns every style mark of a custom `WriteColor`.
pub fn tag_color_style_marks(alloc: Global) -> io::Result<Vec<u8>> {
    let mut text = Vec::new(alloc);
    styled(TagColor::new(&mut text), Rows::StyleMarks)?;
    Ok(text)
}

/// Returns every style mark of a custom `WriteStyle`.
pub fn tag_style_marks(alloc: Global) -> io::Result<Vec<u8>> {
    let mut text = Vec::new(alloc);
    write_style_marks(&mut TagWriter::new(&mut text))?;
    Ok(text)
}

/// Returns the escape sequences of a foreground and a background color.
pub fn color_sequences(
    alloc: Global,
    fg: Option<Color>,
    bg: Option<Color>,
    intense: bool,
) -> io::Result<Vec<u8>> {
    let mut text = Vec::new(alloc);
    let spec = ColorSpec {
        fg,
        bg,
        intense,
        ..ColorSpec::new()
    };
    Ansi::new(&mut text).set_color(&spec)?;
    Ok(text)
}
