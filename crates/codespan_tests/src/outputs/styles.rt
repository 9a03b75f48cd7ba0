//! Tests of short and medium style, and of the calls that emit.

use crate::asserts::{assert_bytes, assert_text};
use crate::outputs::rendering::{OK, assert_renders, in_first_and_eighth, one_file, parts_of};
use codespan_reporting::diagnostic::{Diagnostic, Label};
use codespan_reporting::files::SimpleFiles;
use codespan_reporting::term::{
    Config, DisplayStyle, PlainWriter, Renderer, RichDiagnostic, ShortDiagnostic, WriteStyle, emit,
    emit_to_io_write, emit_to_string, emit_to_write_style,
};
use std::alloc::Global;
use std::io::Write;
use std::panic::Expect;
use std::process::Abort;
use test_writers::example::TagWriter;
use test_writers::sequences::without_sequences;

/// Returns the default configuration in a style.
pub fn in_style<'chars>(display_style: DisplayStyle) -> Config<'chars> {
    Config {
        display_style,
        ..Config::default()
    }
}

/// Emits by each call that writes to a writer, one after another. Returns `Ok` or the name of the
/// error that all of them return, or `different results`.
pub fn emit_by_each<W: Write>(
    inner: &mut W,
    config: &Config<'_>,
    files: &SimpleFiles<&str, &str>,
    diagnostic: &Diagnostic<usize>,
) -> &'static str {
    let (to_io_write, _, _) = parts_of(&emit_to_io_write(inner, config, files, diagnostic));
    let (by_emit, _, _) = parts_of(&emit(inner, config, files, diagnostic));
    let mut plain = PlainWriter::new(inner);
    let to_write_style = emit_to_write_style(&mut plain, config, files, diagnostic);
    let (to_write_style, _, _) = parts_of(&to_write_style);
    if to_io_write == by_emit && by_emit == to_write_style {
        to_write_style
    } else {
        "different results"
    }
}

/// What is emitted in a style to a string and to a vector that hold `kept`.
struct Emitted {
    style: DisplayStyle,
    /// What each call returns: `Ok` or which error.
    returned: &'static str,
    /// What the string holds then.
    string: &'static str,
    /// What the vector holds once each call that writes has emitted to it.
    written: &'static str,
}

/// Asserts what the call that appends to a string returns, and what the string holds then.
fn assert_string(
    rt: &impl Abort,
    files: &SimpleFiles<&str, &str>,
    diagnostic: &Diagnostic<usize>,
    expected: &Emitted,
) {
    let alloc = *diagnostic.labels.allocator();
    let config = in_style(expected.style);
    let mut string = String::from_str(alloc, "kept").expect(rt, "the string");
    let returned = emit_to_string(&mut string, &config, files, diagnostic);
    let (returned, _, _) = parts_of(&returned);
    assert_text(rt, returned, expected.returned);
    assert_text(rt, string.as_str(), expected.string);
}

/// Asserts what the calls that write return, and what the vector holds then.
fn assert_written(
    rt: &impl Abort,
    files: &SimpleFiles<&str, &str>,
    diagnostic: &Diagnostic<usize>,
    expected: &Emitted,
) {
    let alloc = *diagnostic.labels.allocator();
    let config = in_style(expected.style);
    let mut bytes = String::from_str(alloc, "kept")
        .expect(rt, "the text")
        .into_bytes();
    let returned = emit_by_each(&mut bytes, &config, files, diagnostic);
    assert_text(rt, returned, expected.returned);
    assert_bytes(rt, bytes.as_slice(), expected.written);
}

/// A bug in each style.
static BARE_BUG: [Emitted; 3] = [
    Emitted {
        style: DisplayStyle::Rich,
        returned: "Ok",
        string: "keptbug: \n\n",
        written: "keptbug: \n\nbug: \n\nbug: \n\n",
    },
    Emitted {
        style: DisplayStyle::Medium,
        returned: "Ok",
        string: "keptbug: \n",
        written: "keptbug: \nbug: \nbug: \n",
    },
    Emitted {
        style: DisplayStyle::Short,
        returned: "Ok",
        string: "keptbug: \n",
        written: "keptbug: \nbug: \nbug: \n",
    },
];

/// Each call that appends keeps what a string or a vector holds.
#[test]
fn bare_bug(rt: HostRuntime) {
    let files = SimpleFiles::new(rt.alloc());
    let bug = Diagnostic::bug(rt.alloc());
    for expected in &BARE_BUG {
        assert_string(&rt, &files, &bug, expected);
        assert_written(&rt, &files, &bug, expected);
    }
}

/// Renders a diagnostic by each view, one after another.
fn render_views<W: WriteStyle>(
    rt: &impl Abort,
    writer: &mut W,
    files: &SimpleFiles<&str, &str>,
    diagnostic: &Diagnostic<usize>,
) {
    let config = Config::default();
    let mut renderer = Renderer::new(writer, &config);
    RichDiagnostic::new(diagnostic, &config)
        .render(files, &mut renderer)
        .expect(rt, "the rich view");
    ShortDiagnostic::new(diagnostic, true)
        .render(files, &mut renderer)
        .expect(rt, "the medium view");
    ShortDiagnostic::new(diagnostic, false)
        .render(files, &mut renderer)
        .expect(rt, "the short view");
}

/// Each view renders what the calls write in its style.
#[test]
fn bare_views(rt: HostRuntime) {
    let files = SimpleFiles::new(rt.alloc());
    let mut plain = PlainWriter::new(Vec::new(rt.alloc()));
    render_views(&rt, &mut plain, &files, &Diagnostic::bug(rt.alloc()));
    assert_bytes(
        &rt,
        plain.into_inner().as_slice(),
        "bug: \n\nbug: \nbug: \n",
    );
}

/// Returns a diagnostic with a label in the first file, and a note.
fn with_note(rt: &impl Abort, alloc: Global) -> Diagnostic<usize> {
    Diagnostic::error(alloc)
        .with_message("m")
        .expect(rt, "the message")
        .with_label(Label::primary(alloc, 0, 1..2))
        .expect(rt, "the label")
        .with_note("n")
        .expect(rt, "the note")
}

/// Asserts that `without_sequences` removes the escape sequences of a header.
fn assert_without_sequences(rt: &impl Abort, alloc: Global) {
    let colored = b"\x1b[0m\x1b[1m\x1b[38;5;9merror\x1b[0m\x1b[1m: m\x1b[0m\n";
    let text = without_sequences(alloc, colored).expect(rt, "the text");
    assert_bytes(rt, text.as_slice(), "error: m\n");
}

/// Over `NoColor` a diagnostic is written as in plain text, and over `Ansi` too, once the escape
/// sequences are removed.
#[test]
fn colours_change_no_text(rt: HostRuntime) {
    assert_without_sequences(&rt, rt.alloc());
    let files = one_file(&rt, rt.alloc());
    let diagnostic = with_note(&rt, rt.alloc());
    let output = "error: m\n  ┌─ f:1:2\n  │\n1 │ ab\n  │  ^\n  │\n  = n\n\n";
    assert_renders(&rt, &Config::default(), &files, &diagnostic, (output, OK));
}

/// A style, and the output in tags.
static TAGGED: [(DisplayStyle, &str); 2] = [
    (DisplayStyle::Short, "f:1:2: [header]error[message]: m[/]\n"),
    (
        DisplayStyle::Medium,
        "f:1:2: [header]error[message]: m[/]\n [bullet]=[/] n\n",
    ),
];

/// Returns the output in tags.
fn tagged(
    rt: &impl Abort,
    files: &SimpleFiles<&str, &str>,
    diagnostic: &Diagnostic<usize>,
    style: DisplayStyle,
) -> Vec<u8> {
    let mut bytes = Vec::new(*diagnostic.labels.allocator());
    let mut tags = TagWriter::new(&mut bytes);
    emit_to_write_style(&mut tags, &in_style(style), files, diagnostic).expect(rt, "the tags");
    bytes
}

/// A custom `WriteStyle`, in short and in medium style.
#[test]
fn tags_of_styles(rt: HostRuntime) {
    let files = one_file(&rt, rt.alloc());
    let diagnostic = with_note(&rt, rt.alloc());
    for (style, output) in &TAGGED {
        let bytes = tagged(&rt, &files, &diagnostic, *style);
        assert_bytes(&rt, bytes.as_slice(), output);
    }
}

/// A diagnostic with labels in a file and in one that is missing, in each style.
static MISSING_FILE: [Emitted; 3] = [
    Emitted {
        style: DisplayStyle::Rich,
        returned: "FileMissing",
        string: "kept",
        written: "kept",
    },
    Emitted {
        style: DisplayStyle::Medium,
        returned: "FileMissing",
        string: "kept",
        written: "keptf:1:1: error: m\nf:1:1: error: m\nf:1:1: error: m\n",
    },
    Emitted {
        style: DisplayStyle::Short,
        returned: "FileMissing",
        string: "kept",
        written: "keptf:1:1: error: m\nf:1:1: error: m\nf:1:1: error: m\n",
    },
];

/// The string is unchanged; a writer has the headers before the error, or in rich style nothing.
#[test]
fn missing_file(rt: HostRuntime) {
    let files = one_file(&rt, rt.alloc());
    let diagnostic = in_first_and_eighth(&rt, rt.alloc());
    for expected in &MISSING_FILE {
        assert_string(&rt, &files, &diagnostic, expected);
        assert_written(&rt, &files, &diagnostic, expected);
    }
}
