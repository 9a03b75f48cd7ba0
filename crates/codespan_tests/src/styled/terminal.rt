//! What is shown for hostile texts, and which sequences a terminal receives.

use crate::asserts::{assert_bytes, assert_row};
use crate::outputs::rendering::render_styled;
use crate::styled::texts::text_of_runs;
use codespan_base::diagnostic::{Diagnostic, Label, LabelStyle, Severity};
use codespan_base::files::SimpleFile;
use codespan_base::term::{Ansi, Config, Styles};
use codespan_reporting::term::RichDiagnostic;
use codespan_styled::StyleMark;
use codespan_styled::render::styled_text;
use codespan_styled::terminal::{is_safe, safe_text, to_terminal};
use std::alloc::Global;
use std::panic::Expect;
use std::process::Abort;

/// A text, and what is left of it.
type Text<'text> = (&'text str, &'text str);

/// Texts of which all is safe.
const HARMLESS: [Text<'static>; 8] = [
    ("", ""),
    ("fn main() {}\n", "fn main() {}\n"),
    ("a\tb\n", "a\tb\n"),
    ("┌─ straße.rs:1:1\n", "┌─ straße.rs:1:1\n"),
    ("世界 🦀 e\u{301}\n", "世界 🦀 e\u{301}\n"),
    (
        "👍🏽 🇩🇪 1\u{fe0f}\u{20e3} ❤\u{fe0f}",
        "👍🏽 🇩🇪 1\u{fe0f}\u{20e3} ❤\u{fe0f}",
    ),
    ("می\u{200c}خواهم", "می\u{200c}خواهم"),
    ("שלום", "שלום"),
];

/// Hostile sources, and what is left of them.
const REORDERED: [Text<'static>; 4] = [
    // a return that looks like a comment
    (
        "''' Subtract funds then \u{2067}''' ;return\n",
        "''' Subtract funds then ''' ;return\n",
    ),
    // a condition inside a comment
    (
        "/*\u{202e} } \u{2066}if (isAdmin)\u{2069} \u{2066} begin admins only */\n",
        "/* } if (isAdmin)  begin admins only */\n",
    ),
    // a comment that is a part of a string
    (
        "if (level != \"user\u{202e} \u{2066}// Check if admin\u{2069} \u{2066}\") {\n",
        "if (level != \"user // Check if admin \") {\n",
    ),
    (
        "\u{202a}a\u{202b}b\u{202c}c\u{202d}d\u{2068}e\u{200e}f\u{200f}g\u{61c}h",
        "abcdefgh",
    ),
];

/// Texts with control characters, and what is left of them.
const CONTROLS: [Text<'static>; 8] = [
    // a title, ended by BEL, and by ST in seven bits and in eight
    ("\x1b]0;title\x07", "]0;title"),
    ("\x1b]0;title\x1b\\", "]0;title\\"),
    ("\u{9d}0;title\u{9c}", "0;title"),
    // a color, and a screen that is cleared
    ("\u{9b}31mred", "31mred"),
    ("\x1b[2J\x1b[H", "[2J[H"),
    // text over text
    ("good\x08\x08\x08\x08evil", "goodevil"),
    ("good\revil", "goodevil"),
    ("a\x00b\x0bc\x0cd\x0ee\x0ff\x7fg\u{85}h\n", "abcdefgh\n"),
];

/// Texts with characters that rows count as no cell, and what is left of them.
const INVISIBLE: [Text<'static>; 5] = [
    ("👩\u{200d}🚀", "👩🚀"),
    ("👨\u{200d}👩\u{200d}👧", "👨👩👧"),
    ("co\u{ad}operate", "cooperate"),
    ("\u{feff}fn main() {}", "fn main() {}"),
    ("let \u{3164}, \u{ffa0} = 1;", "let ,  = 1;"),
];

/// Texts with characters that rows count as one cell and that are not shown, and what is shown for
/// them.
const REPLACED: [Text<'static>; 3] = [
    ("a\u{2028}b\u{2029}c", "a\u{fffd}b\u{fffd}c"),
    (
        "\u{fff9}base\u{fffa}note\u{fffb}",
        "\u{fffd}base\u{fffd}note\u{fffd}",
    ),
    (
        "\u{fdd0}\u{fdef}\u{fffe}\u{ffff}\u{1fffe}\u{10ffff}",
        "\u{fffd}\u{fffd}\u{fffd}\u{fffd}\u{fffd}\u{fffd}",
    ),
];

/// The texts, by what is tested.
static TEXTS: [(&str, &[Text<'static>]); 5] = [
    ("harmless_text_is_unchanged", &HARMLESS),
    ("reordered_source_is_in_order", &REORDERED),
    ("controls_are_left_out", &CONTROLS),
    ("invisible_characters_are_left_out", &INVISIBLE),
    ("characters_of_one_cell_are_replaced", &REPLACED),
];

/// Asserts what is left of these texts.
fn assert_safe_texts(rt: &impl Abort, alloc: Global, name: &str, texts: &[Text<'_>]) {
    for (source, want) in texts {
        let safe = safe_text(alloc, source).expect(rt, "the text");
        assert_row(rt, name, safe.as_str(), want);
    }
}

#[test]
fn safe_texts(rt: HostRuntime) {
    for (name, texts) in &TEXTS {
        assert_safe_texts(&rt, rt.alloc(), name, texts);
    }
}

/// The first and the last of each range of characters that are not shown as themselves.
static UNSAFE: [char; 30] = [
    '\0',
    '\x08',
    '\x0b',
    '\x1f',
    '\x7f',
    '\u{80}',
    '\u{9f}',
    '\u{ad}',
    '\u{61c}',
    '\u{200d}',
    '\u{200e}',
    '\u{200f}',
    '\u{2028}',
    '\u{2029}',
    '\u{202a}',
    '\u{202e}',
    '\u{2066}',
    '\u{2069}',
    '\u{3164}',
    '\u{fdd0}',
    '\u{fdef}',
    '\u{feff}',
    '\u{ffa0}',
    '\u{fff9}',
    '\u{fffb}',
    '\u{fffe}',
    '\u{ffff}',
    '\u{1fffe}',
    '\u{10fffe}',
    '\u{10ffff}',
];

/// The characters beside them.
static SAFE: [char; 29] = [
    '\t',
    '\n',
    ' ',
    '~',
    '\u{a0}',
    '\u{ac}',
    '\u{ae}',
    '\u{61b}',
    '\u{61d}',
    '\u{200c}',
    '\u{2010}',
    '\u{2027}',
    '\u{202f}',
    '\u{2065}',
    '\u{206a}',
    '\u{3163}',
    '\u{3165}',
    '\u{fdcf}',
    '\u{fdf0}',
    '\u{fefe}',
    '\u{ff00}',
    '\u{ff9f}',
    '\u{ffa1}',
    '\u{fff8}',
    '\u{fffc}',
    '\u{fffd}',
    '\u{1fffd}',
    '\u{20000}',
    '\u{10fffd}',
];

#[test]
fn first_and_last_of_each_range(rt: HostRuntime) {
    for c in &UNSAFE {
        assert!(rt; !is_safe(*c));
    }
    for c in &SAFE {
        assert!(rt; is_safe(*c));
    }
}

/// The runs of a styled text, by what is tested, and the output.
type WorkedOutput<'text> = (&'text str, &'text [(StyleMark, &'text str)], &'text str);

/// A header with sequences of its own, an `a` in a style of each kind, and no text.
static OUTPUTS: [WorkedOutput<'static>; 10] = [
    (
        "header_has_its_sequences_alone",
        &[
            (StyleMark::Reset, ""),
            (StyleMark::Header(Severity::Error), "error"),
            (StyleMark::HeaderMessage, ": \x1b[2Jbad \u{202e}name"),
            (StyleMark::Reset, "\n  "),
            (StyleMark::SourceBorder, "┌─"),
            (StyleMark::Reset, " \x1b]0;a.rs\x07\n"),
        ],
        "\x1b[0m\x1b[1m\x1b[38;5;9merror\x1b[0m\x1b[1m: [2Jbad name\x1b[0m\n  \
        \x1b[0m\x1b[36m┌─\x1b[0m ]0;a.rs\n",
    ),
    ("plain", &[(StyleMark::Reset, "a")], "a"),
    (
        "header",
        &[(StyleMark::Header(Severity::Warning), "a")],
        "\x1b[0m\x1b[1m\x1b[38;5;11ma",
    ),
    (
        "header message",
        &[(StyleMark::HeaderMessage, "a")],
        "\x1b[0m\x1b[1ma",
    ),
    (
        "line number",
        &[(StyleMark::LineNumber, "a")],
        "\x1b[0m\x1b[36ma",
    ),
    (
        "note bullet",
        &[(StyleMark::NoteBullet, "a")],
        "\x1b[0m\x1b[36ma",
    ),
    (
        "source border",
        &[(StyleMark::SourceBorder, "a")],
        "\x1b[0m\x1b[36ma",
    ),
    (
        "primary label",
        &[(StyleMark::Label(Severity::Note, LabelStyle::Primary), "a")],
        "\x1b[0m\x1b[32ma",
    ),
    (
        "secondary label",
        &[(StyleMark::Label(Severity::Note, LabelStyle::Secondary), "a")],
        "\x1b[0m\x1b[36ma",
    ),
    ("no text", &[], ""),
];

#[test]
fn outputs(rt: HostRuntime) {
    let styles = Styles::default();
    for (name, runs, want) in &OUTPUTS {
        let text = text_of_runs(&rt, rt.alloc(), runs);
        let terminal = to_terminal(rt.alloc(), &text, &styles).expect(&rt, "the output");
        assert_row(&rt, name, terminal.as_str(), want);
    }
}

/// Returns a diagnostic with a label.
fn unused_variable(rt: &impl Abort, alloc: Global) -> Diagnostic<()> {
    let label = Label::primary(alloc, (), 4..5).with_message("not used");
    Diagnostic::warning(alloc)
        .with_message("a variable")
        .expect(rt, "the message")
        .with_label(label.expect(rt, "the label"))
        .expect(rt, "the diagnostic")
}

/// Returns what the view writes to [`Ansi`].
fn written_to_ansi(
    rt: &impl Abort,
    config: &Config<'_>,
    files: &SimpleFile<&str, &str>,
    diagnostic: &Diagnostic<()>,
) -> Vec<u8> {
    let view = RichDiagnostic::new(diagnostic, config);
    let colors = Ansi::new(Vec::new(*diagnostic.labels.allocator()));
    let (colored, returned) = render_styled(colors, config, view, files);
    assert!(rt; returned.is_ok());
    colored.into_inner()
}

#[test]
fn output_is_as_written_to_ansi(rt: HostRuntime) {
    let files = SimpleFile::new(rt.alloc(), "a.rs", "let x = 1;\n").expect(&rt, "the file");
    let diagnostic = unused_variable(&rt, rt.alloc());
    let config = Config::default();
    let colored = written_to_ansi(&rt, &config, &files, &diagnostic);
    let text = styled_text(rt.alloc(), &config, &files, &diagnostic).expect(&rt, "the text");
    let terminal = to_terminal(rt.alloc(), &text, &Styles::default()).expect(&rt, "the output");
    assert_bytes(&rt, colored.as_slice(), terminal.as_str());
}
