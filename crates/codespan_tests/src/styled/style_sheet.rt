//! Style sheets against the colors of xterm, as its manual and `rgb.txt` have them: `red3` for red,
//! `red` for bright red, and the like; `blue2` for blue and `rgb:5c/5c/ff` for bright blue.
//! Whatever the colors, the characters of a row are from left to right, and boxes of wide
//! characters have the width of their cells.

use crate::asserts::assert_text;
use codespan_base::term::{Color, ColorSpec, Styles};
use codespan_styled::html_styles;
use std::alloc::Global;
use std::panic::Expect;
use std::process::Abort;

#[test]
fn default_styles(rt: HostRuntime) {
    let want = ".diagnostic .header-bug { color: #ff0000; font-weight: bold; }\n\
                .diagnostic .header-error { color: #ff0000; font-weight: bold; }\n\
                .diagnostic .header-warning { color: #ffff00; font-weight: bold; }\n\
                .diagnostic .header-note { color: #00ff00; font-weight: bold; }\n\
                .diagnostic .header-help { color: #00ffff; font-weight: bold; }\n\
                .diagnostic .header-message { font-weight: bold; }\n\
                .diagnostic .primary-label-bug { color: #cd0000; }\n\
                .diagnostic .primary-label-error { color: #cd0000; }\n\
                .diagnostic .primary-label-warning { color: #cdcd00; }\n\
                .diagnostic .primary-label-note { color: #00cd00; }\n\
                .diagnostic .primary-label-help { color: #00cdcd; }\n\
                .diagnostic .secondary-label { color: #00cdcd; }\n\
                .diagnostic .line-number { color: #00cdcd; }\n\
                .diagnostic .source-border { color: #00cdcd; }\n\
                .diagnostic .note-bullet { color: #00cdcd; }\n\
                .diagnostic { direction: ltr; unicode-bidi: isolate-override; }\n\
                .diagnostic .wide { display: inline-block; width: 2ch; }\n\
                .diagnostic .wide-3 { display: inline-block; width: 3ch; }\n";
    let css = html_styles(rt.alloc(), &Styles::default()).expect(&rt, "the style sheet");
    assert_text(&rt, css.as_str(), want);
}

/// Returns styles without color, but for two: the first has this color as its background, and the
/// last has it as its foreground, bold and intense.
fn with_color(color: Color) -> Styles {
    let mut styles = Styles::no_color();
    styles.header_bug = ColorSpec {
        fg: None,
        bg: Some(color),
        bold: false,
        intense: false,
    };
    styles.note_bullet = ColorSpec {
        fg: Some(color),
        bg: None,
        bold: true,
        intense: true,
    };
    styles
}

/// Asserts that the style sheet of these styles has no colors but these two, the color and the
/// bright one of it.
fn assert_colors(rt: &impl Abort, alloc: Global, color: Color, normal: &str, bright: &str) {
    let want = format!(in alloc;
        ".diagnostic .header-bug {{ background-color: {normal}; }}\n\
         .diagnostic .header-error {{ }}\n\
         .diagnostic .header-warning {{ }}\n\
         .diagnostic .header-note {{ }}\n\
         .diagnostic .header-help {{ }}\n\
         .diagnostic .header-message {{ }}\n\
         .diagnostic .primary-label-bug {{ }}\n\
         .diagnostic .primary-label-error {{ }}\n\
         .diagnostic .primary-label-warning {{ }}\n\
         .diagnostic .primary-label-note {{ }}\n\
         .diagnostic .primary-label-help {{ }}\n\
         .diagnostic .secondary-label {{ }}\n\
         .diagnostic .line-number {{ }}\n\
         .diagnostic .source-border {{ }}\n\
         .diagnostic .note-bullet {{ color: {bright}; font-weight: bold; }}\n\
         .diagnostic {{ direction: ltr; unicode-bidi: isolate-override; }}\n\
         .diagnostic .wide {{ display: inline-block; width: 2ch; }}\n\
         .diagnostic .wide-3 {{ display: inline-block; width: 3ch; }}\n"
    )
    .expect(rt, "the expected style sheet");
    let css = html_styles(alloc, &with_color(color)).expect(rt, "the style sheet");
    assert_text(rt, css.as_str(), want.as_str());
}

/// Each color, and how it and the bright one of it are written in CSS.
static COLORS: [(Color, &str, &str); 8] = [
    (Color::Black, "#000000", "#7f7f7f"),
    (Color::Red, "#cd0000", "#ff0000"),
    (Color::Green, "#00cd00", "#00ff00"),
    (Color::Yellow, "#cdcd00", "#ffff00"),
    (Color::Blue, "#0000ee", "#5c5cff"),
    (Color::Magenta, "#cd00cd", "#ff00ff"),
    (Color::Cyan, "#00cdcd", "#00ffff"),
    (Color::White, "#e5e5e5", "#ffffff"),
];

#[test]
fn each_color(rt: HostRuntime) {
    for (color, normal, bright) in &COLORS {
        assert_colors(&rt, rt.alloc(), *color, normal, bright);
    }
}
