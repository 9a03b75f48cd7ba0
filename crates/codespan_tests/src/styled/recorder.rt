//! The writer of runs: a suggestion as an HTML element, several outputs, and its errors.

use crate::suggestions::{files_of, suggestion_of};
use codespan_base::term::{Config, WriteStyle};
use codespan_styled::{Recorder, StyleMark, StyledText, to_html};
use codespan_suggestions::emit_suggestion_to_write_style;
use std::alloc::Global;
use std::panic::Expect;
use std::process::Abort;

/// A suggestion, with the class of each style.
static SUGGESTION: &str = "<pre class=\"diagnostic\">\n\
    <span class=\"header-help\">help</span><span class=\"header-message\">: borrow</span>\n    \
    <span class=\"source-border\">┌─</span> f.rs:1:5\n    \
    <span class=\"source-border\">│</span>\n\
    <span class=\"line-number\">1</span>   <span class=\"source-border\">│</span> \
    <span class=\"primary-label-error\">- foo(y)</span>\n  \
    <span class=\"line-number\">1</span> <span class=\"source-border\">│</span> \
    <span class=\"primary-label-note\">+ foo(&amp;y)</span>\n\n</pre>";

#[test]
fn suggestion_as_html(rt: HostRuntime) {
    let files = files_of(&rt, rt.alloc(), &[("f.rs", "foo(y)\n")]);
    let suggestion = suggestion_of(&rt, rt.alloc(), &[(0, 4, 5, "&y")])
        .with_message("borrow")
        .expect(&rt, "the message");
    let mut recorder = Recorder::new(rt.alloc());
    let config = Config::default();
    emit_suggestion_to_write_style(&mut recorder, &config, &files, &suggestion).expect(
        &rt, "memory",
    );
    let text = recorder.into_text().expect(&rt, "memory");
    let html = to_html(rt.alloc(), &text).expect(&rt, "memory");
    assert_eq!(&rt; html.as_str(), SUGGESTION);
}

/// Returns the number of runs, and the style and the text of the last one.
fn last_run(text: &StyledText) -> Option<(usize, StyleMark, &str)> {
    let run = text.runs.last()?;
    Some((text.runs.len(), run.style, run.text.as_str()))
}

/// A new writer has one run, without text.
#[test]
fn nothing_written(rt: HostRuntime) {
    let text = Recorder::new(rt.alloc()).into_text().expect(&rt, "memory");
    assert_eq!(&rt; last_run(&text), Some((1, StyleMark::Reset, "")));
}

/// A character may come in two writes, with no style mark between them.
#[test]
fn character_in_two_writes(rt: HostRuntime) {
    let mut recorder = Recorder::new(rt.alloc());
    recorder.set_line_number().expect(&rt, "memory");
    recorder.put(&[0xc3]).expect(&rt, "memory");
    recorder.put(&[0xa9]).expect(&rt, "memory");
    let text = recorder.into_text().expect(&rt, "memory");
    assert_eq!(&rt; last_run(&text), Some((2, StyleMark::LineNumber, "é")));
}

/// Returns a writer that has the first byte of a character.
fn inside_a_character(rt: &impl Abort, alloc: Global) -> Recorder {
    let mut recorder = Recorder::new(alloc);
    recorder.put(&[0xc3]).expect(rt, "memory");
    recorder
}

/// A style mark inside a character fails, and what failed is not forgotten.
#[test]
fn style_mark_inside_a_character(rt: HostRuntime) {
    let mut recorder = inside_a_character(&rt, rt.alloc());
    assert!(&rt; !recorder.has_failed());
    assert!(&rt; recorder.reset().is_err());
    assert!(&rt; recorder.has_failed());
    recorder.put(&[0xa9]).expect(&rt, "memory");
    assert!(&rt; recorder.into_text().is_err());
}

/// So does the end.
#[test]
fn end_inside_a_character(rt: HostRuntime) {
    assert!(&rt; inside_a_character(&rt, rt.alloc()).into_text().is_err());
}
