//! Clones of configurations, of their characters and of their `snippet_start`.

use crate::asserts::assert_same;
use codespan_base::term::config::chars::SnippetStart;
use codespan_base::term::{Chars, Config, DisplayStyle, Layout};
use std::alloc::{AllocError, Global};
use std::panic::Expect;
use std::process::Abort;
use test_writers::equality::{are_same_chars, is_same_config};

/// Returns characters of box drawing, as the documentation of the Rust crate states them.
fn box_drawing<'chars>() -> Chars<'chars> {
    Chars {
        snippet_start: SnippetStart::Fixed("┌─"),
        source_border_left: '│',
        source_border_left_break: '·',
        note_bullet: '=',
        single_primary_caret: '^',
        single_secondary_caret: '-',
        multi_primary_caret_start: '^',
        multi_primary_caret_end: '^',
        multi_secondary_caret_start: '\'',
        multi_secondary_caret_end: '\'',
        multi_top_left: '╭',
        multi_top: '─',
        multi_bottom_left: '╰',
        multi_bottom: '─',
        multi_left: '│',
        pointer_left: '│',
    }
}

/// Returns the defaults of the Rust crate, and the layout of its outputs.
fn defaults<'chars>() -> Config<'chars> {
    Config {
        display_style: DisplayStyle::Rich,
        tab_width: 4,
        chars: box_drawing(),
        start_context_lines: 3,
        end_context_lines: 1,
        before_label_lines: 0,
        after_label_lines: 0,
        layout: Layout::Classic,
        max_width: None,
    }
}

/// The clone of the default configuration has the defaults, and does not own its `snippet_start`.
#[test]
fn clone_of_default_configuration(rt: HostRuntime) {
    let fixed = Config::default().clone().expect(&rt, "a copy");
    assert!(rt; is_same_config(&fixed, &defaults()));
    assert_same(&rt, &start_of(&fixed.chars.snippet_start), &("┌─", false));
}

/// Returns a configuration whose snippets start with `==>`, a text that it owns. No field has its
/// default.
fn with_owned_start(alloc: Global) -> Result<Config<'static>, AllocError> {
    let chars = Chars {
        snippet_start: SnippetStart::Owned(String::from_str(alloc, "==>")?),
        ..Chars::ascii()
    };
    Ok(Config {
        display_style: DisplayStyle::Medium,
        tab_width: 8,
        chars,
        start_context_lines: 4,
        end_context_lines: 5,
        before_label_lines: 6,
        after_label_lines: 7,
        layout: Layout::Unbroken,
        max_width: Some(8),
    })
}

/// Returns the text that snippets start with, and whether it is owned.
fn start_of<'a>(start: &'a SnippetStart<'_>) -> (&'a str, bool) {
    match start {
        SnippetStart::Owned(text) => (text.as_str(), true),
        SnippetStart::Fixed(text) => (text, false),
    }
}

/// What `start_of` returns for that configuration.
static OWNED_START: (&str, bool) = ("==>", true);

/// Asserts that the clone of an owned `==>` is an owned `==>`.
fn assert_start_clone(rt: &impl Abort, start: &SnippetStart<'_>) {
    let copy = start.clone().expect(rt, "a copy");
    assert_same(rt, &start_of(&copy), &OWNED_START);
}

/// Asserts that the clone of these characters is equal, and owns a `==>`.
fn assert_chars_clone(rt: &impl Abort, chars: &Chars<'_>) {
    let copy = chars.clone().expect(rt, "a copy");
    assert!(rt; are_same_chars(&copy, chars));
    assert_same(rt, &start_of(&copy.snippet_start), &OWNED_START);
}

/// The clones of an owned `snippet_start`, and of characters with it, own their text, and the
/// characters are equal.
#[test]
fn clones(rt: HostRuntime) {
    let config = with_owned_start(rt.alloc()).expect(&rt, "a configuration");
    assert_start_clone(&rt, &config.chars.snippet_start);
    assert_chars_clone(&rt, &config.chars);
}

#[test]
fn clone_of_configuration(rt: HostRuntime) {
    let config = with_owned_start(rt.alloc()).expect(&rt, "a configuration");
    let copy = config.clone().expect(&rt, "a copy");
    assert!(rt; is_same_config(&copy, &config));
    assert_same(&rt, &(copy.tab_width, copy.chars.pointer_left), &(8, '|'));
    assert_same(&rt, &start_of(&copy.chars.snippet_start), &OWNED_START);
}
