//! Characters, repeated characters, spaces and numbers, in plain text.

use crate::writers::written::{Part, assert_plain};
use std::alloc::Global;
use std::panic::Expect;
use std::process::Abort;

/// Characters of one to four bytes, with their texts.
static CHARACTERS: [(char, &str); 4] = [('a', "a"), ('é', "é"), ('─', "─"), ('🗻', "🗻")];

#[test]
fn characters(rt: HostRuntime) {
    for (c, expected) in &CHARACTERS {
        assert_plain(&rt, rt.alloc(), Part::Char(*c), expected);
    }
}

/// Asserts that a part is this text so many times, plain.
fn assert_repeats(rt: &impl Abort, alloc: Global, part: Part, text: &str, count: usize) {
    let whole = text.repeat(alloc, count).expect(rt, "the whole text");
    assert_plain(rt, alloc, part, whole.as_str());
}

/// How often a character is repeated.
static REPETITIONS: [usize; 9] = [0, 1, 2, 3, 16, 21, 64, 65, 200];

#[test]
fn repeated_characters(rt: HostRuntime) {
    for (c, text) in &CHARACTERS {
        for count in &REPETITIONS {
            assert_repeats(&rt, rt.alloc(), Part::Repeated(*c, *count), text, *count);
        }
    }
}

/// Numbers of spaces.
static SPACES: [usize; 7] = [0, 1, 63, 64, 65, 128, 1000];

#[test]
fn spaces(rt: HostRuntime) {
    for count in &SPACES {
        assert_repeats(&rt, rt.alloc(), Part::Spaces(*count), " ", *count);
    }
}

/// Numbers, with their texts.
static NUMBERS: [(usize, &str); 5] = [
    (0, "0"),
    (9, "9"),
    (10, "10"),
    (1024, "1024"),
    (usize::MAX, "18446744073709551615"),
];

#[test]
fn numbers(rt: HostRuntime) {
    for (number, expected) in &NUMBERS {
        assert_plain(&rt, rt.alloc(), Part::Number(*number), expected);
    }
}
