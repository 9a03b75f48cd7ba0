//! The calls for editors.

use crate::asserts::assert_bytes;
use crate::native::calls::{FILE, first_bytes};
use codespan_native::edits::write_edited;
use codespan_native::positions::{find_byte, find_position};
use codespan_native::raw::{RawEdit, RawFile, RawPosition};

/// A window of a file, from byte 100 and line 7 on.
const WINDOW: RawFile<'static> = RawFile {
    source: b"a\n\xf0\x90\x90\x80b\n",
    first_byte: 100,
    first_line: 7,
    ..FILE
};

/// A byte of a window goes to its position and back; inside a character it has none.
#[test]
fn positions(rt: HostRuntime) {
    let found = find_position(rt.alloc(), &WINDOW, 0, 106);
    assert!(rt; (found.status, found.value.line, found.value.character) == (0, 8, 2));
    let byte = find_byte(rt.alloc(), &WINDOW, 0, &found.value);
    assert!(rt; (byte.status, byte.value) == (0, 106));
    let inside = find_position(rt.alloc(), &WINDOW, 0, 103);
    assert!(rt; (inside.status, inside.detail.argument, inside.detail.index) == (4, 28, 0));
}

/// A line before the window has no byte, and a character past the end of its line has the error
/// with that end.
#[test]
fn positions_without_a_byte(rt: HostRuntime) {
    for (line, character, argument, index) in [(6, 0, 26, 0), (8, 5, 27, 4), (8, 1, 28, 0)] {
        let position = RawPosition { line, character };
        let found = find_byte(rt.alloc(), &WINDOW, 0, &position);
        assert!(rt; (found.status, found.value) == (4, 0));
        assert!(rt; (found.detail.argument, found.detail.index) == (argument, index));
    }
}

/// Two edits, in the other order than that of their ranges.
static EDITS: [RawEdit<'static>; 2] = [
    RawEdit {
        start: 4,
        end: 5,
        replacement: b"&y",
        reserved: [0; 2],
    },
    RawEdit {
        start: 0,
        end: 0,
        replacement: b"let x = ",
        reserved: [0; 2],
    },
];

/// Edits make a text, where it fits; of a source that is too short the first one is reported.
#[test]
fn edited_texts(rt: HostRuntime) {
    let mut out = [7u8; 20];
    let outcome = write_edited(rt.alloc(), b"foo(y)", &EDITS, &mut out);
    assert_bytes(&rt, first_bytes(&out, outcome.written), "let x = foo(&y)");
    assert!(rt; outcome.status == 0);
    let small = write_edited(rt.alloc(), b"foo(y)", &EDITS, &mut out[..14]);
    assert!(rt; (small.status, small.written) == (1, 15));
    let past_end = write_edited(rt.alloc(), b"foo(", &EDITS, &mut out);
    assert!(rt; (past_end.status, past_end.written) == (4, 0));
    assert!(rt; (past_end.detail.argument, past_end.detail.index) == (32, 0));
}
