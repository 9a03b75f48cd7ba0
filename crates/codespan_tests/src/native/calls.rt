//! Calls as C makes them.

use crate::asserts::{assert_bytes, assert_row, text_of_bytes};
use codespan_native::emit::emit;
use codespan_native::raw::{
    RawChars, RawColorSpec, RawConfig, RawDiagnostic, RawFile, RawLabel, RawLine, RawLocation,
    RawStyles, RawText,
};
use codespan_native::status::write_status;
use std::alloc::Global;
use std::process::Abort;

/// A style without a color, neither bold nor intense.
const NO_COLOR: RawColorSpec = RawColorSpec {
    fg: 0,
    bg: 0,
    bold: 0,
    intense: 0,
};

/// The configuration: the caller's characters, and no colors.
pub const CONFIG: RawConfig<'static> = RawConfig {
    abi: 2,
    display_style: 0,
    layout: 0,
    form: 1,
    color_mode: 0,
    characters: 2,
    tab_width: 4,
    start_context_lines: 3,
    end_context_lines: 1,
    before_label_lines: 0,
    after_label_lines: 0,
    chars: RawChars {
        snippet_start: b"@",
        source_border_left: 0x21,
        source_border_left_break: 0x22,
        note_bullet: 0x23,
        single_primary_caret: 0x24,
        single_secondary_caret: 0x25,
        multi_primary_caret_start: 0x26,
        multi_primary_caret_end: 0x27,
        multi_secondary_caret_start: 0x28,
        multi_secondary_caret_end: 0x29,
        multi_top_left: 0x2a,
        multi_top: 0x2b,
        multi_bottom_left: 0x2c,
        multi_bottom: 0x2d,
        multi_left: 0x2e,
        pointer_left: 0x2f,
    },
    styles: RawStyles {
        header_bug: NO_COLOR,
        header_error: NO_COLOR,
        header_warning: NO_COLOR,
        header_note: NO_COLOR,
        header_help: NO_COLOR,
        header_message: NO_COLOR,
        primary_label_bug: NO_COLOR,
        primary_label_error: NO_COLOR,
        primary_label_warning: NO_COLOR,
        primary_label_note: NO_COLOR,
        primary_label_help: NO_COLOR,
        secondary_label: NO_COLOR,
        line_number: NO_COLOR,
        source_border: NO_COLOR,
        note_bullet: NO_COLOR,
    },
    max_width: 0,
    reserved: [0; 7],
};

/// A primary label over the first byte of the first file, without a message.
const LABEL: RawLabel<'static> = RawLabel {
    style: 0,
    file: 0,
    start: 0,
    end: 1,
    message: b"",
    reserved: [0; 2],
};

/// A diagnostic with that label alone.
pub const DIAGNOSTIC: RawDiagnostic<'static> = RawDiagnostic {
    severity: 0,
    code: b"",
    message: b"bad",
    labels: &[LABEL],
    notes: &[],
    reserved: [0; 4],
};

/// A file without text.
pub const FILE: RawFile<'static> = RawFile {
    name: b"f.txt",
    source: b"",
    first_byte: 0,
    first_line: 0,
    lines: &[],
    locations: &[],
    reserved: [0; 2],
};

/// A call: its name, its files, its diagnostic and its output.
type Call<'call> = (
    &'call str,
    &'call [RawFile<'call>],
    RawDiagnostic<'call>,
    &'call str,
);

/// Calls that write an output.
static CALLS: [Call<'static>; 3] = [
    (
        "a_file_cut_at_newlines",
        &[RawFile {
            source: b"abc\n",
            ..FILE
        }],
        RawDiagnostic {
            severity: 3,
            code: b"E1",
            labels: &[RawLabel {
                end: 3,
                message: b"here",
                ..LABEL
            }],
            notes: &[RawText { bytes: b"a note" }],
            ..DIAGNOSTIC
        },
        "error[E1]: bad\n  @ f.txt:1:1\n  !\n1 ! abc\n  ! $$$ here\n  !\n  # a note\n\n",
    ),
    (
        "a_window_from_line_100",
        &[RawFile {
            source: b"one\ntwo\n",
            first_byte: 5000,
            first_line: 99,
            ..FILE
        }],
        RawDiagnostic {
            severity: 2,
            labels: &[RawLabel {
                start: 5004,
                end: 5007,
                ..LABEL
            }],
            ..DIAGNOSTIC
        },
        "warning: bad\n    @ f.txt:101:1\n    !\n101 ! two\n    ! $$$\n\n",
    ),
    (
        "stated_lines_and_locations",
        &[RawFile {
            source: b"one;two;",
            first_byte: 10,
            lines: &[
                RawLine {
                    start: 10,
                    end: 13,
                    number: 7,
                },
                RawLine {
                    start: 14,
                    end: 17,
                    number: 9,
                },
            ],
            locations: &[RawLocation {
                byte: 14,
                line_number: 70,
                column_number: 80,
            }],
            ..FILE
        }],
        RawDiagnostic {
            labels: &[RawLabel {
                start: 14,
                end: 17,
                ..LABEL
            }],
            ..DIAGNOSTIC
        },
        "help: bad\n  @ f.txt:70:80\n  !\n9 ! two\n  ! $$$\n\n",
    ),
];

/// Returns the first `count` bytes, or all if there are fewer.
pub fn first_bytes(bytes: &[u8], count: usize) -> &[u8] {
    &bytes[..count.min(bytes.len())]
}

/// Asserts the status and the output of a call.
fn assert_emits(rt: &impl Abort, alloc: Global, call: &Call<'_>) {
    let (name, files, diagnostic, output) = call;
    let mut out = [0u8; 1024];
    let outcome = emit(alloc, files, diagnostic, &CONFIG, &mut out);
    let text = text_of_bytes(rt, first_bytes(&out, outcome.written));
    assert_row(rt, name, text, output);
    assert!(rt; outcome.status == 0);
}

/// Calls return `OK`, and write the output.
#[test]
fn calls(rt: HostRuntime) {
    for call in &CALLS {
        assert_emits(&rt, rt.alloc(), call);
    }
}

/// A call without files that fails: its name, its diagnostic, and the status, with the number and
/// the index of the argument that is reported.
type FailedCall<'call> = (&'call str, RawDiagnostic<'call>, (u32, u32, usize));

/// Calls that fail.
static FAILED_CALLS: [FailedCall<'static>; 2] = [
    // INVALID, for the message of the label 1: the file of a label and a note come after it
    (
        "an_invalid_argument_before_others",
        RawDiagnostic {
            labels: &[
                LABEL,
                RawLabel {
                    message: b"\xff",
                    ..LABEL
                },
            ],
            notes: &[RawText { bytes: b"\xff" }],
            ..DIAGNOSTIC
        },
        (4, 21, 1),
    ),
    // FILE_MISSING, for the label 0: the note comes after it
    (
        "a_missing_file_before_a_note",
        RawDiagnostic {
            notes: &[RawText { bytes: b"\xff" }],
            ..DIAGNOSTIC
        },
        (3, 22, 0),
    ),
];

/// Asserts that a call fails so, and writes nothing.
fn assert_fails(rt: &impl Abort, alloc: Global, call: &FailedCall<'_>) {
    let (name, diagnostic, expected) = call;
    let mut out = [7u8; 4];
    let outcome = emit(alloc, &[], diagnostic, &CONFIG, &mut out);
    let failed = (
        outcome.status,
        outcome.detail.argument,
        outcome.detail.index,
    );
    let is_unwritten = outcome.written == 0 && out == [7, 7, 7, 7];
    assert!(rt; failed == *expected && is_unwritten, "{name}");
}

/// The first argument that is invalid, or names a missing file, is reported, and nothing is
/// written.
#[test]
fn failed_calls(rt: HostRuntime) {
    for call in &FAILED_CALLS {
        assert_fails(&rt, rt.alloc(), call);
    }
}

/// Asserts that the text of a status, whose argument has this number, is this.
fn assert_status_text(rt: &impl Abort, status: u32, argument: u32, text: &str) {
    let mut out = [7u8; 100];
    let mut written = 9;
    assert!(rt; write_status(status, argument, &mut out, &mut written) == 0);
    assert_bytes(rt, first_bytes(&out, written), text);
}

/// Statuses have their texts; a buffer that is a byte too short leads to `TOO_SMALL`, and the
/// length of the text is reported.
#[test]
fn texts_of_statuses(rt: HostRuntime) {
    assert_status_text(&rt, 2, 0, "out of memory");
    assert_status_text(&rt, 4, 17, "the code must be UTF-8");
    let mut written = 0;
    assert!(rt; write_status(2, 0, &mut [0; 12], &mut written) == 1 && written == 13);
}
