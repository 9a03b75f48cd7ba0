//! The call of `codespan_native` that renders, and the one that writes the style sheet.
//!
//! In all forms but one the output is that of `documents`, in short style, where its texts are
//! explained. Style marks are by the numbers of the header.

use crate::documents::{CSS, HTML, SVG, TERMINAL};
use crate::native::judge_bytes;
use crate::outcome::Outcome;
use codespan_native::emit::emit;
use codespan_native::raw::{
    RawChars, RawColorSpec, RawConfig, RawDiagnostic, RawFile, RawLabel, RawStyles, RawText,
};
use codespan_native::style_sheet::write_style_sheet;
use std::alloc::Global;

/// The form of an output, with its colors.
#[derive(Clone, Copy)]
pub enum OutputForm {
    /// Text of an output in rich style.
    RichText,
    /// Safe text.
    SafeText,
    /// Safe text in the default styles.
    Terminal,
    /// Text in the default styles.
    Ansi,
    /// Text with style marks.
    StyleMarks,
    /// An HTML element.
    Html,
    /// An SVG document.
    Svg,
}

/// The output of the diagnostic in rich style, in ASCII.
const RICH_TEXT: &str =
    "error[E1]: bad\n  --> f.txt:1:1\n  |\n1 | abc\n  | ^^^ here\n  |\n  = a note\n\n";

/// The output of the short diagnostic as safe text.
const SAFE_TEXT: &str = "f&g:2:1: error: bd\n";

/// Its text in the default styles.
const ANSI: &str = "f&g:2:1: \x1b[0m\x1b[1m\x1b[38;5;9merror\x1b[0m\x1b[1m: b\x07d\x1b[0m\n";

/// Its text with style marks: the header of an error, the message of a header, and the reset.
const STYLE_MARKS: &[u8] = b"f&g:2:1: \xff\x83error\xff\x85: b\x07d\xff\x93\n";

/// The file.
static FILES: [RawFile<'static>; 1] = [RawFile {
    name: b"f.txt",
    source: b"abc\n",
    first_byte: 0,
    first_line: 0,
    lines: &[],
    locations: &[],
    reserved: [0; 2],
}];

/// The diagnostic.
static DIAGNOSTIC: RawDiagnostic<'static> = RawDiagnostic {
    severity: 3,
    code: b"E1",
    message: b"bad",
    labels: &[RawLabel {
        style: 0,
        file: 0,
        start: 0,
        end: 3,
        message: b"here",
        reserved: [0; 2],
    }],
    notes: &[RawText { bytes: b"a note" }],
    reserved: [0; 4],
};

/// The file of the short diagnostic.
static SHORT_FILES: [RawFile<'static>; 1] = [RawFile {
    name: b"f&g",
    source: b"a\n\xf0\x90\x90\x80b\n",
    first_byte: 0,
    first_line: 0,
    lines: &[],
    locations: &[],
    reserved: [0; 2],
}];

/// The short diagnostic.
static SHORT_DIAGNOSTIC: RawDiagnostic<'static> = RawDiagnostic {
    severity: 3,
    code: b"",
    message: b"b\x07d",
    labels: &[RawLabel {
        style: 0,
        file: 0,
        start: 2,
        end: 6,
        message: b"",
        reserved: [0; 2],
    }],
    notes: &[],
    reserved: [0; 4],
};

/// The default configuration, in ASCII, as text without colors.
const CONFIG: RawConfig<'static> = RawConfig {
    abi: 2,
    display_style: 0,
    layout: 0,
    form: 1,
    color_mode: 0,
    characters: 1,
    tab_width: 4,
    start_context_lines: 3,
    end_context_lines: 1,
    before_label_lines: 0,
    after_label_lines: 0,
    chars: NO_CHARS,
    styles: NO_STYLES,
    max_width: 0,
    reserved: [0; 7],
};

/// Characters that are not used.
const NO_CHARS: RawChars<'static> = RawChars {
    snippet_start: b"",
    source_border_left: 0,
    source_border_left_break: 0,
    note_bullet: 0,
    single_primary_caret: 0,
    single_secondary_caret: 0,
    multi_primary_caret_start: 0,
    multi_primary_caret_end: 0,
    multi_secondary_caret_start: 0,
    multi_secondary_caret_end: 0,
    multi_top_left: 0,
    multi_top: 0,
    multi_bottom_left: 0,
    multi_bottom: 0,
    multi_left: 0,
    pointer_left: 0,
};

/// Styles that are not used.
const NO_STYLES: RawStyles = RawStyles {
    header_bug: NO_COLOR,
    header_error: NO_COLOR,
    header_warning: NO_COLOR,
    header_note: NO_COLOR,
    header_help: NO_COLOR,
    header_message: NO_COLOR,
    primary_label_bug: NO_COLOR,
    primary_label_error: NO_COLOR,
    primary_label_warning: NO_COLOR,
    primary_label_note: NO_COLOR,
    primary_label_help: NO_COLOR,
    secondary_label: NO_COLOR,
    line_number: NO_COLOR,
    source_border: NO_COLOR,
    note_bullet: NO_COLOR,
};

/// A style without a color.
const NO_COLOR: RawColorSpec = RawColorSpec {
    fg: 0,
    bg: 0,
    bold: 0,
    intense: 0,
};

/// Makes the call that renders in a form, and judges it.
pub fn judge_output(alloc: Global, form: OutputForm) -> Outcome {
    match form {
        OutputForm::RichText => judge_rich(alloc),
        OutputForm::SafeText => judge_short(alloc, 0, 0, SAFE_TEXT.as_bytes()),
        OutputForm::Terminal => judge_short(alloc, 0, 1, TERMINAL.as_bytes()),
        OutputForm::Ansi => judge_short(alloc, 1, 1, ANSI.as_bytes()),
        OutputForm::StyleMarks => judge_short(alloc, 2, 0, STYLE_MARKS),
        OutputForm::Html => judge_short(alloc, 3, 0, HTML.as_bytes()),
        OutputForm::Svg => judge_short(alloc, 4, 1, SVG.as_bytes()),
    }
}

/// Renders the diagnostic in rich style, and judges the call.
fn judge_rich(alloc: Global) -> Outcome {
    let mut out = [b'.'; 128];
    let outcome = emit(alloc, &FILES, &DIAGNOSTIC, &CONFIG, &mut out);
    judge_bytes(outcome.status, outcome.written, &out, RICH_TEXT.as_bytes())
}

/// Renders the short diagnostic in the form and the color mode of these numbers, and judges the
/// call.
fn judge_short(alloc: Global, form: u32, color_mode: u32, expected: &[u8]) -> Outcome {
    let config = RawConfig {
        display_style: 2,
        form,
        color_mode,
        ..CONFIG
    };
    let mut out = [b'.'; 1024];
    let outcome = emit(alloc, &SHORT_FILES, &SHORT_DIAGNOSTIC, &config, &mut out);
    judge_bytes(outcome.status, outcome.written, &out, expected)
}

/// Makes the call that writes the style sheet of no colors, and judges it.
pub fn judge_style_sheet(alloc: Global) -> Outcome {
    let mut out = [b'.'; 1024];
    let mut written = 0;
    let status = write_style_sheet(alloc, &NO_STYLES, &mut out, &mut written);
    judge_bytes(status, written, &out, CSS.as_bytes())
}
