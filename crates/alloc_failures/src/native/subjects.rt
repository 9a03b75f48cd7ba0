//! The subjects of `codespan_native`.

use crate::native::{NativeCall, OutputForm};
use crate::subject::{NamedSubject, Subject};

/// The calls of `codespan_native`, by the names of their exports and of the forms of an output.
pub static NATIVE: [NamedSubject; 11] = [
    (
        "codespan_emit",
        Subject::Native(NativeCall::Emit(OutputForm::RichText)),
    ),
    (
        "codespan_emit_safe_text",
        Subject::Native(NativeCall::Emit(OutputForm::SafeText)),
    ),
    (
        "codespan_emit_terminal",
        Subject::Native(NativeCall::Emit(OutputForm::Terminal)),
    ),
    (
        "codespan_emit_ansi",
        Subject::Native(NativeCall::Emit(OutputForm::Ansi)),
    ),
    (
        "codespan_emit_style_marks",
        Subject::Native(NativeCall::Emit(OutputForm::StyleMarks)),
    ),
    (
        "codespan_emit_html",
        Subject::Native(NativeCall::Emit(OutputForm::Html)),
    ),
    (
        "codespan_emit_svg",
        Subject::Native(NativeCall::Emit(OutputForm::Svg)),
    ),
    (
        "codespan_html_styles",
        Subject::Native(NativeCall::HtmlStyles),
    ),
    ("codespan_position", Subject::Native(NativeCall::Position)),
    ("codespan_byte", Subject::Native(NativeCall::Byte)),
    (
        "codespan_apply_edits",
        Subject::Native(NativeCall::ApplyEdits),
    ),
];
