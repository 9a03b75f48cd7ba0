//! A call in each form, with and without colors, over a message that is not safe to print.

use crate::native::calls::{CONFIG, DIAGNOSTIC, first_bytes};
use codespan_native::emit::emit;
use codespan_native::raw::{RawConfig, RawDiagnostic};
use std::alloc::Global;
use std::process::Abort;

/// A configuration, and the output.
type Form<'form> = (RawConfig<'form>, &'form [u8]);

/// A diagnostic with a message that is not safe to print.
static UNSAFE: RawDiagnostic<'static> = RawDiagnostic {
    message: b"a\x1b<b",
    labels: &[],
    ..DIAGNOSTIC
};

/// The forms.
static FORMS: [Form<'static>; 9] = [
    (
        RawConfig {
            form: 0,
            color_mode: 0,
            ..CONFIG
        },
        b"help: a<b\n\n",
    ),
    (
        RawConfig {
            form: 0,
            color_mode: 1,
            ..CONFIG
        },
        b"\x1b[0m\x1b[1m\x1b[38;5;14mhelp\x1b[0m\x1b[1m: a<b\x1b[0m\n\n",
    ),
    (
        RawConfig {
            form: 0,
            color_mode: 2,
            ..CONFIG
        },
        b"\x1b[0mhelp\x1b[0m: a<b\x1b[0m\n\n",
    ),
    (
        RawConfig {
            form: 1,
            color_mode: 0,
            ..CONFIG
        },
        b"help: a\x1b<b\n\n",
    ),
    (
        RawConfig {
            form: 1,
            color_mode: 1,
            ..CONFIG
        },
        b"\x1b[0m\x1b[1m\x1b[38;5;14mhelp\x1b[0m\x1b[1m: a\x1b<b\x1b[0m\n\n",
    ),
    (
        RawConfig {
            form: 1,
            color_mode: 2,
            ..CONFIG
        },
        b"\x1b[0mhelp\x1b[0m: a\x1b<b\x1b[0m\n\n",
    ),
    (
        RawConfig {
            form: 2,
            color_mode: 0,
            ..CONFIG
        },
        b"\xff\x80help\xff\x85: a\x1b<b\xff\x93\n\n",
    ),
    (
        RawConfig {
            form: 3,
            color_mode: 0,
            ..CONFIG
        },
        b"<pre class=\"diagnostic\">\n<span class=\"header-help\">help</span>\
        <span class=\"header-message\">: a&lt;b</span>\n\n</pre>",
    ),
    (
        RawConfig {
            form: 4,
            color_mode: 0,
            ..CONFIG
        },
        b"<svg xmlns=\"http://www.w3.org/2000/svg\" width=\"105\" height=\"60\" \
        viewBox=\"0 0 105 60\" font-family=\"DejaVu Sans Mono, Menlo, Consolas, monospace\" \
        font-size=\"15\" fill=\"#e6edf3\">\n\
        <rect width=\"100%\" height=\"100%\" rx=\"6\" fill=\"#161b22\"/>\n\
        <text x=\"12\" y=\"25\" textLength=\"36\" fill=\"#56d4dd\" font-weight=\"bold\">help\
        </text><text x=\"48\" y=\"25\" textLength=\"9\" font-weight=\"bold\">:</text> \
        <text x=\"66\" y=\"25\" textLength=\"27\" font-weight=\"bold\">a&lt;b</text>\n\n</svg>\n",
    ),
];

/// Asserts the output of a call in a form.
fn assert_form(rt: &impl Abort, alloc: Global, form: &Form<'_>) {
    let (config, output) = form;
    let mut out = [0u8; 1024];
    let outcome = emit(alloc, &[], &UNSAFE, config, &mut out);
    let is_output = first_bytes(&out, outcome.written) == *output;
    assert!(rt; outcome.status == 0 && is_output, "form {}", config.form);
}

/// A call returns the output in the form that its configuration names.
#[test]
fn forms(rt: HostRuntime) {
    for form in &FORMS {
        assert_form(&rt, rt.alloc(), form);
    }
}
