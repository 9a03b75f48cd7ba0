//! The quick start of README.md, and the rows by hand of docs/API.md.

use crate::asserts::{assert_bytes, assert_text};
use codespan_reporting::diagnostic::{Diagnostic, Label, LabelStyle, Severity};
use codespan_reporting::files::{Error, SimpleFiles};
use codespan_reporting::term::{Config, PlainWriter, Renderer, emit_into_string};
use std::alloc::Global;
use std::panic::Expect;

/// Renders the diagnostic of an error in a settings file.
fn render(alloc: Global) -> Result<String, Error> {
    let mut files = SimpleFiles::new(alloc);
    let id = files.add("settings.conf", "retries = many\n")?;
    let label = Label::primary(alloc, id, 10..14).with_message("expected a number")?;
    let diagnostic = Diagnostic::error(alloc)
        .with_code("E0001")?
        .with_message("invalid value for `retries`")?
        .with_label(label)?;

    emit_into_string(&Config::default(), &files, &diagnostic)
}

/// Returns the rows of a line with three labels.
fn rows(alloc: Global) -> Result<Vec<u8>, Error> {
    let config = Config::default();
    let mut plain = PlainWriter::new(Vec::new(alloc));
    let mut renderer = Renderer::new(&mut plain, &config);
    let labels = [
        (
            LabelStyle::Primary,
            11..12,
            "second mutable borrow occurs here",
        ),
        (
            LabelStyle::Secondary,
            4..5,
            "first mutable borrow occurs here",
        ),
        (
            LabelStyle::Secondary,
            6..10,
            "first borrow later used by call",
        ),
    ];
    let line = "    v.push(v.pop().unwrap());";
    renderer.render_snippet_source(1, 3, line, Severity::Error, &labels, 0, &[])?;
    Ok(plain.into_inner())
}

#[test]
fn quick_start(rt: HostRuntime) {
    let text = render(rt.alloc()).expect(&rt, "the output");
    let expected = "error[E0001]: invalid value for `retries`\n  \
                ┌─ settings.conf:1:11\n  \
                │\n\
                1 │ retries = many\n  \
                │           ^^^^ expected a number\n\n";
    assert_text(&rt, text.as_str(), expected);

    let rows = rows(rt.alloc()).expect(&rt, "the rows");
    let expected = "3 │     v.push(v.pop().unwrap());\n\
                \x20 │     - ---- ^ second mutable borrow occurs here\n\
                \x20 │     │ │     \n\
                \x20 │     │ first borrow later used by call\n\
                \x20 │     first mutable borrow occurs here\n";
    assert_bytes(&rt, rows.as_slice(), expected);
}
