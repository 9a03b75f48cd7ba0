//! Texts as they are inside a string literal of C.

ghost use Rattle.std.specs.Prelude.{◌≡◌, ◌++◌, ◌+◌, ◌<◌, ◌∷◌, [], OnOk};
ghost use Rattle.std.specs.Prelude.{string_bytes};
ghost use Rattle.codespan_suggestions.specs.Escapes.{octal_escape, escaped_byte, escaped, quoted};

use std::alloc::AllocError;

/// Appends a text between quotation marks.
pub(crate) fn push_quoted(output: &mut String, text: &str) -> Result<(), AllocError>
    ensures { OnOk result (string_bytes output.new ≡ string_bytes output.old ++ quoted text.now) }
{
    output.push('"')?;
    push_escaped(output, text)?;
    output.push('"')
}

/// Appends a text: a backslash and a quotation mark after a backslash, a tab as `\t`, a newline as
/// `\n`, and any other byte that is no printable ASCII character as a backslash and three octal
/// digits.
pub(crate) fn push_escaped(output: &mut String, text: &str) -> Result<(), AllocError>
    ensures { OnOk result (string_bytes output.new ≡ string_bytes output.old ++ escaped text.now) }
{
    for byte in text.as_bytes() {
        push_escaped_byte(output, *byte)?;
    }
    Ok(())
}

/// Appends a byte of a text.
fn push_escaped_byte(output: &mut String, byte: u8) -> Result<(), AllocError>
    ensures { OnOk result (string_bytes output.new
        ≡ string_bytes output.old ++ escaped_byte byte) }
{
    match byte {
        b'\\' => output.push_str("\\\\"),
        b'"' => output.push_str("\\\""),
        b'\t' => output.push_str("\\t"),
        b'\n' => output.push_str("\\n"),
        32..=126 => output.push(byte as char),
        _ => push_octal(output, byte),
    }
}

/// Appends a byte as a backslash and three octal digits.
fn push_octal(output: &mut String, byte: u8) -> Result<(), AllocError>
    ensures { OnOk result (string_bytes output.new
        ≡ string_bytes output.old ++ octal_escape byte) }
{
    output.push('\\')?;
    push_octal_digit(output, byte / 64)?;
    push_octal_digit(output, byte / 8 % 8)?;
    push_octal_digit(output, byte % 8)
}

/// Appends an octal digit.
fn push_octal_digit(output: &mut String, digit: u8) -> Result<(), AllocError>
    requires { digit < 8 }
    ensures { OnOk result (string_bytes output.new
        ≡ string_bytes output.old ++ (48 + digit) ∷ []) }
{
    output.push((b'0' + digit) as char)
}
