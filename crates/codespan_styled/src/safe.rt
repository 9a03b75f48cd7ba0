//! Which characters are shown: one rule for text on a terminal, HTML and SVG.

ghost use Rattle.std.specs.Prelude.{◌≡◌, ◌++◌, IfOk, OnOk, string_bytes};
ghost use Rattle.codespan_styled.specs.SafeText.{is_directional_control, is_invisible, is_left_out};
ghost use Rattle.codespan_styled.specs.SafeText.{is_noncharacter, is_replaced, is_safe};
ghost use Rattle.codespan_styled.specs.SafeText.{is_separator, is_unsafe_control, safe_text};
ghost use Rattle.codespan_styled.specs.SafeText.{shown_character};

use std::alloc::{AllocError, Global};

/// Returns what is shown for a text: the text without the characters that are left out, and with
/// U+FFFD for each that is replaced. See [`is_safe`].
///
/// # Errors
///
/// [`AllocError`]: an allocation fails.
pub fn safe_text(alloc: Global, text: &str) -> Result<String, AllocError>
    ensures { IfOk result (λ safe. string_bytes safe ≡ safe_text text.now) }
{
    let mut safe = String::new(alloc);
    push_safe(&mut safe, text)?;
    Ok(safe)
}

/// Returns whether a character is shown as itself, on a terminal, in HTML and in SVG.
///
/// All characters are but these, of which the first three kinds are left out, since they take no
/// cell, and the others, which take one, are shown as U+FFFD:
///
/// - control characters (C0, U+007F and C1) other than tab and newline;
/// - directional controls, those of Unicode's property `Bidi_Control`: U+061C, U+200E to U+200F,
///   U+202A to U+202E and U+2066 to U+2069;
/// - U+00AD, U+200D, U+3164, U+FEFF and U+FFA0, which terminals show in some cells, or use to show
///   two characters as one;
/// - noncharacters, U+FDD0 to U+FDEF and the last two of each plane;
/// - U+2028, U+2029 and U+FFF9 to U+FFFB, which terminals show in no cell.
///
/// # Example
///
/// ```rust
/// assert!(rt; is_safe('é') && is_safe('\t'));
/// assert!(rt; !is_safe('\x1b') && !is_safe('\u{202e}'));
/// ```
pub fn is_safe(c: char) -> bool
    ensures { result ≡ is_safe c }
{
    !(is_left_out(c) || is_replaced(c))
}

/// Returns the character that is shown for a character, or `None` where it is left out.
pub(crate) fn shown_character(c: char) -> Option<char>
    ensures { result ≡ shown_character c }
{
    if is_left_out(c) {
        None
    } else if is_replaced(c) {
        Some(char::REPLACEMENT_CHARACTER)
    } else {
        Some(c)
    }
}

/// Appends what is shown for a text.
pub(crate) fn push_safe(safe: &mut String, text: &str) -> Result<(), AllocError>
    ensures { OnOk result (string_bytes safe.new ≡ string_bytes safe.old ++ safe_text text.now) }
{
    for c in text.chars() {
        if let Some(shown) = shown_character(c) {
            safe.push(shown)?;
        }
    }
    Ok(())
}

/// Returns whether a character is left out.
fn is_left_out(c: char) -> bool
    ensures { result ≡ is_left_out c }
{
    is_unsafe_control(c) || is_directional_control(c) || is_invisible(c)
}

/// Returns whether a character is a control character other than tab and newline.
fn is_unsafe_control(c: char) -> bool
    ensures { result ≡ is_unsafe_control c }
{
    matches!(c, '\0'..='\x08' | '\x0b'..='\x1f' | '\x7f'..='\u{9f}')
}

/// Returns whether a character is a directional control, one of Unicode's property `Bidi_Control`.
fn is_directional_control(c: char) -> bool
    ensures { result ≡ is_directional_control c }
{
    matches!(
        c,
        '\u{61c}' | '\u{200e}'..='\u{200f}' | '\u{202a}'..='\u{202e}' | '\u{2066}'..='\u{2069}'
    )
}

/// Returns whether a character is one of those that take no cell, and that others show in some, or
/// use to show two characters as one.
fn is_invisible(c: char) -> bool
    ensures { result ≡ is_invisible c }
{
    matches!(
        c,
        '\u{ad}' | '\u{200d}' | '\u{3164}' | '\u{feff}' | '\u{ffa0}'
    )
}

/// Returns whether a character is replaced.
fn is_replaced(c: char) -> bool
    ensures { result ≡ is_replaced c }
{
    is_noncharacter(c) || is_separator(c)
}

/// Returns whether a character is a noncharacter: U+FDD0 to U+FDEF, and the last two of each plane.
fn is_noncharacter(c: char) -> bool
    ensures { result ≡ is_noncharacter c }
{
    matches!(c, '\u{fdd0}'..='\u{fdef}') || c as u32 % 0x1_0000 >= 0xfffe
}

/// Returns whether a character is one of those that take one cell, and that others show in none.
fn is_separator(c: char) -> bool
    ensures { result ≡ is_separator c }
{
    matches!(c, '\u{2028}'..='\u{2029}' | '\u{fff9}'..='\u{fffb}')
}
