//! Texts with escapes.
//!
//! | escape | stands for |
//! |---|---|
//! | `\n` | the newline |
//! | `\r` | the carriage return |
//! | `\t` | the tab |
//! | `\0` | the null character |
//! | `\\` | the backslash |
//! | `\u{HEX}` | the character U+HEX; HEX is hexadecimal digits, which may follow a plus sign |

ghost use Rattle.std.specs.Prelude.{◌≡◌, ◌≤◌, ◌<◌, length, drop, IfOk, IfSome};
ghost use Rattle.std.specs.Prelude.{string_bytes};
ghost use Rattle.std.specs.Option.{option_map};
ghost use Rattle.std.specs.Result.{result_ok, result_err};
ghost use Rattle.program_io.specs.Escapes.{unescaped, escape_of, braced_character, hex_character};
ghost use Rattle.program_io.specs.Escapes.{past_escape};

use std::alloc::{AllocError, Global};

/// Returns what follows the first backslash of a text that does not begin an escape, or `None` if
/// each backslash begins one or belongs to one.
pub fn after_bad_escape(text: &str) -> Option<&str>
    ensures after { option_map (λ after. after.now) result ≡ result_err (unescaped text.now) }
    ensures shorter { IfSome result (λ after. length after.now < length text.now) }
{
    let mut rest = text;
    'escapes: while let Some((_, escape)) = rest.split_once('\\') {
        let Some((_, left)) = parse_escape(escape) else {
            return Some(escape);
        };
        rest = left;
    }
    None
}

/// Returns the text that an escaped one stands for, or `None` if a backslash does not begin an
/// escape.
///
/// # Errors
///
/// `AllocError` if an allocation fails.
pub fn unescape(alloc: Global, text: &str) -> Result<Option<String>, AllocError>
    ensures { IfOk result (λ o. option_map string_bytes o ≡ result_ok (unescaped text.now)) }
{
    let mut plain_text = String::new(alloc);
    let mut rest = text;
    'escapes: while let Some((plain, escape)) = rest.split_once('\\') {
        plain_text.push_str(plain)?;
        let Some((character, left)) = parse_escape(escape) else {
            return Ok(None);
        };
        plain_text.push(character)?;
        rest = left;
    }
    plain_text.push_str(rest)?;
    Ok(Some(plain_text))
}

/// Parses the escape with which a text begins after its backslash, and returns its character and
/// what follows it.
fn parse_escape(text: &str) -> Option<(char, &str)>
    ensures parsed { option_map (λ parsed. (parsed.0, parsed.1.now)) result
        ≡ past_escape text.now (escape_of text.now) }
    ensures shorter { IfSome result (λ parsed. length parsed.1.now < length text.now) }
{
    let mut characters = text.chars();
    let letter = characters.next()?;
    let left = characters.as_str();
    match letter {
        'n' => Some(('\n', left)),
        'r' => Some(('\r', left)),
        't' => Some(('\t', left)),
        '0' => Some(('\0', left)),
        '\\' => Some(('\\', left)),
        'u' => parse_braced_character(left),
        _ => None,
    }
}

/// Parses the number in braces with which a text begins, and returns its character and what follows
/// it.
fn parse_braced_character(text: &str) -> Option<(char, &str)>
    ensures parsed { option_map (λ parsed. (parsed.0, parsed.1.now)) result
        ≡ past_escape text.now (braced_character text.now) }
    ensures shorter { IfSome result (λ parsed. length parsed.1.now ≤ length text.now) }
{
    let braced = text.strip_prefix('{')?;
    let (digits, left) = braced.split_once('}')?;
    Some((parse_hex_character(digits)?, left))
}

/// Returns the character with this number in hexadecimal digits, if there is one.
fn parse_hex_character(digits: &str) -> Option<char>
    ensures { result ≡ hex_character digits.now }
{
    match u32::from_str_radix(digits, 16) {
        Ok(number) => char::from_u32(number),
        Err(_) => None,
    }
}
