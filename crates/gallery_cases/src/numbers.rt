//! The numbers in the fields of a line.

ghost use Rattle.std.specs.Prelude.{◌≡◌, IfOk, IfErr};
ghost use Rattle.std.specs.Str.Parse.{ParsesUnsigned};
ghost use Rattle.program_io.specs.Fields.{field_of, past_space};
ghost use Rattle.gallery_cases.specs.Numbers.{IsNumber, IsBadNumber};
ghost use Rattle.gallery_cases.specs.declared.errors.LineError.TheVariants.{BadNumber};

use crate::errors::LineError;
use program_io::fields::split_field;

/// Parses a number of decimal digits, which may follow a plus sign.
///
/// # Errors
///
/// `BadNumber` if the text is not a number, or does not fit a `usize`.
pub fn parse_number(text: &str) -> Result<usize, LineError>
    ensures value { ParsesUnsigned 64 10 text.now result }
    ensures failed { IfErr result (λ line_error. line_error ≡ BadNumber) }
{
    match text.parse() {
        Ok(number) => Ok(number),
        Err(_) => Err(LineError::BadNumber),
    }
}

/// Parses the number before the first space of a text, and returns it and what follows that space.
///
/// # Errors
///
/// `BadNumber` if what precedes the space is not a number, or does not fit a `usize`.
pub fn split_number(text: &str) -> Result<(usize, &str), LineError>
    ensures number { IfOk result (λ split. IsNumber (field_of text.now) split.0) }
    ensures left { IfOk result (λ split. split.1.now ≡ past_space text.now) }
    ensures failed { IfErr result (λ line_error. (line_error ≡ BadNumber)
        × IsBadNumber (field_of text.now)) }
{
    let (number, left) = split_field(text);
    Ok((parse_number(number)?, left))
}
