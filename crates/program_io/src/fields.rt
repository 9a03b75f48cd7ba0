//! The fields of a line.

ghost use Rattle.std.specs.Prelude.{◌≡◌, ◌≤◌, length};
ghost use Rattle.program_io.specs.Fields.{field_of, past_space, is_ignored_text};

/// Splits a text at its first space, which is in neither part. Without a space the first part is
/// the whole text, and the second is empty.
pub fn split_field(text: &str) -> (&str, &str)
    ensures before { result.0.now ≡ field_of text.now }
    ensures after { result.1.now ≡ past_space text.now }
    ensures before_short { length result.0.now ≤ length text.now }
    ensures after_short { length result.1.now ≤ length text.now }
{
    match text.split_once(' ') {
        Some((before, after)) => (before, after),
        None => (text, ""),
    }
}

/// Returns whether a line is ignored: it is empty or begins with `#`.
pub fn is_ignored(line: &str) -> bool
    ensures { result ≡ is_ignored_text line.now }
{
    line.is_empty() || line.starts_with('#')
}
