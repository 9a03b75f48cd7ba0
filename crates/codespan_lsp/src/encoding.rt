//! The encodings in which positions count, and the code units of texts.

ghost use Rattle.std.specs.Prelude.{◌≡◌, ◌≤◌, length, encode_utf8_all};
ghost use Rattle.std.specs.Str.{chars};
ghost use Rattle.codespan_lsp.specs.Units.{char_units, code_units, total_units, prefix_within};

/// What a position counts: the code units of an encoding, as client and server agree on it.
///
/// # Examples
///
/// ```rust
/// for (encoding, units) in [
///     (PositionEncoding::Utf8, 6),
///     (PositionEncoding::Utf16, 4),
///     (PositionEncoding::Utf32, 3),
/// ] {
///     assert_eq!(rt; encoding.code_units("a𐐀b"), units);
/// }
/// ```
#[derive(Clone, Copy, Debug, PartialEq, Eq)]
pub enum PositionEncoding {
    /// Counts bytes. The protocol names it `utf-8`.
    Utf8,
    /// Counts UTF-16 code units: two for a character from U+10000 on, and one for any other. The
    /// protocol names it `utf-16`; it is the default.
    Utf16,
    /// Counts characters. The protocol names it `utf-32`.
    Utf32,
}

/// The length of a text's prefix.
#[derive(Clone, Copy)]
pub(crate) struct Prefix {
    /// The length in bytes.
    pub len: usize,
    /// The length in code units.
    pub units: usize,
}

impl PositionEncoding {
    /// Returns the number of code units of a text.
    pub fn code_units(self, text: &str) -> usize
        ensures value { result ≡ code_units self text.now }
        ensures bound { result ≤ length text.now }
    {
        let mut units = 0;
        for c in text.chars() {
            units += self.char_units(c);
        }
        units
    }

    /// Returns the length of the longest prefix of whole characters that has at most `max_units`
    /// code units.
    pub(crate) fn prefix_within(self, max_units: usize, text: &str) -> Prefix
        ensures len { let prefix = prefix_within self max_units (chars text.now) in
            result.len ≡ length (encode_utf8_all prefix) }
        ensures units { let prefix = prefix_within self max_units (chars text.now) in
            result.units ≡ total_units self prefix }
        ensures bound { result.len ≤ length text.now }
    {
        let mut len = 0;
        let mut units = 0;
        for c in text.chars() {
            let more = self.char_units(c);
            if more > max_units - units {
                return Prefix { len, units };
            }
            units += more;
            len += c.len_utf8();
        }
        Prefix { len, units }
    }

    /// Returns the number of code units of a character.
    fn char_units(self, c: char) -> usize
        ensures { result ≡ char_units self c }
    {
        match self {
            PositionEncoding::Utf8 => c.len_utf8(),
            PositionEncoding::Utf16 => c.len_utf16(),
            PositionEncoding::Utf32 => 1,
        }
    }
}
