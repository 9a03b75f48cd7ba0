//! The characters of the output.

ghost use Rattle.std.specs.Prelude.{◌≡◌, Ok, IsTrue, IfOk, OnErr, IsErrOf};
ghost use Rattle.codespan_core.specs.SnippetStarts.{start_text, is_fixed};

use crate::files::Error;

/// The text before a locus at the start of a snippet.
///
/// `Fixed` needs no allocation, so that [`Chars::box_drawing`] and [`Chars::ascii`] do not fail.
#[derive(Debug, Drop)]
pub enum SnippetStart<'chars> {
    /// A borrowed text.
    Fixed(&'chars str),
    /// An owned text.
    Owned(String),
}

impl<'chars> SnippetStart<'chars> {
    /// Returns the same text, in the same variant.
    ///
    /// # Errors
    ///
    /// [`Error::OutOfMemory`] where an allocation fails; never for [`SnippetStart::Fixed`].
    pub fn clone(&self) -> Result<SnippetStart<'chars>, Error>
        ensures same { IfOk result (λ s. start_text s ≡ start_text self.now) }
        ensures kind { IfOk result (λ s. is_fixed s ≡ is_fixed self.now) }
        ensures fixed { IsTrue (is_fixed self.now) → result ≡ Ok self.now }
        ensures failed { OnErr result (IsErrOf result Error.OutOfMemory) }
    {
        match self {
            SnippetStart::Fixed(text) => Ok(SnippetStart::Fixed(text)),
            SnippetStart::Owned(text) => Ok(SnippetStart::Owned(text.clone()?)),
        }
    }
}

/// The characters of the output. The fields are the Rust crate's.
///
/// Each field's documentation shows its default, that of [`Chars::box_drawing`], and that of
/// [`Chars::ascii`] where it differs. The latter is for terminals that do not show box drawing.
///
/// # Examples
///
/// ```rust
/// let start = SnippetStart::Owned(String::from_str(rt.alloc(), "==>")?);
/// let chars = Chars {
///     snippet_start: start.clone()?,
///     ..Chars::ascii()
/// };
/// ```
#[derive(Debug, Drop)]
pub struct Chars<'chars> {
    /// Before the locus of a snippet: `"┌─"`, in ASCII `"-->"`.
    pub snippet_start: SnippetStart<'chars>,
    /// Left of the source: `'│'`, in ASCII `'|'`.
    pub source_border_left: char,
    /// Left of a break, where lines are left out: `'·'`, in ASCII `'.'`.
    pub source_border_left_break: char,

    /// Before a note: `'='`.
    pub note_bullet: char,

    /// Under each cell of a primary single-line label: `'^'`.
    pub single_primary_caret: char,
    /// Under each cell of a secondary single-line label: `'-'`.
    pub single_secondary_caret: char,

    /// Under the start of a primary multi-line label: `'^'`.
    pub multi_primary_caret_start: char,
    /// Under the end of a primary multi-line label: `'^'`.
    pub multi_primary_caret_end: char,
    /// Under the start of a secondary multi-line label: `'\''`.
    pub multi_secondary_caret_start: char,
    /// Under the end of a secondary multi-line label: `'\''`.
    pub multi_secondary_caret_end: char,
    /// The top corner of a multi-line label: `'╭'`, in ASCII `'/'`.
    pub multi_top_left: char,
    /// The underline from the top corner to the label's start: `'─'`, in ASCII `'-'`.
    pub multi_top: char,
    /// The bottom corner of a multi-line label: `'╰'`, in ASCII `'\'`.
    pub multi_bottom_left: char,
    /// The underline from the bottom corner to the label's end: `'─'`, in ASCII `'-'`.
    pub multi_bottom: char,
    /// The bar of a lane, between its corners: `'│'`, in ASCII `'|'`.
    pub multi_left: char,

    /// The pointer between a caret and a hanging message: `'│'`, in ASCII `'|'`.
    pub pointer_left: char,
}

impl<'chars> Default for Chars<'chars> {
    ghost use Rattle.codespan_core.specs.ConfigEquality.{IsEqualChars};
    ghost use Rattle.codespan_core.specs.Characters.{box_drawing};

    ghost is_default = { IsEqualChars box_drawing };

    fn default() -> Chars<'chars>
        ensures equal { IsEqualChars box_drawing result }
        ensures fixed { IsTrue (is_fixed result.snippet_start) }
    {
        Chars::box_drawing()
    }
}

impl<'chars> Chars<'chars> {
    ghost use Rattle.codespan_core.specs.ConfigEquality.{IsEqualChars};
    ghost use Rattle.codespan_core.specs.Characters.{box_drawing, ascii};

    /// Returns the characters of box drawing, which are the default. The text before a locus is
    /// [`SnippetStart::Fixed`].
    pub fn box_drawing() -> Chars<'chars>
        ensures equal { IsEqualChars box_drawing result }
        ensures fixed { IsTrue (is_fixed result.snippet_start) }
    {
        Chars {
            snippet_start: SnippetStart::Fixed("┌─"),
            source_border_left: '│',
            source_border_left_break: '·',
            note_bullet: '=',
            single_primary_caret: '^',
            single_secondary_caret: '-',
            multi_primary_caret_start: '^',
            multi_primary_caret_end: '^',
            multi_secondary_caret_start: '\'',
            multi_secondary_caret_end: '\'',
            multi_top_left: '╭',
            multi_top: '─',
            multi_bottom_left: '╰',
            multi_bottom: '─',
            multi_left: '│',
            pointer_left: '│',
        }
    }

    /// Returns characters of ASCII alone. The text before a locus is [`SnippetStart::Fixed`].
    pub fn ascii() -> Chars<'chars>
        ensures equal { IsEqualChars ascii result }
        ensures fixed { IsTrue (is_fixed result.snippet_start) }
    {
        Chars {
            snippet_start: SnippetStart::Fixed("-->"),
            source_border_left: '|',
            source_border_left_break: '.',
            note_bullet: '=',
            single_primary_caret: '^',
            single_secondary_caret: '-',
            multi_primary_caret_start: '^',
            multi_primary_caret_end: '^',
            multi_secondary_caret_start: '\'',
            multi_secondary_caret_end: '\'',
            multi_top_left: '/',
            multi_top: '-',
            multi_bottom_left: '\\',
            multi_bottom: '-',
            multi_left: '|',
            pointer_left: '|',
        }
    }

    /// Returns equal characters.
    ///
    /// # Errors
    ///
    /// [`Error::OutOfMemory`] where an allocation fails; never where the text before a locus is
    /// [`SnippetStart::Fixed`].
    pub fn clone(&self) -> Result<Chars<'chars>, Error>
        ensures same { IfOk result (IsEqualChars self.now) }
        ensures kind { IfOk result (λ c.
            is_fixed c.snippet_start ≡ is_fixed self.now.snippet_start) }
        ensures fixed { IsTrue (is_fixed self.now.snippet_start) → result ≡ Ok self.now }
        ensures failed { OnErr result (IsErrOf result Error.OutOfMemory) }
    {
        Ok(Chars {
            snippet_start: self.snippet_start.clone()?,
            ..*self
        })
    }
}
