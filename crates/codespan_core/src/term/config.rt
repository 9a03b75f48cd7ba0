//! The configuration of the output, the writers of plain text, and the traits and functions by
//! which rows are written.

ghost use Rattle.std.specs.Prelude.{◌≡◌, Ok, IsTrue, IfOk, OnErr, IsErrOf};
ghost use Rattle.codespan_core.specs.SnippetStarts.{is_fixed};
ghost use Rattle.codespan_core.specs.ConfigEquality.{IsEqualConfig};
ghost use Rattle.codespan_core.specs.Defaults.{default_config};

pub mod chars;
pub mod plain;
pub mod plain_ref;
pub mod put_style;
pub mod style_mark;
pub mod write_style;
pub mod writing;

use crate::files::Error;
use crate::term::config::chars::Chars;

/// The configuration of the output. `'chars` is the lifetime of the text before a locus, where that
/// text is borrowed.
///
/// The fields and their defaults are the Rust crate's, but for `layout` and `max_width`. All
/// numbers of lines are minima, as there: other labels may show more.
///
/// # Examples
///
/// ```rust
/// for display_style in [DisplayStyle::Medium, DisplayStyle::Short] {
///     let config = Config {
///         display_style,
///         ..Config::default()
///     };
///     emit_to_io_write(&mut stdout, &config, &files, &diagnostic)?;
/// }
/// ```
#[derive(Debug, Drop)]
pub struct Config<'chars> {
    /// How much of a diagnostic is rendered. By default [`DisplayStyle::Rich`].
    pub display_style: DisplayStyle,
    /// The distance between tab stops, in cells of the terminal. Where it is 0, a tab occupies no
    /// cell. By default 4.
    pub tab_width: usize,
    /// The characters of the output. By default [`Chars::box_drawing`].
    pub chars: Chars<'chars>,
    /// How many lines are shown after the first line of a multi-line label, where it has so many.
    /// By default 3.
    pub start_context_lines: usize,
    /// How many lines are shown before the last line of a multi-line label, where it has so many.
    /// By default 1.
    pub end_context_lines: usize,
    /// How many lines are shown before a label's first line, where the file has so many. By default
    /// 0.
    pub before_label_lines: usize,
    /// How many lines are shown after a label's last line, where the file has so many. By default
    /// 0.
    pub after_label_lines: usize,
    /// The padding width and the lanes. By default [`Layout::Classic`], the Rust crate's.
    pub layout: Layout,
    /// The greatest width of a line of the source and of its carets, in cells of the terminal, with
    /// the gutter. A line that is wider is shortened: `...` stands for text that is left out, and
    /// the
    /// carets stay under the characters of their labels. Where it is too small for the first and
    /// last characters of the labels, these are shown all the same. Messages and all other rows are
    /// whole. By default `None`: all lines are whole.
    pub max_width: Option<usize>,
}

impl<'chars> Config<'chars> {
    /// Returns an equal configuration.
    ///
    /// # Errors
    ///
    /// [`Error::OutOfMemory`] where an allocation fails; never where the text before a locus is
    /// [`SnippetStart::Fixed`](chars::SnippetStart::Fixed).
    pub fn clone(&self) -> Result<Config<'chars>, Error>
        ensures same { IfOk result (IsEqualConfig self.now) }
        ensures kind { IfOk result (λ c.
            is_fixed c.chars.snippet_start ≡ is_fixed self.now.chars.snippet_start) }
        ensures fixed { IsTrue (is_fixed self.now.chars.snippet_start) → result ≡ Ok self.now }
        ensures failed { OnErr result (IsErrOf result Error.OutOfMemory) }
    {
        Ok(Config {
            chars: self.chars.clone()?,
            ..*self
        })
    }
}

impl<'chars> Default for Config<'chars> {
    ghost is_default = { IsEqualConfig default_config };

    fn default() -> Config<'chars>
        ensures equal { IsEqualConfig default_config result }
        ensures fixed { IsTrue (is_fixed result.chars.snippet_start) }
    {
        Config {
            display_style: DisplayStyle::Rich,
            tab_width: 4,
            chars: Chars::box_drawing(),
            start_context_lines: 3,
            end_context_lines: 1,
            before_label_lines: 0,
            after_label_lines: 0,
            layout: Layout::Classic,
            max_width: None,
        }
    }
}

/// How much of a diagnostic is rendered. The styles are the Rust crate's.
#[derive(Clone, Copy, Debug, PartialEq, Eq)]
pub enum DisplayStyle {
    /// The header, the source with its labels, and the notes.
    ///
    /// ```text
    /// error[E0001]: unexpected type in `+` application
    ///   ┌─ test:2:9
    ///   │
    /// 2 │ (+ test "")
    ///   │         ^^ expected `Int` but found `String`
    ///   │
    ///   = expected type `Int`
    ///        found type `String`
    ///
    /// ```
    Rich,
    /// A header for each primary label, with its locus, and then the notes. Without primary labels
    /// there is one header without a locus.
    ///
    /// ```text
    /// test:2:9: error[E0001]: unexpected type in `+` application
    ///  = expected type `Int`
    ///       found type `String`
    /// ```
    Medium,
    /// The headers of medium style, without notes.
    ///
    /// ```text
    /// test:2:9: error[E0001]: unexpected type in `+` application
    /// ```
    Short,
}

/// Which line numbers the padding width fits, and how the lanes of multi-line labels are rendered.
#[derive(Clone, Copy, Debug, PartialEq, Eq)]
pub enum Layout {
    /// The Rust crate's layout. The padding width fits the numbers of the lines from the start to
    /// the end of each label. Where the top corner of a lane is in a source row, the lane is left
    /// out in the caret, pointer and hanging rows of that line, and in the underline rows of the
    /// lanes left of it.
    Classic,
    /// This project's own layout: the padding width fits the numbers of all drawn lines, and each
    /// lane is one line from corner to corner.
    Unbroken,
}
