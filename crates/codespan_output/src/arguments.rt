//! Loci, labels and multi-line label marks, as the calls of a `Renderer` take them.

use codespan_core::diagnostic::LabelStyle;
use codespan_core::files::Location;
use std::ops::Range;

/// A file's name and a location in it, as the start of a snippet and a header show them.
///
/// In rich style the location is that of the least byte index at which a primary label of the file
/// starts, or any label of it where none is primary, as in the Rust crate; in short and medium
/// style it is that of the primary label's start.
#[derive(Debug, Drop)]
pub struct Locus {
    /// The name of the file, the text of its `Display`.
    pub name: String,
    /// The line number and the column number, as users see them. Both count from 1 in `SimpleFile`
    /// and `SimpleFiles`.
    pub location: Location,
}

/// A single-line label: its style, its range and its message.
///
/// The range is in bytes from the line's start, the end exclusive. A range without a byte has no
/// caret; the views make it one byte long, as the Rust crate does. An empty message is not
/// rendered.
///
/// ```text
/// 1 │ retries = many
///   │           ^^^^ expected a number
/// ```
pub type SingleLabel<'d> = (LabelStyle, Range<usize>, &'d str);

/// A multi-line label mark: what a multi-line label does on one line.
///
/// Byte indices are from the line's start. The label's message is in its `Bottom`.
#[derive(Clone, Copy, Debug)]
pub enum MultiLabel<'d> {
    /// It starts at this byte index. The caret is under the last cell of the last character that
    /// begins at the index or before it.
    ///
    /// ```text
    /// 1 │   let x = (
    ///   │ ╭─────────^
    /// ```
    ///
    /// Where only white space is before it, its corner is in the source row, and it has no caret.
    ///
    /// ```text
    /// 1 │ ╭ (
    /// ```
    Top(usize),
    /// It covers the whole line.
    ///
    /// ```text
    /// 2 │ │     1 +
    /// ```
    Left,
    /// It ends before this byte index, and this is its message. The caret is under the last cell of
    /// the last character that begins before the index.
    ///
    /// ```text
    /// 3 │ │     2)
    ///   │ ╰──────^ never used
    /// ```
    Bottom(usize, &'d str),
}
