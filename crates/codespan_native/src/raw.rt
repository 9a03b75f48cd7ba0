//! The structs that cross from C, field by field those of `native/include/codespan.h`.
//!
//! Numbers stand for enumerations and bytes for texts, so any value can be passed;
//! [`crate::validate`] finds the invalid ones.

/// The ABI version, which fixes the layouts of these structs.
pub const ABI: u32 = 2;

/// The greatest tab width, in cells: a greater one is taken as this one.
pub const TAB_WIDTH_MAX: usize = 1024;

/// A text, in UTF-8.
#[derive(Drop)]
#[repr(C)]
pub struct RawText<'a> {
    /// Its bytes.
    pub bytes: &'a [u8],
}

/// A line of a file, as the caller states it.
#[derive(Drop)]
#[repr(C)]
pub struct RawLine {
    /// Byte index in the file, from 0, of its start.
    pub start: usize,
    /// Byte index in the file, from 0, of its end, exclusive.
    pub end: usize,
    /// The line number that is shown.
    pub number: usize,
}

/// The line and column number that are shown for a byte at which a label starts.
#[derive(Drop)]
#[repr(C)]
pub struct RawLocation {
    /// Byte index in the file, from 0.
    pub byte: usize,
    /// The line number.
    pub line_number: usize,
    /// The column number.
    pub column_number: usize,
}

/// A file, or a window of one.
#[derive(Drop)]
#[repr(C)]
pub struct RawFile<'a> {
    /// Its name, in UTF-8.
    pub name: &'a [u8],
    /// Its source, or a window of it, in UTF-8.
    pub source: &'a [u8],
    /// Byte index in the file, from 0, of the first byte of `source`.
    pub first_byte: usize,
    /// The number of lines of the file before `source`; where there are `lines`, read only for
    /// positions.
    pub first_line: usize,
    /// The lines of `source`; where there are none, a line starts after each newline.
    pub lines: &'a [RawLine],
    /// The locations that are shown in place of computed ones.
    pub locations: &'a [RawLocation],
    /// 0, for fields of a later ABI version.
    pub reserved: [usize; 2],
}

/// A label.
#[derive(Drop)]
#[repr(C)]
pub struct RawLabel<'a> {
    /// 0: primary, 1: secondary.
    pub style: u32,
    /// The index of its file, from 0.
    pub file: usize,
    /// Byte index in the file, from 0.
    pub start: usize,
    /// Byte index in the file, from 0, exclusive.
    pub end: usize,
    /// Its message, in UTF-8.
    pub message: &'a [u8],
    /// 0, for fields of a later ABI version.
    pub reserved: [usize; 2],
}

/// A diagnostic.
#[derive(Drop)]
#[repr(C)]
pub struct RawDiagnostic<'a> {
    /// 0: help, 1: note, 2: warning, 3: error, 4: bug.
    pub severity: u32,
    /// Its code, in UTF-8; empty where it has none.
    pub code: &'a [u8],
    /// Its message, in UTF-8.
    pub message: &'a [u8],
    /// Its labels.
    pub labels: &'a [RawLabel<'a>],
    /// Its notes.
    pub notes: &'a [RawText<'a>],
    /// 0, for fields of a later ABI version.
    pub reserved: [usize; 4],
}

/// The characters of the output, each by its code point.
#[derive(Drop)]
#[repr(C)]
pub struct RawChars<'a> {
    /// Before the locus of a snippet: a text, in UTF-8.
    pub snippet_start: &'a [u8],
    /// Left of the source.
    pub source_border_left: u32,
    /// Left of a break.
    pub source_border_left_break: u32,
    /// Before a note.
    pub note_bullet: u32,
    /// Under each cell of a primary single-line label.
    pub single_primary_caret: u32,
    /// Under each cell of a secondary single-line label.
    pub single_secondary_caret: u32,
    /// Under the start of a primary multi-line label.
    pub multi_primary_caret_start: u32,
    /// Under the end of a primary multi-line label.
    pub multi_primary_caret_end: u32,
    /// Under the start of a secondary multi-line label.
    pub multi_secondary_caret_start: u32,
    /// Under the end of a secondary multi-line label.
    pub multi_secondary_caret_end: u32,
    /// The top corner of a multi-line label.
    pub multi_top_left: u32,
    /// The underline from the top corner to the label's start.
    pub multi_top: u32,
    /// The bottom corner of a multi-line label.
    pub multi_bottom_left: u32,
    /// The underline from the bottom corner to the label's end.
    pub multi_bottom: u32,
    /// The bar of a lane, between its corners.
    pub multi_left: u32,
    /// The pointer between a caret and a hanging message.
    pub pointer_left: u32,
}

/// A style of text.
#[derive(Clone, Copy)]
#[repr(C)]
pub struct RawColorSpec {
    /// 0: none, 1 to 8: black, red, green, yellow, blue, magenta, cyan, white.
    pub fg: u32,
    /// The same, for the background.
    pub bg: u32,
    /// Bold unless 0.
    pub bold: u32,
    /// Intense unless 0: both colors are the bright ones.
    pub intense: u32,
}

/// The styles of the parts of the output.
#[derive(Drop)]
#[repr(C)]
pub struct RawStyles {
    /// The severity in the header of a bug.
    pub header_bug: RawColorSpec,
    /// The severity in the header of an error.
    pub header_error: RawColorSpec,
    /// The severity in the header of a warning.
    pub header_warning: RawColorSpec,
    /// The severity in the header of a note.
    pub header_note: RawColorSpec,
    /// The severity in the header of a help message.
    pub header_help: RawColorSpec,
    /// The message of a header.
    pub header_message: RawColorSpec,
    /// Primary labels of a bug.
    pub primary_label_bug: RawColorSpec,
    /// Primary labels of an error.
    pub primary_label_error: RawColorSpec,
    /// Primary labels of a warning.
    pub primary_label_warning: RawColorSpec,
    /// Primary labels of a note.
    pub primary_label_note: RawColorSpec,
    /// Primary labels of a help message.
    pub primary_label_help: RawColorSpec,
    /// Secondary labels.
    pub secondary_label: RawColorSpec,
    /// Line numbers.
    pub line_number: RawColorSpec,
    /// The border left of the source, and the text before a locus.
    pub source_border: RawColorSpec,
    /// The bullet of a note.
    pub note_bullet: RawColorSpec,
}

/// A configuration.
#[derive(Drop)]
#[repr(C)]
pub struct RawConfig<'a> {
    /// [`ABI`].
    pub abi: u32,
    /// 0: rich, 1: medium, 2: short.
    pub display_style: u32,
    /// 0: classic, 1: unbroken.
    pub layout: u32,
    /// 0: safe text for a terminal, 1: text, 2: text with style marks in band, 3: an HTML element,
    /// 4: an SVG document.
    pub form: u32,
    /// 0: no colors, 1: the default styles, 2: `styles`.
    pub color_mode: u32,
    /// 0: box drawing, 1: ASCII, 2: those of `chars`.
    pub characters: u32,
    /// The number of cells between tab stops; above [`TAB_WIDTH_MAX`] it is taken as that.
    pub tab_width: usize,
    /// The number of lines shown after the first line of a multi-line label.
    pub start_context_lines: usize,
    /// The number of lines shown before its last line.
    pub end_context_lines: usize,
    /// The number of lines shown before a label.
    pub before_label_lines: usize,
    /// The number of lines shown after a label.
    pub after_label_lines: usize,
    /// The caller's characters, read only where `characters` is 2.
    pub chars: RawChars<'a>,
    /// The caller's styles, read only where `color_mode` is 2.
    pub styles: RawStyles,
    /// The greatest width of a line of the source, in cells, with the gutter; 0: none.
    pub max_width: usize,
    /// 0, for fields of a later ABI version.
    pub reserved: [usize; 7],
}

/// A position of an editor in a file.
#[derive(Clone, Copy)]
#[repr(C)]
pub struct RawPosition {
    /// The index in the file, from 0, of the line.
    pub line: u32,
    /// The number of code units of the line before the position.
    pub character: u32,
}

/// An edit of a text.
#[derive(Drop)]
#[repr(C)]
pub struct RawEdit<'a> {
    /// Byte index in the text, from 0.
    pub start: usize,
    /// Byte index in the text, from 0, exclusive.
    pub end: usize,
    /// The text that is put in place of these bytes, in UTF-8.
    pub replacement: &'a [u8],
    /// 0, for fields of a later ABI version.
    pub reserved: [usize; 2],
}

/// The first invalid argument, or none.
#[derive(Clone, Copy)]
#[repr(C)]
pub struct Detail {
    /// The number of an [`Argument`](crate::error::Argument) or an
    /// [`EditorArgument`](crate::error::EditorArgument), 0 where none is invalid.
    pub argument: u32,
    /// The index, from 0, of the character, style, file, label, note or edit, or the end of a line;
    /// 0 where there is only one such argument.
    pub index: usize,
}
