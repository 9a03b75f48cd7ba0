//! The rows of a rendered diagnostic, written to any writer of styles and text: the header, the
//! start of a snippet, the rows of a line, over any `LineCharacters`, empty rows, breaks and notes.
//! Below them are the parts that rows are written from, which message of a line trails, and which
//! of its characters have a style.

pub mod carets;
pub mod char_cursor;
pub mod header;
pub mod lanes;
pub mod line;
pub mod line_characters;
pub mod line_rows;
pub mod messages;
pub mod notes;
pub mod parts;
pub mod pointer_cursor;
pub mod pointers;
pub mod primary_cover;
pub mod runs;
mod source;
pub mod text_styles;
mod underlines;
