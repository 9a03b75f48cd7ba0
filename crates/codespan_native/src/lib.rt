//! Rendering for C: one call that renders a diagnostic over files, all borrowed from the caller.
//!
//! [`emit::emit`] takes the structs of [`raw`], which may hold any numbers and bytes, and returns a
//! status. It has no `requires`. The static library `codespan_c` exports it to C;
//! `native/include/codespan.h` is its header.
//!
//! [`validate`] finds the first invalid argument, and [`convert`] converts valid ones to a
//! diagnostic, a configuration and a file database. Files are whole or windows: a text is cut at
//! newlines, or into lines that the caller states, and the caller can state the locations of bytes.
//! [`native_file`] has a file, [`native_files`] the database, and [`stated_lines`] validates what a
//! caller states. [`status`] has the statuses, and [`buffer`] copies the output to the caller's
//! buffer. [`style_sheet`] writes the style sheet of HTML elements.
//!
//! For editors [`positions`] converts between bytes and positions, and [`edits`] applies edits to a
//! text; `native/include/codespan_editor.h` is their header.
#![tactic(auto)]

mod buffer;
mod convert;
pub mod edits;
pub mod emit;
pub mod error;
mod native_file;
mod native_files;
pub mod positions;
pub mod raw;
pub mod render;
mod stated_lines;
pub mod status;
pub mod style_mark_writer;
pub mod style_sheet;
mod validate;
