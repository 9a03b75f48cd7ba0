//! Renders a diagnostic to a string, to a writer of bytes, or to a writer of styles.
//!
//! The five calls that emit take a [`Config`], a file database and a diagnostic. [`RichDiagnostic`]
//! and [`ShortDiagnostic`] render to the caller's [`Renderer`], whose calls render row by row.
//! The names of these calls and types are the Rust crate's.

pub mod renderer;
pub mod views;

pub use codespan_base::term::{
    Ansi, Chars, Color, ColorSpec, Config, DisplayStyle, GeneralWrite, GeneralWriteResult, Layout,
    NoColor, PlainWriter, SnippetStart, Styles, StylesWriter, WriteColor, WriteStyle, config,
};
pub use codespan_views::emitting::{
    emit, emit_into_string, emit_to_io_write, emit_to_string, emit_to_write_style,
};
pub use renderer::{Locus, MultiLabel, Renderer, SingleLabel, lanes_in_order};
pub use views::{RichDiagnostic, ShortDiagnostic};
