//! The configuration of the output, and the writers that it is written to: those that color it are
//! here, and the rest is re-exported.

pub mod ansi;
pub mod color;
pub mod no_color;
pub mod styles;
pub mod styles_writer;

pub use codespan_core::term::config::{
    Config, DisplayStyle, Layout, chars, plain, plain_ref, put_style, style_mark, write_style,
    writing,
};
