//! The configuration of the output, and the writers that it is written to.

pub mod config;

pub use codespan_core::term::{
    Chars, Config, DisplayStyle, GeneralWrite, GeneralWriteResult, Layout, PlainWriter,
    SnippetStart, WriteStyle,
};
pub use config::ansi::Ansi;
pub use config::color::{Color, ColorSpec, WriteColor};
pub use config::no_color::NoColor;
pub use config::styles::Styles;
pub use config::styles_writer::StylesWriter;
