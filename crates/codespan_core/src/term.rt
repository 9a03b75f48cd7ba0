//! The configuration of the output, the writers of plain text, and the traits and functions by
//! which rows are written.

pub mod config;

pub use config::chars::{Chars, SnippetStart};
pub use config::plain::PlainWriter;
pub use config::write_style::{GeneralWriteResult, WriteStyle};
pub use config::{Config, DisplayStyle, Layout};
pub use std::io::Write as GeneralWrite;
