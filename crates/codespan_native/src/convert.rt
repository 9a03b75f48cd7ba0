//! Converts valid structs of C to the types of `codespan_base` and to a file database.

mod chars;
mod config;
mod diagnostic;
mod edits;
mod encoding;
mod files;
mod forms;
mod styles;
mod text;

pub use config::{Settings, convert_config};
pub use diagnostic::convert_diagnostic;
pub use edits::convert_edits;
pub use encoding::convert_encoding;
pub use files::{convert_file, convert_files};
pub use forms::Form;
pub use styles::convert_styles;
pub use text::str_of;
