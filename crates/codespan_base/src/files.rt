//! The lookups that rendering makes, and file databases: [`SimpleFiles`], [`MappedFile`], and
//! columns and locations as most databases count them, are here; the rest is re-exported.

mod database;
mod defaults;
mod mapped;

pub use codespan_core::files::{
    Error, Files, LineStarts, Location, SimpleFile, column_index, default_line_number, line_starts,
};
pub use database::SimpleFiles;
pub use defaults::{default_column_number, default_location};
pub use mapped::MappedFile;
