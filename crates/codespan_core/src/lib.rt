//! What every rendering rests on: diagnostics as data, file databases, in which texts and locations
//! are looked up, the configuration of the output, the writers of plain text, and the traits and
//! functions by which rows are written; with the `Error` of most calls, those of the crates above
//! too.
//!
//! All other libraries are over this crate. `codespan_base` re-exports it, and adds `SimpleFiles`,
//! `MappedFile`, default columns, colors, the writers of styles, and laws. Users name its items as
//! `codespan_reporting::diagnostic`, `codespan_reporting::files` and `codespan_reporting::term`.
#![tactic(auto)]

pub mod diagnostic;
pub mod files;
pub mod laws;
pub mod term;
