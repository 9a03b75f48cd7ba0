//! More file databases, colors, the writers of styles, and laws of files; with diagnostics, the
//! trait of file databases and the configuration, which `codespan_core` has.
//!
//! Users name these by the paths of `codespan_reporting`, which re-exports `diagnostic`, `files`
//! and `term`, and the laws as `codespan_base::laws`.
#![tactic(auto)]

pub mod files;
pub mod laws;
pub mod term;
mod worked;

pub use codespan_core::diagnostic;
