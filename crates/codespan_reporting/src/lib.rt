//! Renders diagnostics over the source text that their labels refer to: a port of the Rust crate
//! codespan-reporting.
//!
//! [`diagnostic`] has diagnostics as data, [`files`] the file databases, [`term`] the calls that
//! emit, their configuration and writers, and [`laws`] what is proved of every output.
//! [`term::emit_into_string`] is the call to start with.
#![tactic(auto)]

pub mod term;

pub use codespan_base::{diagnostic, files};
pub use codespan_laws::laws;
