//! What `gallery` does, over any reader and writers: its arguments and the cases of its input are
//! parsed, and the cases are rendered. A case is a diagnostic, its suggestions, its
//! files and a configuration, stated by lines of a text.
//!
//! [`cases`] documents the input. `tools/gallery/README.md` says how the cases of the program's
//! file `stdin` and their expected outputs were made.
#![tactic(auto)]

pub mod case;
pub mod cases;
pub mod database;
pub mod document;
pub mod errors;
pub mod escape;
pub mod gallery;
mod numbers;
pub mod rendering;
mod request;
pub mod run;
pub mod statement;
pub mod suggestions;
mod words;
