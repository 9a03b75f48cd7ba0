//! The views of a diagnostic, and the calls that emit one. Users name what is public here as
//! `codespan_reporting::term`.
//!
//! Before anything is written, what the labels show is collected: annotations, which say what a
//! label does on a line, in the order of the lines, and the files that have them. Then the loci of
//! the files are looked up, and the numbers that the padding width depends on. One pass over a
//! file's annotations renders its snippet.
#![tactic(auto)]

mod annotation;
mod collected;
pub mod emitting;
mod label_annotations;
mod label_span;
mod labeled_files;
pub mod rich;
pub mod short;
mod snippet;
mod source_file;
