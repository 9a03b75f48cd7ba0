//! Edits of one text: what is wrong with a list of them, the text that they make, and its diff.
//!
//! [`apply_edits`] replaces ranges of a source, all at once: the ranges of all edits are in bytes
//! of the source as it was. Edits may touch, but not overlap; insertions at one byte stay in the
//! order of their list. [`diff`] returns the lines of both texts, those that edits keep once.
#![tactic(auto)]

mod apply;
mod blocks;
mod edit;
mod error;
mod hunks;
pub mod laws;
mod lines;
mod numbers;
mod order;
mod rows;

pub use apply::apply_edits;
pub use edit::Edit;
pub use error::EditError;
pub use hunks::{DiffContext, Hunk, diff_hunks};
pub use order::order_of_edits;
pub use rows::{DiffRow, RowSign, diff};
