//! Suggestions: edits of files that would put right what a diagnostic says, and what they make.
//!
//! A [`Suggestion`] is built as a diagnostic is. [`apply_suggestion`] returns the text of each file
//! after its edits, over any file database. [`emit_suggestion_into_string`] returns it as a
//! diagnostic shows it, as a diff with line numbers, and [`emit_suggestion_to_write_style`] writes
//! that with style marks. [`fix_its`] returns the edits in clang's format, [`unified_diff`] as a
//! patch, and [`code_action`] as an editor takes them.
#![tactic(auto)]

mod action;
mod apply;
mod clones;
mod drawn_files;
mod drawn_text;
mod edited_file;
mod emitting;
mod error;
mod escapes;
mod files;
mod fix_it;
mod hunk_spans;
pub mod laws;
mod line_columns;
mod padding;
mod patch;
mod row;
mod rows;
mod suggestion;

pub use action::{CodeAction, CodeActionKind, FileTextEdits, TextEdit, code_action};
pub use apply::apply_suggestion;
pub use emitting::{emit_suggestion_into_string, emit_suggestion_to_write_style};
pub use error::SuggestionError;
pub use fix_it::fix_its;
pub use patch::unified_diff;
pub use suggestion::{Applicability, Suggestion};
