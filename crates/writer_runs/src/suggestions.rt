//! The call of `codespan_suggestions` that writes to a writer of styles.

pub mod rows;

use crate::rendering::Render;
use crate::suggestions::rows::SuggestionRow;
use codespan_base::files::{Error, SimpleFiles};
use codespan_base::term::{Config, PlainWriter, WriteStyle};
use codespan_edits::Edit;
use codespan_suggestions::{Suggestion, SuggestionError, emit_suggestion_to_write_style};
use std::alloc::Global;
use std::io::Write;

/// A suggestion that is rendered over its files.
#[derive(Drop)]
pub struct RenderedSuggestion<'text> {
    config: Config<'text>,
    files: SimpleFiles<&'text str, &'text str>,
    suggestion: Suggestion<usize>,
}

impl<'text> RenderedSuggestion<'text> {
    /// Returns the suggestion of a row.
    ///
    /// # Errors
    ///
    /// `OutOfMemory` if an allocation fails.
    pub fn new(alloc: Global, row: &SuggestionRow<'text>) -> Result<Self, Error> {
        let (before, after) = row.context;
        let mut files = SimpleFiles::new(alloc);
        for (name, source) in row.files {
            files.add(*name, *source)?;
        }
        let mut suggestion = Suggestion::new(alloc).with_message(row.message)?;
        for (file, start, end, replacement) in row.edits {
            let edit = Edit::new(alloc, *file, *start..*end, *replacement)?;
            suggestion = suggestion.with_edit(edit)?;
        }
        Ok(RenderedSuggestion {
            config: Config {
                display_style: row.style,
                before_label_lines: before,
                after_label_lines: after,
                ..Config::default()
            },
            files,
            suggestion,
        })
    }
}

impl<'text> Render for RenderedSuggestion<'text> {
    fn render<W: WriteStyle>(&self, writer: &mut W) -> Result<(), Error> {
        let (config, files) = (&self.config, &self.files);
        match emit_suggestion_to_write_style(writer, config, files, &self.suggestion) {
            Ok(()) => Ok(()),
            Err(SuggestionError::Files(error)) => Err(error),
            // The edits of a row have no fault.
            Err(SuggestionError::Edit(_)) => Err(Error::FormatError),
        }
    }

    fn render_plain<W: Write>(&self, writer: &mut W) -> Result<(), Error> {
        self.render(&mut PlainWriter::new(writer))
    }

    fn has_style_marks(&self) -> bool {
        true
    }
}
