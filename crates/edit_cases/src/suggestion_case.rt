//! A suggestion over several files, as the input states it.
//!
//! Its numbers are the tab width, how many lines are shown before a change and after it, which
//! characters are drawn (0 those of boxes, else ASCII), the applicability (0 to 3, in the order of
//! [`Applicability`]), the length of the message, and how many files there are; of each file the
//! length of its name and that of its source; of each edit its file, its start, its end and the
//! length of its replacement.

use crate::error::CaseError;
use crate::fields::{Texts, read_numbers};
use codespan_base::files::SimpleFiles;
use codespan_base::term::{Chars, Config, DisplayStyle};
use codespan_edits::Edit;
use codespan_suggestions::{Applicability, Suggestion};
use std::alloc::Global;

/// A suggestion, its files, and how it is rendered.
#[derive(Drop)]
pub struct SuggestionCase<'a> {
    /// How it is rendered, but for the style.
    pub settings: Settings,
    /// The files.
    pub files: SimpleFiles<&'a str, &'a str>,
    /// The suggestion.
    pub suggestion: Suggestion<usize>,
}

/// How a suggestion is rendered, but for the style.
#[derive(Clone, Copy)]
pub struct Settings {
    /// The tab width.
    pub tab_width: usize,
    /// How many lines are shown before a change.
    pub before: usize,
    /// How many lines are shown after it.
    pub after: usize,
    /// Whether the characters are those of ASCII.
    pub is_ascii: bool,
}

impl Settings {
    /// Returns the configuration in a style.
    pub fn config(self, display_style: DisplayStyle) -> Config<'static> {
        Config {
            display_style,
            tab_width: self.tab_width,
            before_label_lines: self.before,
            after_label_lines: self.after,
            chars: if self.is_ascii {
                Chars::ascii()
            } else {
                Chars::box_drawing()
            },
            ..Config::default()
        }
    }
}

impl<'a> SuggestionCase<'a> {
    /// Reads a case from the numbers of the first line and the texts below it.
    ///
    /// # Errors
    ///
    /// - `Input`: the input is malformed.
    /// - `OutOfMemory`: an allocation fails.
    pub fn read(alloc: Global, line: &str, left: &'a str) -> Result<SuggestionCase<'a>, CaseError> {
        let mut texts = Texts::new(left);
        let numbers = read_numbers(alloc, line)?;
        let [
            tab_width,
            before,
            after,
            ascii,
            applicability,
            message,
            count,
            lengths @ ..,
        ] = numbers.as_slice()
        else {
            return Err(CaseError::Input);
        };
        let mut suggestion = Suggestion::new(alloc)
            .with_message(texts.take(*message)?)?
            .with_applicability(applicability_of(*applicability)?);
        let Some((of_files, of_edits)) = lengths.split_at_checked(count.saturating_mul(2)) else {
            return Err(CaseError::Input);
        };
        let files = read_files(alloc, of_files, &mut texts)?;
        suggestion.edits = read_edits(alloc, of_edits, &mut texts)?;
        Ok(SuggestionCase {
            settings: Settings {
                tab_width: *tab_width,
                before: *before,
                after: *after,
                is_ascii: *ascii != 0,
            },
            files,
            suggestion,
        })
    }
}

/// Returns the applicability of a number.
fn applicability_of(number: usize) -> Result<Applicability, CaseError> {
    match number {
        0 => Ok(Applicability::MachineApplicable),
        1 => Ok(Applicability::MaybeIncorrect),
        2 => Ok(Applicability::HasPlaceholders),
        3 => Ok(Applicability::Unspecified),
        _ => Err(CaseError::Input),
    }
}

/// Reads files, of each of which there are two lengths.
fn read_files<'a>(
    alloc: Global,
    lengths: &[usize],
    texts: &mut Texts<'a>,
) -> Result<SimpleFiles<&'a str, &'a str>, CaseError> {
    let mut files = SimpleFiles::new(alloc);
    for lengths in lengths.chunks(2) {
        let [name, source] = lengths else {
            return Err(CaseError::Input);
        };
        let name = texts.take(*name)?;
        let source = texts.take(*source)?;
        files.add(name, source)?;
    }
    Ok(files)
}

/// Reads edits, of each of which there are four numbers.
fn read_edits(
    alloc: Global,
    numbers: &[usize],
    texts: &mut Texts<'_>,
) -> Result<Vec<Edit<usize>>, CaseError> {
    let mut edits = Vec::new(alloc);
    for numbers in numbers.chunks(4) {
        let [file_id, start, end, length] = numbers else {
            return Err(CaseError::Input);
        };
        edits.push(Edit {
            file_id: *file_id,
            range: *start..*end,
            replacement: String::from_str(alloc, texts.take(*length)?)?,
        })?;
    }
    Ok(edits)
}
