//! The files that a suggestion changes, as its output shows them.

ghost use Rattle.std.specs.Prelude.{◌≡◌, ◌++◌, ◌∷◌, [], IfOk, OnErr, IsErrOf};
ghost use Rattle.std.specs.Prelude.{IsSome, map, filter, length};
ghost use Rattle.std.specs.Option.{option_map};
ghost use Rattle.codespan_edits.specs.Edits.{text_edits};
ghost use Rattle.codespan_edits.specs.DrawnRows.{diff_hunks};
ghost use Rattle.codespan_edits.specs.Faults.{fault};
ghost use Rattle.codespan_edits.specs.RowViews.{context_view, hunks_view};
ghost use Rattle.codespan_suggestions.specs.Faults.{FailsBy, by_indices};
ghost use Rattle.codespan_suggestions.specs.declared.error.SuggestionError.TheVariants as variants;
ghost use Rattle.codespan_suggestions.specs.DrawnFiles.{least_start, drawn_file, drawn_files};
ghost use Rattle.codespan_suggestions.specs.DrawnFiles.{NamesAreStated, has_hunk};
ghost use Rattle.codespan_suggestions.specs.NamedFiles.{named_file_fault, named_files_fault};
ghost use Rattle.codespan_suggestions.specs.NamedFiles.{FailsByFault};
ghost use Rattle.codespan_suggestions.specs.Private.FileViews.{file_view};

use crate::apply::by_indices;
use crate::drawn_text::{location_in, usual_end};
use crate::error::SuggestionError;
use crate::files::{FileEdits, edited_files, edits_of_file};
use codespan_core::diagnostic::text::display_text;
use codespan_core::files::{Error, Files};
use codespan_edits::{DiffContext, Edit, EditError, Hunk, diff_hunks};
use codespan_output::arguments::Locus;
use std::alloc::Global;
use std::convert::AsStr;

/// A file that is kept for an output.
#[derive(Drop)]
pub(crate) struct KeptFile {
    /// Its name, and the location of its first edit.
    pub(crate) locus: Locus,
    /// The end of its first line, or a newline where it has no line.
    pub(crate) usual_end: Vec<u8>,
    /// The hunks of its diff.
    pub(crate) hunks: Vec<Hunk>,
}

/// Returns the files that edits change, in the order of their first edits.
///
/// # Errors
///
/// The first error, where the files are gone through in that order: of each that of
/// [`Files::source`], or else that of its edits, or else that of [`Files::name`].
pub(crate) fn draw_files<'files, F: Files<'files>>(
    alloc: Global,
    files: &'files F,
    edits: &[Edit<F::FileId>],
    context: DiffContext,
) -> Result<Vec<KeptFile>, SuggestionError>
    ensures files { NamesAreStated (F.database files.now) edits.now → IfOk result (λ kept.
        map file_view kept.items
        ≡ drawn_files (context_view context) (F.database files.now) edits.now) }
    ensures failed { FailsByFault (named_files_fault (F.database files.now) edits.now) result }
{
    let ids = edited_files(alloc, edits)?;
    let mut kept = Vec::new(alloc);
    for id in &ids {
        let file = draw_file(alloc, files, edits, *id, context)?;
        keep_file(&mut kept, file)?;
    }
    Ok(kept)
}

/// Adds a file, if it has a hunk.
fn keep_file(kept: &mut Vec<KeptFile>, file: KeptFile) -> Result<(), Error>
    ensures kept { IfOk result (λ _. map file_view kept.new.items
        ≡ map file_view kept.old.items ++ filter has_hunk (file_view file ∷ [])) }
    ensures failed { OnErr result (IsErrOf result Error.OutOfMemory) }
{
    if !file.hunks.is_empty() {
        kept.push(file)?;
    }
    Ok(())
}

/// Returns a file with its edits.
fn draw_file<'files, F: Files<'files>>(
    alloc: Global,
    files: &'files F,
    edits: &[Edit<F::FileId>],
    id: F::FileId,
    context: DiffContext,
) -> Result<KeptFile, SuggestionError>
    ensures file { IsSome ((F.database files.now).file id).name → IfOk result (λ file.
        file_view file ≡ drawn_file (context_view context) (F.database files.now) edits.now id) }
    ensures failed { FailsByFault (named_file_fault (F.database files.now) edits.now id) result }
{
    let source = files.source(id)?;
    let text = source.as_str();
    let found = edits_of_file(alloc, edits, id)?;
    let hunks = hunks_of_file(alloc, text, &found, context)?;
    let named = files.name(id)?;
    let name = display_text(alloc, named)?;
    let bytes = text.as_bytes();
    let location = location_in(bytes, least_start(&found.edits));
    Ok(KeptFile {
        locus: Locus { name, location },
        usual_end: Vec::from_slice(alloc, usual_end(bytes))?,
        hunks,
    })
}

/// Returns the hunks of the diff of a file's edits. An error names them by their indices in the
/// suggestion.
fn hunks_of_file<FileId>(
    alloc: Global,
    text: &str,
    found: &FileEdits<FileId>,
    context: DiffContext,
) -> Result<Vec<Hunk>, SuggestionError>
    requires { length found.now.indices.items ≡ length found.now.edits.items }
    ensures hunks { IfOk result (λ hunks. hunks_view hunks
        ≡ diff_hunks (context_view context) text.now (text_edits found.now.edits.items)) }
    ensures failed { FailsBy (option_map variants.Edit (option_map
        (by_indices found.now.indices.items)
        (fault text.now (text_edits found.now.edits.items)))) result }
{
    match diff_hunks(alloc, text, &found.edits, context) {
        Ok(hunks) => Ok(hunks),
        Err(error) => match error {
            EditError::OutOfMemory => Err(SuggestionError::Files(Error::OutOfMemory)),
            _ => Err(SuggestionError::Edit(by_indices(&found.indices, error))),
        },
    }
}

/// Returns the least byte at which an edit starts.
fn least_start<FileId>(edits: &[Edit<FileId>]) -> usize
    ensures { result ≡ least_start (text_edits edits.now) }
{
    let mut least = usize::MAX;
    for edit in edits {
        least = least.min(edit.range.start);
    }
    least
}
