//! The file database of a case.

ghost use Rattle.std.specs.Prelude.{◌≡◌, ◌∷◌, [], map, IfOk, OnOk};
ghost use Rattle.codespan_base.specs.Diagnostics.{diagnostic_view, label_view};
ghost use Rattle.codespan_base.specs.MappedFileViews.{mapped_name_of, mapped_source_of};
ghost use Rattle.codespan_base.specs.MappedFileViews.{set_numbers_of};
ghost use Rattle.codespan_base.specs.SimpleFilesViews.{entries};
ghost use Rattle.gallery_cases.specs.Cases.{file_view};
ghost use Rattle.gallery_cases.specs.Database.{IsDatabaseOf, with_unit_ids, label_with_unit_id};
ghost use Rattle.gallery_cases.specs.Database.{borrowed_view, with_set_numbers};

use crate::case::{Case, DatabaseKind, File, SetNumber};
use codespan_base::diagnostic::{Diagnostic, Label};
use codespan_base::files::{Error, MappedFile, SimpleFile, SimpleFiles};
use std::alloc::Global;

/// The file database of a case; with a database of one file, the case's diagnostic with the file id
/// `()` in place of 0.
#[derive(Drop)]
pub enum Database<'case> {
    /// A database of one file.
    One(SimpleFile<&'case str, &'case str>, Diagnostic<()>),
    /// A database of all files, whose ids are those of the case's own diagnostic.
    Several(SimpleFiles<&'case str, &'case str>),
    /// A database of one file, with set line numbers.
    Mapped(MappedFile<&'case str, &'case str>, Diagnostic<()>),
}

/// Returns the file database of a case.
///
/// # Errors
///
/// - `FileMissing`: the database is of one file, and the case has none or several, or a label in
///   another file than 0, or a suggestion.
/// - `LineTooLarge`: the number of a line that the source lacks is set.
/// - `OutOfMemory`: an allocation fails.
pub fn database_of<'case>(alloc: Global, case: &'case Case<'_>) -> Result<Database<'case>, Error>
    ensures { IfOk result (IsDatabaseOf case.now) }
{
    match case.database_kind {
        DatabaseKind::One => {
            let file = only_file(case)?;
            let files = SimpleFile::new(alloc, file.name.as_str(), file.source.as_str())?;
            Ok(Database::One(files, with_unit_ids(alloc, &case.diagnostic)?))
        }
        DatabaseKind::Several => {
            Ok(Database::Several(several_files(alloc, case.files.as_slice())?))
        }
        DatabaseKind::Mapped => {
            let file = only_file(case)?;
            let files = mapped_file(alloc, file, case.set_numbers.as_slice())?;
            Ok(Database::Mapped(files, with_unit_ids(alloc, &case.diagnostic)?))
        }
    }
}

/// Returns the only file; fails with `FileMissing` if there is none or several, or a suggestion.
fn only_file<'case>(case: &'case Case<'_>) -> Result<&'case File, Error>
    ensures file { IfOk result (λ file. case.now.files.items ≡ file.now ∷ []) }
    ensures no_suggestions { OnOk result (case.now.suggestions.items ≡ []) }
{
    match case.files.as_slice() {
        [file] if case.suggestions.is_empty() => Ok(file),
        _ => Err(Error::FileMissing),
    }
}

/// Returns a database of the files.
fn several_files(alloc: Global, files: &[File]) -> Result<SimpleFiles<&str, &str>, Error>
    ensures { IfOk result (λ database.
        map borrowed_view (entries database) ≡ map file_view files.now) }
{
    let mut database = SimpleFiles::new(alloc);
    for file in files {
        database.add(file.name.as_str(), file.source.as_str())?;
    }
    Ok(database)
}

/// Returns a database of the file, with these line numbers set.
fn mapped_file<'case>(
    alloc: Global,
    file: &'case File,
    set_numbers: &[SetNumber],
) -> Result<MappedFile<&'case str, &'case str>, Error>
    ensures file { IfOk result (λ mapped.
        ((mapped_name_of mapped).now, (mapped_source_of mapped).now) ≡ file_view file.now) }
    ensures set_numbers { IfOk result (λ mapped.
        set_numbers_of mapped ≡ with_set_numbers [] set_numbers.now) }
{
    let mut mapped = MappedFile::new(alloc, file.name.as_str(), file.source.as_str())?;
    for SetNumber { line, number } in set_numbers {
        mapped.set_line(*line, *number)?;
    }
    Ok(mapped)
}

/// Returns the diagnostic with the file id `()`. Fails with `FileMissing` if a label is not in file
/// 0, and with `OutOfMemory`.
fn with_unit_ids(alloc: Global, diagnostic: &Diagnostic<usize>) -> Result<Diagnostic<()>, Error>
    ensures { IfOk result (λ converted. diagnostic_view converted
        ≡ with_unit_ids (diagnostic_view diagnostic.now)) }
{
    let Diagnostic {
        severity,
        code,
        message,
        labels: stated,
        notes,
    } = diagnostic.clone()?;
    let mut labels = Vec::new(alloc);
    for label in stated {
        labels.push(with_unit_id(label)?)?;
    }
    Ok(Diagnostic {
        severity,
        code,
        message,
        labels,
        notes,
    })
}

/// Returns the label with the file id `()`. Fails with `FileMissing` if it is not in file 0.
fn with_unit_id(label: Label<usize>) -> Result<Label<()>, Error>
    ensures { IfOk result (λ converted. label_view converted
        ≡ label_with_unit_id (label_view label)) }
{
    if label.file_id != 0 {
        return Err(Error::FileMissing);
    }
    Ok(Label {
        style: label.style,
        file_id: (),
        range: label.range,
        message: label.message,
    })
}
