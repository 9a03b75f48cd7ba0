//! The calls that do not allocate.

mod constructors;
mod rows;

use crate::databases::{has_text, is_ok_with};
use crate::outcome::{Outcome, Wrong, judge_success};
use crate::recording::Recording;
use codespan_base::diagnostic::LabelStyle::{Primary, Secondary};
use codespan_base::diagnostic::{Diagnostic, Severity};
use codespan_base::files::{
    Error, Files, Location, MappedFile, SimpleFile, SimpleFiles, column_index,
    default_column_number, default_line_number, default_location, line_starts,
};
use codespan_base::term::{Color, Config, Styles};
use codespan_renderer::term::renderer::Locus;
use codespan_views::emitting::emit;
use constructors::{are_cloned, are_made};
use rows::{COLORED, ROWS, render_colored, render_rows};
use std::alloc::Global;
use std::convert::AsStr;
use std::ops::Range;

/// How far the subject goes.
#[derive(Clone, Copy)]
pub enum Stage {
    /// What the calls need is prepared, and no call is made.
    Preparation,
    /// The calls are made too.
    Calls,
}

/// The text of each file.
const TEXT: &str = "foo\nbär\nbaz";

/// What the calls need.
#[derive(Drop)]
struct Prepared<'text> {
    /// What the calls write to.
    recordings: Recordings,
    /// The locus of the snippet's start.
    snippet_locus: Locus,
    /// The locus of the header.
    header_locus: Locus,
    /// The file databases.
    databases: Databases<'text>,
}

/// What the calls write to. Each vector has the capacity for all that is written to it.
#[derive(Drop)]
struct Recordings {
    /// The rows, in plain text.
    rows: Recording,
    /// A source line with a label, in colors.
    colored: Recording,
    /// The diagnostic that is rendered without a lookup.
    bug: Recording,
}

/// The file databases.
#[derive(Drop)]
struct Databases<'text> {
    /// A database of one file.
    file: SimpleFile<&'text str, &'text str>,
    /// A database of the same file.
    files: SimpleFiles<&'text str, &'text str>,
    /// A database of the same file, whose second line has the number 40.
    mapped: MappedFile<&'text str, &'text str>,
}

/// Prepares what the calls need, which allocates, and then makes the calls.
///
/// # Errors
///
/// `OutOfMemory` if an allocation of the preparation fails.
pub fn judge_without_alloc(alloc: Global, stage: Stage) -> Result<Outcome, Error> {
    let mut needed = prepare(alloc)?;
    match stage {
        Stage::Preparation => Ok(Outcome::Done),
        Stage::Calls => Ok(judge_calls(alloc, &mut needed)),
    }
}

/// Prepares what the calls need.
fn prepare<'text>(alloc: Global) -> Result<Prepared<'text>, Error> {
    Ok(Prepared {
        recordings: prepare_recordings(alloc)?,
        snippet_locus: locus_of(alloc, "f", 1, 1)?,
        header_locus: locus_of(alloc, "Test.fun", 4, 11)?,
        databases: prepare_databases(alloc)?,
    })
}

/// Prepares what the calls write to.
fn prepare_recordings(alloc: Global) -> Result<Recordings, Error> {
    Ok(Recordings {
        rows: Recording::with_capacity(alloc, 1024)?,
        colored: Recording::with_capacity(alloc, 1024)?,
        bug: Recording::with_capacity(alloc, 1024)?,
    })
}

/// Prepares the file databases.
fn prepare_databases<'text>(alloc: Global) -> Result<Databases<'text>, Error> {
    let mut files = SimpleFiles::new(alloc);
    files.add("f", TEXT)?;
    let mut mapped = MappedFile::new(alloc, "f", TEXT)?;
    mapped.set_line(1, 40)?;
    Ok(Databases {
        file: SimpleFile::new(alloc, "f", TEXT)?,
        files,
        mapped,
    })
}

/// Returns the locus of a line and a column in a file of this name.
fn locus_of(
    alloc: Global,
    name: &str,
    line_number: usize,
    column_number: usize,
) -> Result<Locus, Error> {
    Ok(Locus {
        name: String::from_str(alloc, name)?,
        location: Location {
            line_number,
            column_number,
        },
    })
}

/// Makes each call and judges the results. An error of a call is wrong.
fn judge_calls(alloc: Global, needed: &mut Prepared<'_>) -> Outcome {
    match render_all(alloc, needed) {
        Ok(()) => judge_results(alloc, needed),
        Err(_) => Outcome::Wrong(Wrong::Error),
    }
}

/// Makes the calls that write.
///
/// # Errors
///
/// The error of the first call that fails, and `FormatError` if lanes are not in order.
fn render_all(alloc: Global, needed: &mut Prepared<'_>) -> Result<(), Error> {
    let recordings = &mut needed.recordings;
    render_rows(
        &mut recordings.rows,
        &needed.snippet_locus,
        &needed.header_locus,
    )?;
    render_colored(&mut recordings.colored)?;
    render_bug(alloc, &mut recordings.bug, &needed.databases.files)
}

/// Judges what was written, makes the other calls, and judges what they return.
fn judge_results(alloc: Global, needed: &Prepared<'_>) -> Outcome {
    judge_success(
        are_written(&needed.recordings)
            && are_looked_up(&needed.databases)
            && are_styles(&Styles::default())
            && are_starts()
            && column_index("\n\n🗻∈🌏\n\n", 2..13, 10) == 2
            && are_made(alloc)
            && are_cloned(),
    )
}

/// Returns whether the vectors hold what is expected.
fn are_written(recordings: &Recordings) -> bool {
    recordings.rows.holds(ROWS)
        && recordings.colored.holds(COLORED)
        && recordings.bug.holds("bug: \n\n")
}

/// Returns whether the lookups of the file databases return what is expected.
fn are_looked_up(databases: &Databases<'_>) -> bool {
    looks_up(&databases.file, (), 2, 4..9)
        && looks_up(&databases.files, 0, 2, 4..9)
        && looks_up(&databases.mapped, (), 40, 4..8)
        && are_named(databases)
        && is_found(&databases.files)
        && are_defaults(&databases.files)
}

/// Returns whether the file of each database has the name that is expected.
fn are_named(databases: &Databases<'_>) -> bool {
    is_ok_with(Files::name(&databases.file, ()), &"f")
        && is_ok_with(databases.files.name(0), &"f")
        && is_ok_with(databases.mapped.name(()), &"f")
}

/// Returns whether the lookups of byte 7 of a file return what is expected, where its line has this
/// number and this range of bytes.
fn looks_up<'files, F: Files<'files>>(
    files: &'files F,
    id: F::FileId,
    number: usize,
    range: Range<usize>,
) -> bool {
    let location = Location {
        line_number: number,
        column_number: 3,
    };
    has_text(files, id, TEXT)
        && files.name(id).is_ok()
        && is_ok_with(files.line_index(id, 7), 1)
        && is_ok_with(files.line_number(id, 1), number)
        && is_ok_with(files.line_range(id, 1), range)
        && is_ok_with(files.column_number(id, 1, 7), 3)
        && is_ok_with(files.location(id, 7), location)
}

/// Returns whether `get` returns the existing file, and `FileMissing` for the next id.
fn is_found(files: &SimpleFiles<&str, &str>) -> bool {
    let is_found = match files.get(0) {
        Ok(file) => file.source().as_str() == TEXT,
        Err(_) => false,
    };
    is_found && matches!(files.get(1), Err(Error::FileMissing))
}

/// Returns whether the free functions for the lookups of a custom database return what is expected
/// at byte 7.
fn are_defaults(files: &SimpleFiles<&str, &str>) -> bool {
    let location = Location {
        line_number: 2,
        column_number: 3,
    };
    is_ok_with(default_location(files, 0, 7), location)
        && is_ok_with(default_line_number(1), 2)
        && matches!(
            default_line_number(usize::MAX),
            Err(Error::LineTooLarge { .. })
        )
        && is_ok_with(default_column_number(files, 0, 1, 7), 3)
}

/// Returns whether the calls of `Styles` return styles of the expected colors, and a bold one.
fn are_styles(styles: &Styles) -> bool {
    let color = Some(Color::Cyan);
    styles.header(Severity::Warning).fg == Some(Color::Yellow)
        && styles.header_message().bold
        && styles.line_number().fg == color
        && styles.note_bullet().fg == color
        && styles.source_border().fg == color
        && styles.label(Severity::Bug, Primary).fg == Some(Color::Red)
        && styles.label(Severity::Bug, Secondary).fg == color
}

/// Returns whether the lines of a text start at the bytes that are expected.
fn are_starts() -> bool {
    let mut starts = line_starts("foo\nbar\r\n\nbaz");
    starts.next() == Some(0)
        && starts.next() == Some(4)
        && starts.next() == Some(9)
        && starts.next() == Some(10)
        && starts.next().is_none()
}

/// Renders a diagnostic without a lookup.
///
/// # Errors
///
/// Those of `emit`.
fn render_bug(
    alloc: Global,
    writer: &mut Recording,
    files: &SimpleFiles<&str, &str>,
) -> Result<(), Error> {
    emit(writer, &Config::default(), files, &Diagnostic::bug(alloc))
}
