//! The files, and when their database is made.

use crate::error::TimingError;
use crate::fields::{Fields, Malformed};
use codespan_base::files::{Error, SimpleFiles};
use std::alloc::Global;

/// When the file database is made.
#[derive(Clone, Copy)]
pub enum Making {
    /// Once, before the first rendering.
    Once,
    /// Anew for each rendering, whose time it is part of.
    Anew,
}

/// A file.
#[derive(Clone, Copy)]
pub struct File<'a> {
    /// Its name.
    name: &'a str,
    /// Its source.
    source: &'a str,
}

/// Reads when the file database is made.
///
/// # Errors
///
/// `Malformed`: the field is neither `once` nor `anew`.
pub fn read_making(fields: &mut Fields<'_>) -> Result<Making, Malformed> {
    match fields.line()? {
        "once" => Ok(Making::Once),
        "anew" => Ok(Making::Anew),
        _ => Err(Malformed),
    }
}

/// Reads the files.
///
/// # Errors
///
/// - `Input`: a field is malformed.
/// - `CannotRender`: an allocation fails.
pub fn read_files<'a>(
    alloc: Global,
    fields: &mut Fields<'a>,
) -> Result<Vec<File<'a>>, TimingError> {
    let mut files = Vec::new(alloc);
    for _ in 0..fields.number()? {
        let name = fields.text()?;
        let source = fields.text()?;
        files.push(File { name, source })?;
    }
    Ok(files)
}

/// Makes the database of the files.
///
/// # Errors
///
/// `OutOfMemory`: an allocation fails.
pub fn database<'a>(
    alloc: Global,
    files: &[File<'a>],
) -> Result<SimpleFiles<&'a str, &'a str>, Error> {
    let mut database = SimpleFiles::new(alloc);
    for file in files {
        database.add(file.name, file.source)?;
    }
    Ok(database)
}
