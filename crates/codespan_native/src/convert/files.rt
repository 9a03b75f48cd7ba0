//! Converts the files.

ghost use Rattle.std.specs.Prelude.{◌≡◌, ◌∷◌, [], All, IfOk, map};
ghost use Rattle.codespan_native.specs.Converted.{converted_file};
ghost use Rattle.codespan_native.specs.SourceModel.{source_text_view, native_file_view};
ghost use Rattle.codespan_native.specs.SourceModel.{native_file_views};
ghost use Rattle.codespan_native.specs.ValidParts.{IsValidFile};

use crate::convert::text::str_of;
use crate::error::OutOfMemory;
use crate::native_file::{NativeFile, NewlineText, SourceText, StatedText};
use crate::native_files::NativeFiles;
use crate::raw::RawFile;
use std::alloc::Global;

/// Returns the file database of these files.
///
/// # Errors
///
/// [`OutOfMemory`] where an allocation fails.
///
/// # Requires
///
/// The names, sources, lines and locations of the files are valid.
/// [`first_invalid`](crate::validate::first_invalid) checks this.
pub fn convert_files<'a>(alloc: Global, raw: &[RawFile<'a>]) -> Result<NativeFiles<'a>, OutOfMemory>
    requires { All IsValidFile raw.now }
    ensures { IfOk result (λ files. native_file_views files ≡ map converted_file raw.now) }
{
    let mut files = NativeFiles::new(alloc);
    for file in raw {
        files.add(file_of(alloc, file)?)?;
    }
    Ok(files)
}

/// Returns the file database of one file, whose id is 0.
///
/// # Errors
///
/// [`OutOfMemory`] where an allocation fails.
///
/// # Requires
///
/// The name, source, lines and locations of the file are valid.
pub fn convert_file<'a>(alloc: Global, raw: &RawFile<'a>) -> Result<NativeFiles<'a>, OutOfMemory>
    requires { IsValidFile raw.now }
    ensures { IfOk result (λ files. native_file_views files ≡ converted_file raw.now ∷ []) }
{
    let mut files = NativeFiles::new(alloc);
    files.add(file_of(alloc, raw)?)?;
    Ok(files)
}

/// Returns a file.
fn file_of<'a>(alloc: Global, raw: &RawFile<'a>) -> Result<NativeFile<'a>, OutOfMemory>
    requires { IsValidFile raw.now }
    ensures { IfOk result (λ file. native_file_view file ≡ converted_file raw.now) }
{
    let text = source_text_of(alloc, raw)?;
    Ok(NativeFile::new(text, raw.first_byte, raw.locations))
}

/// Returns the text of a file, cut into lines.
fn source_text_of<'a>(alloc: Global, raw: &RawFile<'a>) -> Result<SourceText<'a>, OutOfMemory>
    requires { IsValidFile raw.now }
    ensures { IfOk result (λ text. source_text_view text ≡ (converted_file raw.now).text) }
{
    let name = str_of(raw.name);
    let source = str_of(raw.source);
    Ok(if raw.lines.is_empty() {
        SourceText::Newline(NewlineText::new(alloc, name, source, raw.first_line)?)
    } else {
        SourceText::Stated(StatedText::new(name, source, raw.first_byte, raw.lines))
    })
}
