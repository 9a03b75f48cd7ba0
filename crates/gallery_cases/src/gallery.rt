//! The output of every case, each under its name.

ghost use Rattle.std.specs.Prelude.{◌≡◌, ℕ, List, ◌++◌, IfOk, OnOk};
ghost use Rattle.gallery_cases.specs.declared.case.ColorChoice.TheVariants.{Plain, Svg};
ghost use Rattle.gallery_cases.specs.CaseOutputs.{AppendsOutput};
ghost use Rattle.gallery_cases.specs.Documents.{AppendsSvg};
ghost use Rattle.gallery_cases.specs.Galleries.{heading, with_escapes, IsSection, IsGallery};
ghost use Rattle.gallery_cases.specs.Galleries.{IsErrorLine};

use crate::case::{Case, ColorChoice};
use crate::document::document;
use crate::rendering::render;
use crate::request::Format;
use codespan_suggestions::SuggestionError;
use std::alloc::{AllocError, Global};

/// Returns the heading and the output of each case, one after another.
///
/// # Errors
///
/// `AllocError` if an allocation fails.
pub fn render_cases(alloc: Global, cases: &[Case<'_>]) -> Result<Vec<u8>, AllocError>
    ensures { IfOk result (λ gallery. IsGallery cases.now gallery.items) }
{
    let mut gallery = Vec::new(alloc);
    for case in cases {
        add_heading(&mut gallery, case.name)?;
        add_output(alloc, &mut gallery, case)?;
    }
    Ok(gallery)
}

/// Appends the heading of a case.
fn add_heading(gallery: &mut Vec<u8>, name: &str) -> Result<(), AllocError>
    ensures { OnOk result (gallery.new.items ≡ gallery.old.items ++ heading name.now) }
{
    gallery.extend_from_slice(b"== ")?;
    gallery.extend_from_slice(name.as_bytes())?;
    gallery.push(b'\n')?;
    Ok(())
}

/// Appends the output of a case, and, if rendering failed, a line with the error.
fn add_output(alloc: Global, gallery: &mut Vec<u8>, case: &Case<'_>) -> Result<(), AllocError>
    ensures { OnOk result ((section : List ℕ) × (gallery.new.items ≡ gallery.old.items ++ section)
        × IsSection case.now section) }
{
    let mut output = Vec::new(alloc);
    let rendered = render_as_stated(alloc, case, &mut output);
    add_with_escapes(gallery, output.as_slice())?;
    add_error_line(alloc, gallery, rendered)
}

/// Renders a case as it states: as text, or as an SVG document.
///
/// # Errors
///
/// Those of [`render`] and of [`document`].
fn render_as_stated(
    alloc: Global,
    case: &Case<'_>,
    output: &mut Vec<u8>,
) -> Result<(), SuggestionError>
    ensures plain { case.now.colors ≡ Plain
        → OnOk result (AppendsOutput case.now output.old.items output.new.items) }
    ensures document { case.now.colors ≡ Svg
        → OnOk result (AppendsSvg case.now output.old.items output.new.items) }
{
    match case.colors {
        ColorChoice::Plain | ColorChoice::Ansi => render(alloc, case, output),
        ColorChoice::Svg => {
            let document = document(alloc, case, Format::Svg)?;
            output.extend_from_slice(document.as_bytes())?;
            Ok(())
        }
    }
}

/// Appends a line with the error, if rendering a case failed.
fn add_error_line(
    alloc: Global,
    gallery: &mut Vec<u8>,
    rendered: Result<(), SuggestionError>,
) -> Result<(), AllocError>
    ensures { OnOk result ((error_line : List ℕ)
        × (gallery.new.items ≡ gallery.old.items ++ error_line)
        × IsErrorLine rendered error_line) }
{
    match rendered {
        Ok(()) => Ok(()),
        Err(error) => {
            let line = format!(in alloc; "failed: {error}\n")?;
            gallery.extend_from_slice(line.as_bytes())
        }
    }
}

/// Appends an output with four characters escaped: the escape character as `\e`, the null character
/// as `\0`, the carriage return as `\r`, and the tab as `\t`.
fn add_with_escapes(gallery: &mut Vec<u8>, rendered: &[u8]) -> Result<(), AllocError>
    ensures { OnOk result (gallery.new.items ≡ gallery.old.items ++ with_escapes rendered.now) }
{
    for byte in rendered {
        match *byte {
            0x1b => gallery.extend_from_slice(b"\\e")?,
            b'\0' => gallery.extend_from_slice(b"\\0")?,
            b'\r' => gallery.extend_from_slice(b"\\r")?,
            b'\t' => gallery.extend_from_slice(b"\\t")?,
            other => gallery.push(other)?,
        }
    }
    Ok(())
}
