//! The exports for C: the functions of `native/include/codespan.h` and `codespan_editor.h`, each a
//! call of `codespan_native` or a constant of it.
#![tactic(auto)]

ghost use Rattle.std.specs.Prelude.{◌≡◌, ◌≤◌};
ghost use Rattle.codespan_native.specs.Constants.{ABI, STATUS_TEXT_MAX};
ghost use Rattle.codespan_native.specs.EditCalls.{AppliesEdits};
ghost use Rattle.codespan_native.specs.EmitCalls.{EmitsToBuffer};
ghost use Rattle.codespan_native.specs.PositionCalls.{FindsByte, FindsPosition};
ghost use Rattle.codespan_native.specs.Results.{IsTooSmall, IsWritten};
ghost use Rattle.codespan_native.specs.Statuses.{OK, TOO_SMALL};
ghost use Rattle.codespan_native.specs.StatusTexts.{text_for};
ghost use Rattle.codespan_native.specs.StyleSheets.{WritesStyleSheet};

use codespan_native::edits::write_edited;
use codespan_native::emit::emit;
use codespan_native::positions::{find_byte, find_position};
use codespan_native::raw::{
    ABI, Detail, RawConfig, RawDiagnostic, RawEdit, RawFile, RawPosition, RawStyles,
};
use codespan_native::status::write_status;
use codespan_native::style_sheet::write_style_sheet;
use std::alloc::Global;

/// Renders a diagnostic over files into `out`, and returns a status: see [`emit`].
#[unsafe(no_mangle)]
pub extern "C" fn codespan_emit(
    alloc: Global,
    files: &[RawFile<'_>],
    diagnostic: &RawDiagnostic<'_>,
    config: &RawConfig<'_>,
    out: &mut [u8],
    written: &mut usize,
    detail: &mut Detail,
) -> u32
    ensures { EmitsToBuffer files.now diagnostic.now config.now
        out.old out.new result written.new detail.new }
{
    let outcome = emit(alloc, files, diagnostic, config, out);
    *written = outcome.written;
    *detail = outcome.detail;
    outcome.status
}

/// Writes the style sheet of HTML elements to `out`, and returns a status: see
/// [`write_style_sheet`].
#[unsafe(no_mangle)]
pub extern "C" fn codespan_html_styles(
    alloc: Global,
    styles: &RawStyles,
    out: &mut [u8],
    written: &mut usize,
) -> u32
    ensures { WritesStyleSheet styles.now out.old out.new result written.new }
{
    write_style_sheet(alloc, styles, out, written)
}

/// Looks up the position of a byte of a file, and returns a status: see [`find_position`].
#[unsafe(no_mangle)]
pub extern "C" fn codespan_position(
    alloc: Global,
    file: &RawFile<'_>,
    encoding: u32,
    byte: usize,
    position: &mut RawPosition,
    detail: &mut Detail,
) -> u32
    ensures { FindsPosition file.now encoding byte result position.new detail.new }
{
    let found = find_position(alloc, file, encoding, byte);
    *position = found.value;
    *detail = found.detail;
    found.status
}

/// Looks up the byte of a position of a file, and returns a status: see [`find_byte`].
#[unsafe(no_mangle)]
pub extern "C" fn codespan_byte(
    alloc: Global,
    file: &RawFile<'_>,
    encoding: u32,
    position: &RawPosition,
    byte: &mut usize,
    detail: &mut Detail,
) -> u32
    ensures { FindsByte file.now encoding position.now result byte.new detail.new }
{
    let found = find_byte(alloc, file, encoding, position);
    *byte = found.value;
    *detail = found.detail;
    found.status
}

/// Writes a text after all edits to `out`, and returns a status: see [`write_edited`].
#[unsafe(no_mangle)]
pub extern "C" fn codespan_apply_edits(
    alloc: Global,
    source: &[u8],
    edits: &[RawEdit<'_>],
    out: &mut [u8],
    written: &mut usize,
    detail: &mut Detail,
) -> u32
    ensures { AppliesEdits source.now edits.now out.old out.new result written.new detail.new }
{
    let outcome = write_edited(alloc, source, edits, out);
    *written = outcome.written;
    *detail = outcome.detail;
    outcome.status
}

/// Returns the ABI version, which fixes the layouts of the structs.
#[unsafe(no_mangle)]
pub extern "C" fn codespan_abi_version() -> u32
    ensures { result ≡ ABI }
{
    ABI
}

/// Writes what a status means to `text`, and returns a status: see [`write_status`].
#[unsafe(no_mangle)]
pub extern "C" fn codespan_status_text(
    status: u32,
    argument: u32,
    text: &mut [u8],
    written: &mut usize,
) -> u32
    ensures ok { result ≡ OK
        → IsWritten (text_for status argument) text.old text.new written.new }
    ensures too_small { result ≡ TOO_SMALL
        → IsTooSmall (text_for status argument) text.old text.new written.new }
    ensures short { written.new ≤ STATUS_TEXT_MAX }
    ensures status { result ≤ TOO_SMALL }
{
    write_status(status, argument, text, written)
}
