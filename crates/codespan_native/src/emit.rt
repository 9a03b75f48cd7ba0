//! The call that renders for C.

ghost use Rattle.std.specs.Prelude.{◌≡◌, IfOk};
ghost use Rattle.codespan_native.specs.EmitCalls.{EmitsToBuffer};
ghost use Rattle.codespan_native.specs.Meaning.{Means, output_bytes};
ghost use Rattle.codespan_native.specs.Validity.{AreValid};

use crate::buffer::copy_out;
use crate::convert::{convert_config, convert_diagnostic, convert_files};
use crate::error::OutOfMemory;
use crate::raw::{Detail, RawConfig, RawDiagnostic, RawFile};
use crate::render::render;
use crate::status::{NO_ARGUMENT, OUT_OF_MEMORY, status_for};
use crate::validate::first_invalid;
use std::alloc::Global;

/// What a call returns, besides the bytes that it writes.
#[derive(Drop)]
pub struct Outcome {
    /// The status, a constant of [`crate::status`].
    pub status: u32,
    /// The length of the output in bytes; 0 where there is none.
    pub written: usize,
    /// The first invalid argument, or none.
    pub detail: Detail,
}

/// Renders a diagnostic over files into `out`. By the status of the outcome:
///
/// - `OK`: the first `written` bytes of `out` are the output, and the rest of `out` is unchanged.
/// - `TOO_SMALL`: `out` is too small for the output, whose length in bytes is `written`.
/// - `OUT_OF_MEMORY`: an allocation failed.
/// - `FILE_MISSING`: the first invalid argument is the file of a label.
/// - `INVALID`: the first invalid argument is another one.
///
/// With any status but `OK`, `out` is unchanged; with the last three, `written` is 0. The arguments
/// are checked before anything is allocated, in the order of their numbers. With the last two,
/// `detail` names the first invalid one; with the others it names none.
pub fn emit(
    alloc: Global,
    files: &[RawFile<'_>],
    diagnostic: &RawDiagnostic<'_>,
    config: &RawConfig<'_>,
    out: &mut [u8],
) -> Outcome
    ensures { EmitsToBuffer files.now diagnostic.now config.now
        out.old out.new result.status result.written result.detail }
{
    if let Some(invalid) = first_invalid(files, diagnostic, config) {
        return Outcome {
            status: status_for(invalid.argument),
            written: 0,
            detail: Detail {
                argument: invalid.argument.number(),
                index: invalid.index,
            },
        };
    }
    let detail = Detail {
        argument: NO_ARGUMENT,
        index: 0,
    };
    match output_of(alloc, files, diagnostic, config) {
        Ok(output) => {
            let mut written = 0;
            let status = copy_out(output.as_slice(), out, &mut written);
            Outcome {
                status,
                written,
                detail,
            }
        }
        Err(OutOfMemory) => Outcome {
            status: OUT_OF_MEMORY,
            written: 0,
            detail,
        },
    }
}

/// Returns the bytes of the output that valid arguments request.
fn output_of(
    alloc: Global,
    files: &[RawFile<'_>],
    diagnostic: &RawDiagnostic<'_>,
    config: &RawConfig<'_>,
) -> Result<Vec<u8>, OutOfMemory>
    requires { AreValid files.now diagnostic.now config.now }
    ensures value { IfOk result (λ output.
        output.items ≡ output_bytes files.now diagnostic.now config.now) }
    ensures means { IfOk result (λ _. config.now.display_style ≡ 0
        → Means files.now diagnostic.now config.now) }
{
    let settings = convert_config(config);
    let database = convert_files(alloc, files)?;
    let diagnostic = convert_diagnostic(alloc, files, diagnostic)?;
    render(alloc, &settings, &database, &diagnostic)
}
