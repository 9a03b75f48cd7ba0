//! The caller's buffer.

ghost use Rattle.std.specs.Prelude.{◌≡◌, ◌≤◌, length};
ghost use Rattle.codespan_native.specs.Results.{IsTooSmall, IsWritten};
ghost use Rattle.codespan_native.specs.Statuses.{OK, TOO_SMALL};

use crate::status::{OK, TOO_SMALL};

/// Copies the bytes to the front of `out` where they fit, and sets `written` to their number.
/// Returns [`OK`], or [`TOO_SMALL`] and leaves `out` unchanged.
pub fn copy_out(bytes: &[u8], out: &mut [u8], written: &mut usize) -> u32
    ensures ok { result ≡ OK → IsWritten bytes.now out.old out.new written.new }
    ensures too_small { result ≡ TOO_SMALL → IsTooSmall bytes.now out.old out.new written.new }
    ensures set { written.new ≡ length bytes.now }
    ensures status { result ≤ TOO_SMALL }
{
    let length = bytes.len();
    *written = length;
    if length > out.len() {
        return TOO_SMALL;
    }
    out[..length].copy_from_slice(bytes);
    OK
}
