//! The search for the next newlines of a text.
ghost use Rattle.std.specs.Prelude.{◌≡◌, ◌≢◌, ◌+◌, ◌-◌, ◌<◌, ◌≤◌};
ghost use Rattle.std.specs.Prelude.{ℕ, length, map, slice_index};
ghost use Rattle.std.specs.Simd.Lanes.{chunk, mask_l};
ghost use Rattle.codespan_core.specs.Lines.{is_newline};

use std::simd::prelude::*;

/// The newlines of a block of at most 32 bytes of a text.
#[derive(Drop)]
pub(super) struct NewlineBlock {
    /// The byte index at which the block starts.
    pub(super) start: usize,
    /// The byte index at which it ends.
    pub(super) end: usize,
    /// Its newlines: bit k is set where the byte at `start + k` is one.
    pub(super) mask: u64,
}

/// Returns the newlines of the first block that has one, of the blocks of 32 bytes from `from` on,
/// or those of the bytes after these blocks, where none has one.
pub(super) fn find_newlines(bytes: &[u8], from: usize) -> NewlineBlock
    requires { from ≤ length bytes.now }
    ensures low { from ≤ result.start }
    ensures ordered { result.start ≤ result.end }
    ensures high { result.end ≤ length bytes.now }
    ensures near { result.end ≤ result.start + 32 }
    ensures before { (i : ℕ) → from ≤ i → i < result.start
        → slice_index bytes.now i ≢ 10 }
    ensures mask { result.mask ≡ mask_l
        (map is_newline (chunk result.start (result.end - result.start) bytes.now)) }
    ensures last { result.mask ≡ 0 → result.end ≡ length bytes.now }
{
    let mut start = from;
    while bytes.len() - start >= 32 {
        let mask = block_mask(bytes, start);
        if mask != 0 {
            return NewlineBlock {
                start,
                end: start + 32,
                mask,
            };
        }
        start += 32;
    }
    NewlineBlock {
        start,
        end: bytes.len(),
        mask: tail_mask(bytes, start),
    }
}

/// Returns the mask of the newlines in the block of 32 bytes that begins at `from`: bit k is set
/// where the byte at `from + k` is one.
fn block_mask(bytes: &[u8], from: usize) -> u64
    requires { from + 32 ≤ length bytes.now }
    ensures { result ≡ mask_l (map is_newline (chunk from 32 bytes.now)) }
{
    u8x32::from_slice(&bytes[from..])
        .simd_eq(u8x32::splat(b'\n'))
        .to_bitmask()
}

/// Returns the mask of the newlines in the bytes from `from` on, at most 32.
fn tail_mask(bytes: &[u8], from: usize) -> u64
    requires within { from ≤ length bytes.now }
    requires few { length bytes.now ≤ from + 32 }
    ensures { result ≡ mask_l (map is_newline (chunk from (length bytes.now - from) bytes.now)) }
{
    let mut mask = 0;
    let mut i = bytes.len();
    while i > from {
        i -= 1;
        mask = mask * 2 + u64::from(bytes[i] == b'\n');
    }
    mask
}
