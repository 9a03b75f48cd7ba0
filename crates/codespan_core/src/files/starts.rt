//! The iterator over the line starts of a text.
ghost use Rattle.std.specs.Prelude.{◌≡◌, ◌≢◌, ◌+◌, ◌-◌, ◌≤◌, []};
ghost use Rattle.std.specs.Prelude.{◌∷◌, length, map};
ghost use Rattle.std.specs.Simd.Lanes.{chunk, mask_l};
ghost use Rattle.codespan_core.specs.Lines.{is_newline};

use crate::files::newline::find_newlines;

/// An iterator over the byte indices at which the lines of a text start, from 0, in ascending
/// order.
///
/// Returned by [`line_starts`](codespan_reporting::files::line_starts). It ends, by the law
/// [`codespan_base::laws::line_starts_end`].
#[derive(Debug, Drop)]
pub struct LineStarts<'a> {
    source: &'a str,
    // The byte index before which there is no newline that has not been returned.
    at: usize,
    // Whether the first start has been returned.
    started: bool,
    // The byte index up to which newlines have been searched for.
    searched: usize,
    // The newlines between `at` and `searched`: bit k is set where the byte at `at + k` is one.
    mask: u64,
    ghost within: { searched ≤ length source.now },
    ghost ordered: { at ≤ searched },
    ghost near: { searched ≤ at + 32 },
    ghost masked: { mask ≡ mask_l (map is_newline (chunk at (searched - at) source.now)) },
}

impl<'a> LineStarts<'a> {
    ghost use Rattle.codespan_core.specs.Lines.{line_starts_of};
    ghost use Rattle.codespan_core.specs.LineStarts.{starts_left, remaining_starts};

    /// Returns an iterator over all line starts of the text.
    pub(super) fn new(source: &'a str) -> Self
        ensures { remaining_starts result ≡ line_starts_of source.now }
    {
        LineStarts {
            source,
            at: 0,
            started: false,
            searched: 0,
            mask: 0,
        }
    }

    /// Searches for the next newlines, where all that were found have been returned.
    fn search(&mut self)
        requires { self.old.mask ≡ 0 }
        ensures started { self.new.started ≡ self.old.started }
        ensures kept { starts_left self.new ≡ starts_left self.old }
        ensures ended { self.new.mask ≡ 0 → starts_left self.new ≡ [] }
    {
        let found = find_newlines(self.source.as_bytes(), self.searched);
        self.at = found.start;
        self.searched = found.end;
        self.mask = found.mask;
    }

    /// Removes the first newline from the mask, and returns the index after it.
    fn take_newline(&mut self) -> usize
        requires { self.old.mask ≢ 0 }
        ensures started { self.new.started ≡ self.old.started }
        ensures first { starts_left self.old ≡ result ∷ starts_left self.new }
    {
        let before = self.mask.trailing_zeros();
        self.at += before as usize + 1;
        self.mask = self.mask >> before >> 1;
        self.at
    }
}

impl<'a> Iterator for LineStarts<'a> {
    ghost use Rattle.std.specs.Iterator.{YieldsFirst, item_count};
    ghost use Rattle.codespan_core.specs.LineStarts.{remaining_starts};

    /// The byte index of a line start.
    type Item = usize;

    ghost next_gives = { YieldsFirst remaining_starts };

    ghost remaining = { item_count remaining_starts };

    fn next(&mut self) -> Option<usize> {
        if !self.started {
            self.started = true;
            return Some(0);
        }
        if self.mask == 0 {
            self.search();
            if self.mask == 0 {
                return None;
            }
        }
        Some(self.take_newline())
    }
}
