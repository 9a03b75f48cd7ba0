//! Ranges of a file, from spans of bytes and back.

ghost use Rattle.std.specs.Prelude.{◌≡◌, IfOk};
ghost use Rattle.codespan_base.specs.LawfulFiles.{FailsBy};
ghost use Rattle.codespan_lsp.specs.Ranges.{ordered_span, range_of, range_failure, IsSpanOf};
ghost use Rattle.codespan_lsp.specs.Ranges.{span_failure};
ghost use Rattle.codespan_lsp.specs.declared.encoding.PositionEncoding.TheVariants.{Utf16};

use crate::encoding::PositionEncoding;
use crate::positions::Position;
use codespan_base::files::{Error, Files};
use std::ops;

/// A range of a file, between two positions.
#[derive(Clone, Copy, Debug, PartialEq, Eq)]
pub struct Range {
    /// The position at which it starts.
    pub start: Position,
    /// The position at which it ends. What is after it is not part of the range.
    pub end: Position,
}

impl PositionEncoding {
    /// Returns the range of a span of bytes, as [`byte_span_to_range`] does, in this encoding.
    ///
    /// # Errors
    ///
    /// Those of [`byte_span_to_range`].
    pub fn byte_span_to_range<'files, F: Files<'files>>(
        self,
        files: &'files F,
        id: F::FileId,
        span: ops::Range<usize>,
    ) -> Result<Range, Error>
        ensures value { IfOk result (λ range.
            range ≡ range_of self ((F.database files.now).file id) span) }
        ensures failed { let database = F.database files.now in
            FailsBy (range_failure self (database.file id) (database.failure id) span) result }
    {
        Ok(Range {
            start: self.byte_index_to_position(files, id, span.start)?,
            end: self.byte_index_to_position(files, id, span.end)?,
        })
    }

    /// Returns the span of bytes of a range, as [`range_to_byte_span`] does, in this encoding.
    ///
    /// # Errors
    ///
    /// Those of [`range_to_byte_span`].
    pub fn range_to_byte_span<'files, F: Files<'files>>(
        self,
        files: &'files F,
        id: F::FileId,
        range: &Range,
    ) -> Result<ops::Range<usize>, Error>
        ensures value { IfOk result (IsSpanOf self ((F.database files.now).file id) range.now) }
        ensures failed { let database = F.database files.now in
            FailsBy (span_failure self (database.file id) (database.failure id) range.now) result }
    {
        let start = self.position_to_byte_index(files, id, &range.start)?;
        let end = self.position_to_byte_index(files, id, &range.end)?;
        Ok(start..end)
    }
}

/// Returns a span of bytes from the lesser of its ends to the greater.
pub(crate) fn ordered_span(span: &ops::Range<usize>) -> ops::Range<usize>
    ensures { result ≡ ordered_span span.now }
{
    span.start.min(span.end)..span.start.max(span.end)
}

/// Returns the range of a span of bytes of a file; each `character` of it counts UTF-16 code units.
/// The span is in bytes of the text, from 0, with an exclusive end. The ends keep their order: of a
/// span that starts after its end the range does too, which the protocol does not allow.
///
/// # Errors
///
/// That of [`byte_index_to_position`](crate::byte_index_to_position) of the start, then of the end.
pub fn byte_span_to_range<'files, F: Files<'files>>(
    files: &'files F,
    id: F::FileId,
    span: ops::Range<usize>,
) -> Result<Range, Error>
    ensures value { IfOk result (λ range.
        range ≡ range_of Utf16 ((F.database files.now).file id) span) }
    ensures failed { let database = F.database files.now in
        FailsBy (range_failure Utf16 (database.file id) (database.failure id) span) result }
{
    PositionEncoding::Utf16.byte_span_to_range(files, id, span)
}

/// Returns the span of bytes of a range of a file, each `character` of which counts UTF-16 code
/// units. The span is in bytes of the text, from 0, with an exclusive end; its start is after its
/// end where that of the range is.
///
/// # Errors
///
/// That of [`position_to_byte_index`](crate::position_to_byte_index) of the start, then of the end.
pub fn range_to_byte_span<'files, F: Files<'files>>(
    files: &'files F,
    id: F::FileId,
    range: &Range,
) -> Result<ops::Range<usize>, Error>
    ensures value { IfOk result (IsSpanOf Utf16 ((F.database files.now).file id) range.now) }
    ensures failed { let database = F.database files.now in
        FailsBy (span_failure Utf16 (database.file id) (database.failure id) range.now) result }
{
    PositionEncoding::Utf16.range_to_byte_span(files, id, range)
}
