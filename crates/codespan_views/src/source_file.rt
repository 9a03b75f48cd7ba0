//! A file of an output, and what is looked up in it.

ghost use Rattle.std.specs.Prelude.{◌≡◌, ◌∷◌, [], None, IfOk, IfSome};
ghost use Rattle.codespan_core.specs.FileModel.Lookup.{LineNumber, LocationAt, Name as NameLookup};
ghost use Rattle.codespan_core.specs.LawfulFiles.{FailsBy};
ghost use Rattle.codespan_output.specs.Arguments.{locus_view};
ghost use Rattle.codespan_output.specs.Lookups.{line_lookups};
ghost use Rattle.codespan_views.specs.Private.Annotations.{IsLineAt};
ghost use Rattle.codespan_views.specs.Private.Loci.{IsUtf8Locus};
ghost use Rattle.codespan_views.specs.Private.SourceFiles.{FailsByOrFormatError, lookups_of_filled};
ghost use Rattle.codespan_views.specs.Private.SourceFiles.{EndsBefore, failure_of};
ghost use Rattle.codespan_views.specs.Private.SourceFiles.{failure_unless_past_end, model_of};

use crate::annotation::LineInfo;
use codespan_core::diagnostic::text::display_text;
use codespan_core::files::{Error, Files};
use codespan_output::arguments::Locus;
use std::alloc::Global;

/// A file of a file database.
#[derive(Drop)]
pub struct SourceFile<'files, F: Files<'files>> {
    /// The file database.
    pub files: &'files F,
    /// The id of the file.
    pub file_id: F::FileId,
}

impl<'files, F: Files<'files>> SourceFile<'files, F> {
    /// Looks up a line by its 0-based index: its range, and then its number, where that is not
    /// known.
    ///
    /// # Errors
    ///
    /// That of the first lookup that fails.
    ///
    /// # Requires
    ///
    /// A known number is that of the line.
    pub fn line(&self, index: usize, number: Option<usize>) -> Result<LineInfo, Error>
        requires number { IfSome number (λ known. known
            ≡ (model_of F.database self.now).line_number index) }
        ensures line { IfOk result (λ line. IsLineAt (model_of F.database self.now) index line) }
        ensures failed { FailsBy (failure_of F.database self.now (lookups_of_filled number index))
            result }
    {
        let range = self.files.line_range(self.file_id, index)?;
        let number = match number {
            Some(number) => number,
            None => self.number(index)?,
        };
        Ok(LineInfo {
            index,
            number,
            start: range.start,
            end: range.end,
        })
    }

    /// Looks up the range and the number of a line. Returns `None` where the range fails with
    /// `LineTooLarge` and the line is after line `last`, the last one of a label: the file has
    /// ended. Both indices are 0-based.
    ///
    /// # Errors
    ///
    /// That of the first lookup that fails.
    pub fn line_unless_past_end(&self, index: usize, last: usize) -> Result<Option<LineInfo>, Error>
        ensures found { IfOk result (λ found. IfSome found
            (λ line. IsLineAt (model_of F.database self.now) index line)) }
        ensures succeeded { IfOk result (λ found. IfSome found
            (λ _. failure_of F.database self.now (line_lookups index) ≡ None)) }
        ensures ended { IfOk result (λ found. found ≡ None
            → EndsBefore F.database self.now index) }
        ensures failed { FailsBy (failure_unless_past_end F.database self.now last index) result }
    {
        let range = match self.files.line_range(self.file_id, index) {
            Ok(range) => range,
            Err(Error::LineTooLarge { .. }) if index > last => return Ok(None),
            Err(error) => return Err(error),
        };
        let number = self.number(index)?;
        Ok(Some(LineInfo {
            index,
            number,
            start: range.start,
            end: range.end,
        }))
    }

    /// Looks up the number of a line by its 0-based index.
    ///
    /// # Errors
    ///
    /// That of the lookup.
    #[inline(always)]
    pub fn number(&self, index: usize) -> Result<usize, Error>
        ensures number { IfOk result (λ number. number
            ≡ (model_of F.database self.now).line_number index) }
        ensures failed { FailsBy (failure_of F.database self.now (LineNumber index ∷ [])) result }
    {
        self.files.line_number(self.file_id, index)
    }

    /// Looks up the name of the file, and the location of a byte index in it, 0-based.
    ///
    /// # Errors
    ///
    /// - `FormatError`: the `Display` of the name fails, or a lookup fails with it.
    /// - `OutOfMemory`: an allocation fails, or a lookup fails with it.
    /// - Any other error: that of the first lookup that fails, the name before the location.
    #[inline(always)]
    pub fn locus(&self, alloc: Global, byte_index: usize) -> Result<Locus, Error>
        ensures locus { IfOk result (λ locus. IsUtf8Locus
            (model_of F.database self.now, byte_index) (locus_view locus)) }
        ensures failed { FailsByOrFormatError (failure_of F.database self.now
            (NameLookup ∷ LocationAt byte_index ∷ [])) result }
    {
        let named = self.files.name(self.file_id)?;
        let name = display_text(alloc, named)?;
        let location = self.files.location(self.file_id, byte_index)?;
        Ok(Locus { name, location })
    }
}
