//! The files of labels, in the order of their first labels, with the least starts of their labels.

ghost use Rattle.codespan_core.specs.Labels.{is_primary};
ghost use Rattle.codespan_output.specs.OutputStreams.{label_of};
ghost use Rattle.codespan_views.specs.Private.LabeledFiles.{AreDistinct, index_of_file, ids_view};
ghost use Rattle.codespan_views.specs.Private.LabeledFiles.{with_file, without_locus};
ghost use Rattle.codespan_views.specs.Private.Loci.{least_starts_with, least_with, locus_byte};
ghost use Rattle.codespan_views.specs.Private.Loci.{no_starts};
ghost use Rattle.std.specs.Prelude.{IfOk, IsErrOf, OnErr, OnOk, if◌then◌else◌, map, ◌+◌};
ghost use Rattle.std.specs.Prelude.{◌<◌, ◌==◌, ◌^◌, ◌≡◌};

use crate::label_span::LabelSpan;
use codespan_core::diagnostic::{Label, LabelStyle};
use codespan_core::files::{Error, Location};
use codespan_output::arguments::Locus;

/// A file with labels.
#[derive(Drop)]
pub struct LabeledFile<FileId> {
    /// The file's id.
    pub file_id: FileId,
    /// The least starts of its labels, from which the byte of its locus is known.
    pub least_starts: LeastStarts,
    /// The number of its multi-line labels, each of which has a lane.
    pub num_multi_labels: usize,
    /// The locus that its snippet starts with; an empty name at 0:0 until it is looked up.
    pub locus: Locus,
}

impl<FileId> LabeledFile<FileId> {
    /// Adds a label of the file. `span` has the lines on which the label starts and ends.
    ///
    /// # Requires
    ///
    /// One more lane can be counted.
    pub fn add(&mut self, label: &Label<FileId>, span: LabelSpan)
        requires { self.old.num_multi_labels + 1 < 2 ^ 64 }
        ensures id { self.new.file_id ≡ self.old.file_id }
        ensures least_starts { self.new.least_starts
            ≡ least_starts_with self.old.least_starts (label_of label.now).label }
        ensures lanes { self.new.num_multi_labels ≡ self.old.num_multi_labels
            + (if span.first == span.last then 0 else 1) }
    {
        self.least_starts = self.least_starts.with(label);
        if !span.is_single() {
            self.num_multi_labels += 1;
        }
    }
}

/// Returns the 0-based index of the file with this id, which is appended without labels if there is
/// none. The file at index `previous`, that of the label before, is compared first.
///
/// # Errors
///
/// `OutOfMemory`: an allocation fails.
///
/// # Requires
///
/// No two files have the same id.
pub fn get_or_insert_file<FileId: Copy + Eq>(
    files: &mut Vec<LabeledFile<FileId>>,
    previous: usize,
    id: FileId,
) -> Result<usize, Error>
    requires { AreDistinct FileId.eq (ids_view files.old.items) }
    ensures index { IfOk result (λ index. index
        ≡ index_of_file FileId.eq (ids_view files.new.items) id) }
    ensures files { OnOk result (map without_locus files.new.items
        ≡ with_file FileId.eq (ids_view files.old.items) id (map without_locus files.old.items)
        (id, no_starts, 0)) }
    ensures failed { OnErr result (IsErrOf result Error.OutOfMemory) }
{
    let index = find_file(files, previous, id);
    if index == files.len() {
        files.push(LabeledFile {
            file_id: id,
            least_starts: LeastStarts {
                primary: None,
                any: None,
            },
            num_multi_labels: 0,
            locus: Locus {
                name: String::new(*files.allocator()),
                location: Location {
                    line_number: 0,
                    column_number: 0,
                },
            },
        })?;
    }
    Ok(index)
}

/// Returns the 0-based index of the file with this id, or the number of files if there is none. The
/// file at index `previous` is compared first. Each iteration compares two files, which takes fewer
/// instructions than one iteration for each.
///
/// # Requires
///
/// No two files have the same id.
fn find_file<FileId: Copy + Eq>(files: &[LabeledFile<FileId>], previous: usize, id: FileId) -> usize
    requires { AreDistinct FileId.eq (ids_view files.now) }
    ensures { result ≡ index_of_file FileId.eq (ids_view files.now) id }
{
    if let Some(file) = files.get(previous)
        && file.file_id == id
    {
        return previous;
    }
    let last = files.len().saturating_sub(1);
    let mut index = 0;
    while index < last {
        if files[index].file_id == id {
            return index;
        }
        let next = index + 1;
        let is_next = files[next].file_id == id;
        if is_next {
            return next;
        }
        index += 2;
    }
    match files.get(index) {
        Some(file) if file.file_id == id => index,
        _ => files.len(),
    }
}

/// Returns whether a label is primary.
pub fn is_primary<FileId>(label: &Label<FileId>) -> bool
    ensures { result ≡ is_primary (label_of label.now).label }
{
    matches!(label.style, LabelStyle::Primary)
}

/// Returns the lesser of a byte index and a known one; the index itself if none is known.
fn least_with(known: Option<usize>, start: usize) -> usize
    ensures { result ≡ least_with known start }
{
    known.map_or(start, |byte| byte.min(start))
}

/// The least starts of a file's labels, by those that were added. Byte indices are 0-based.
#[derive(Clone, Copy)]
pub struct LeastStarts {
    /// The least byte index at which a primary label starts; `None` where none is primary.
    pub primary: Option<usize>,
    /// The least byte index at which any label starts; `None` where there is none.
    pub any: Option<usize>,
}

impl LeastStarts {
    /// Returns those with one more label of the file.
    pub fn with<FileId>(self, label: &Label<FileId>) -> LeastStarts
        ensures { result ≡ least_starts_with self (label_of label.now).label }
    {
        let start = label.range.start;
        let primary = if is_primary(label) {
            Some(least_with(self.primary, start))
        } else {
            self.primary
        };
        LeastStarts {
            primary,
            any: Some(least_with(self.any, start)),
        }
    }

    /// Returns the byte index of the locus: the least start of a primary label, or of any label
    /// where none is primary; 0 without labels.
    pub fn locus_byte(self) -> usize
        ensures { result ≡ locus_byte self }
    {
        self.primary.or(self.any).unwrap_or(0)
    }
}
