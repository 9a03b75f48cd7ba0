//! What is collected of all labels, and looked up before the header: the annotations, in one
//! vector, the files of the labels with their loci, and the numbers of filled lines.

ghost use Rattle.codespan_core.specs.LawfulFiles.{FailsBy};
ghost use Rattle.codespan_output.specs.Lookups.{first_error};
ghost use Rattle.codespan_output.specs.OutputStreams.{label_of};
ghost use Rattle.codespan_views.specs.Private.Annotations.{IsLineOf, IsOfFiles, annotation_view};
ghost use Rattle.codespan_views.specs.Private.Annotations.{is_before};
ghost use Rattle.codespan_views.specs.Private.Collections.{IsCollected, all_digit_counts};
ghost use Rattle.codespan_views.specs.Private.EarlyLookups.{KeepsLabels, digit_counts_of};
ghost use Rattle.codespan_views.specs.Private.EarlyLookups.{digits_of_files, early_failure};
ghost use Rattle.codespan_views.specs.Private.EarlyLookups.{known_numbers_of_files};
ghost use Rattle.codespan_views.specs.Private.EarlyLookups.{number_lookups_of_files, numbers_of};
ghost use Rattle.codespan_views.specs.Private.EarlyLookups.{numbers_of_files, padding_by_layout};
ghost use Rattle.codespan_views.specs.Private.LabeledFiles.{ids_view};
ghost use Rattle.codespan_views.specs.Private.LabelsToCollect.{labels_failure};
ghost use Rattle.codespan_views.specs.Private.Loci.{HasLocus, locus_lookups_of_files};
ghost use Rattle.codespan_views.specs.Private.SnippetLines.{number_lookups, drawn_lines_of};
ghost use Rattle.codespan_views.specs.Private.SnippetLines.{filled_lines_of, lines_of};
ghost use Rattle.codespan_views.specs.Private.SourceFiles.{FailsByOrFormatError, failure_of};
ghost use Rattle.codespan_views.specs.Private.SourceFiles.{model_of};
ghost use Rattle.std.specs.List.{AllByRecursion};
ghost use Rattle.std.specs.List.Sorted.{IsSortedBy};
ghost use Rattle.std.specs.Prelude.{All, IfOk, OnOk, fold, map, max, ◌++◌, ◌≡◌};

use crate::annotation::order::put_in_order;
use crate::annotation::{Annotation, count_in_file, count_on_line, lines_between, shows_line};
use crate::label_annotations::LabelCollector;
use crate::label_span::label_span;
use crate::labeled_files::{LabeledFile, get_or_insert_file};
use crate::source_file::SourceFile;
use codespan_core::diagnostic::Label;
use codespan_core::files::{Error, Files};
use codespan_core::term::{Config, Layout};
use codespan_output::padding::PaddingWidth;
use std::alloc::Global;

/// What was collected of the labels of a diagnostic.
#[derive(Drop)]
pub struct Collected<'d, FileId> {
    /// The labels' files, in the order of their first labels.
    pub files: Vec<LabeledFile<FileId>>,
    /// Their annotations, in order once [`collect`] returns.
    pub annotations: Vec<Annotation<'d, FileId>>,
    /// The padding width: the number of digits of the longest number of a line that a label spans,
    /// and, once filled lines are looked up in the unbroken layout, of a drawn line; 0 without such
    /// a line.
    pub padding: PaddingWidth,
}

/// Looks up the lines of all labels, and returns their annotations in order.
///
/// # Errors
///
/// - `OutOfMemory`: an allocation fails, or a lookup fails with it.
/// - Any other error: that of the first lookup that fails.
#[inline(never)]
pub fn collect<'files, 'd, F: Files<'files>>(
    alloc: Global,
    files: &'files F,
    config: &Config<'_>,
    labels: &'d [Label<F::FileId>],
) -> Result<Collected<'d, F::FileId>, Error>
    ensures collected { IfOk result (IsCollected (F.database files.now) config.now
        (map label_of labels.now)) }
    ensures padding { IfOk result (λ collected. collected.padding.digit_count
        ≡ fold max 0 (all_digit_counts (F.database files.now).file (map label_of labels.now))) }
    ensures failed { FailsBy (labels_failure config.now (F.database files.now)
        (map label_of labels.now)) result }
{
    let mut collected = Collected {
        files: Vec::new(alloc),
        annotations: Vec::with_capacity(alloc, labels.len())?,
        padding: PaddingWidth::with_digit_count(0),
    };
    let mut previous = 0;
    let (mut first, mut last) = (usize::MAX, 0);
    for (index, label) in labels.iter().enumerate() {
        let file_index = get_or_insert_file(&mut collected.files, previous, label.file_id)?;
        let span = label_span(files, label)?;
        collected
            .annotations
            .reserve(span.annotation_capacity(config))?;
        let collector = LabelCollector {
            label,
            file: SourceFile {
                files,
                file_id: label.file_id,
            },
            config,
            file_index,
            index,
            lane: collected.files[file_index].num_multi_labels,
            span,
        };
        collector.collect_lines(&mut collected)?;
        collected.files[file_index].add(label, span);
        previous = file_index;
        if file_index == 0 {
            first = span.first.min(first);
            last = span.last.max(last);
        }
    }
    let start = first.saturating_sub(config.before_label_lines);
    let end = last.saturating_add(config.after_label_lines);
    let has_one_file = collected.files.len() == 1;
    let lines = has_one_file.then_some(start..end.saturating_add(1));
    put_in_order(&mut collected.annotations, lines)?;
    Ok(collected)
}

/// Looks up the numbers of the filled lines of all files in the unbroken layout, where the padding
/// width depends on them, and then the locus of each file, which the file keeps.
///
/// Returns the numbers, those of the first file in front; none in the classic layout.
///
/// # Errors
///
/// - `FormatError`: the `Display` of a name fails, or a lookup fails with it.
/// - `OutOfMemory`: an allocation fails, or a lookup fails with it.
/// - Any other error: that of the first lookup that fails.
///
/// # Requires
///
/// The annotations are in order, and their lines are lines of their files.
pub fn look_up_early<'files, 'd, F: Files<'files>>(
    alloc: Global,
    files: &'files F,
    layout: Layout,
    collected: &mut Collected<'d, F::FileId>,
) -> Result<Vec<usize>, Error>
    requires sorted { IsSortedBy is_before (map annotation_view collected.old.annotations.items) }
    requires lines { AllByRecursion (IsOfFiles (F.database files.now).file
        (ids_view collected.old.files.items)) collected.old.annotations.items }
    ensures numbers { IfOk result (λ numbers. numbers.items
        ≡ known_numbers_of_files layout (F.database files.now).file collected.old) }
    ensures padding { OnOk result (collected.new.padding.digit_count
        ≡ padding_by_layout layout (F.database files.now).file collected.old) }
    ensures loci { OnOk result (AllByRecursion (HasLocus (F.database files.now).file)
        collected.new.files.items) }
    ensures files { OnOk result (KeepsLabels collected.old.files.items collected.new.files.items) }
    ensures annotations { OnOk result (collected.new.annotations ≡ collected.old.annotations) }
    ensures failed { FailsByOrFormatError
        (early_failure layout (F.database files.now).failure collected.old) result }
{
    let mut numbers = Vec::new(alloc);
    if let Layout::Unbroken = layout {
        find_numbers(files, collected, &mut numbers)?;
    }
    find_loci(alloc, files, &mut collected.files)?;
    Ok(numbers)
}

/// Looks up the numbers of the filled lines of all files, in their order, and appends them. Sets
/// the padding width to that of all drawn lines.
///
/// # Errors
///
/// - `OutOfMemory`: an allocation fails, or a lookup fails with it.
/// - Any other error: that of the first lookup that fails.
///
/// # Requires
///
/// The annotations are in order, and their lines are lines of their files.
fn find_numbers<'files, 'd, F: Files<'files>>(
    files: &'files F,
    collected: &mut Collected<'d, F::FileId>,
    numbers: &mut Vec<usize>,
) -> Result<(), Error>
    requires sorted { IsSortedBy is_before (map annotation_view collected.old.annotations.items) }
    requires lines { AllByRecursion (IsOfFiles (F.database files.now).file
        (ids_view collected.old.files.items)) collected.old.annotations.items }
    ensures numbers { OnOk result (numbers.new.items ≡ numbers.old.items
        ++ numbers_of_files (F.database files.now).file collected.old) }
    ensures padding { OnOk result (collected.new.padding.digit_count
        ≡ fold max 0 (digits_of_files (F.database files.now).file collected.old)) }
    ensures files { collected.new.files ≡ collected.old.files }
    ensures annotations { collected.new.annotations ≡ collected.old.annotations }
    ensures failed { FailsBy (first_error (F.database files.now).failure
        (number_lookups_of_files collected.old)) result }
{
    collected.padding = PaddingWidth::with_digit_count(0);
    let mut start = 0;
    for (index, labeled) in collected.files.iter().enumerate() {
        let len = count_in_file(&collected.annotations[start..], index);
        let own_annotations = &collected.annotations[start..start + len];
        start += len;
        let file = SourceFile {
            files,
            file_id: labeled.file_id,
        };
        find_numbers_of_file(&file, own_annotations, numbers, &mut collected.padding)?;
    }
    Ok(())
}

/// Looks up the numbers of the filled lines of a file, which has these annotations, appends them,
/// and widens the padding to the numbers of the file's drawn lines.
///
/// # Errors
///
/// - `OutOfMemory`: an allocation fails, or a lookup fails with it.
/// - Any other error: that of the first lookup that fails.
///
/// # Requires
///
/// The lines of the annotations are lines of the file.
fn find_numbers_of_file<'files, 'd, F: Files<'files>>(
    file: &SourceFile<'files, F>,
    annotations: &[Annotation<'d, F::FileId>],
    numbers: &mut Vec<usize>,
    padding: &mut PaddingWidth,
) -> Result<(), Error>
    requires lines { All (λ annotation. IsLineOf (model_of F.database file.now) annotation.line)
        annotations.now }
    ensures numbers { OnOk result (numbers.new.items ≡ numbers.old.items
        ++ numbers_of (model_of F.database file.now)
        (filled_lines_of (lines_of (map annotation_view annotations.now)))) }
    ensures padding { OnOk result (padding.new.digit_count ≡ fold max padding.old.digit_count
        (digit_counts_of (model_of F.database file.now)
        (drawn_lines_of (lines_of (map annotation_view annotations.now))))) }
    ensures failed { FailsBy (failure_of F.database file.now
        (number_lookups (filled_lines_of (lines_of (map annotation_view annotations.now)))))
        result }
{
    let mut previous = None;
    let mut rest = annotations;
    while let Some(first) = rest.first() {
        let line = first.line;
        let later = &rest[count_on_line(rest, line.index)..];
        if shows_line(first) {
            if lines_between(previous, line.index) == 1 {
                let number = file.number(line.index - 1)?;
                numbers.push(number)?;
                padding.fit(number);
            }
            padding.fit(line.number);
            previous = Some(line.index);
        }
        rest = later;
    }
    Ok(())
}

/// Looks up the locus of each file: its name, and the location of the byte at which its snippet
/// starts.
///
/// # Errors
///
/// As [`SourceFile::locus`], of the first file whose locus fails.
fn find_loci<'files, F: Files<'files>>(
    alloc: Global,
    files: &'files F,
    labeled_files: &mut Vec<LabeledFile<F::FileId>>,
) -> Result<(), Error>
    ensures loci { OnOk result (AllByRecursion (HasLocus (F.database files.now).file)
        labeled_files.new.items) }
    ensures files { OnOk result (KeepsLabels labeled_files.old.items labeled_files.new.items) }
    ensures failed { FailsByOrFormatError (first_error (F.database files.now).failure
        (locus_lookups_of_files labeled_files.old.items)) result }
{
    for index in 0..labeled_files.len() {
        let file = SourceFile {
            files,
            file_id: labeled_files[index].file_id,
        };
        let byte_index = labeled_files[index].least_starts.locus_byte();
        labeled_files[index].locus = file.locus(alloc, byte_index)?;
    }
    Ok(())
}
