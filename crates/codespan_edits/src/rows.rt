//! The diff that edits make.

ghost use Rattle.std.specs.Prelude.{All, ◌<◌, ◌≡◌, ◌≤◌, ◌++◌, ◌∷◌, []};
ghost use Rattle.std.specs.Prelude.{List, IfOk, OnErr, IsErrOf, length, map};
ghost use Rattle.std.specs.List.{flat_map};
ghost use Rattle.codespan_edits.specs.Edits.{text_edits};
ghost use Rattle.codespan_edits.specs.Faults.{fault, FailsBy};
ghost use Rattle.codespan_edits.specs.Diffs.{Change, lines, diff_rows, rows_with, block_rows};
ghost use Rattle.codespan_edits.specs.Diffs.{common_start, common_end, kept, blocks_from};
ghost use Rattle.codespan_edits.specs.Diffs.{no_change, pieces_from};
ghost use Rattle.codespan_edits.specs.Private.Places.{edits_at, FitFrom};
ghost use Rattle.codespan_edits.specs.DiffLaws.{is_changed};
ghost use Rattle.codespan_edits.specs.Numbers.{is_old, is_new, numbered};
ghost use Rattle.codespan_edits.specs.Private.Differs.{all_rows};
ghost use Rattle.codespan_edits.specs.RowViews.{rows_view, numbered_view};

use crate::edit::Edit;
use crate::error::EditError;
use crate::lines::{is_whole_text, lines_of};
use crate::numbers::number_rows;
use crate::order::{Place, places_in_order};
use std::alloc::Global;

/// What a row of a diff does.
#[derive(Clone, Copy, Debug, PartialEq, Eq)]
pub enum RowSign {
    /// Its line is in both texts.
    Kept,
    /// Its line is in the old text alone.
    Removed,
    /// Its line is in the new text alone.
    Added,
}

impl RowSign {
    /// Returns whether the line is in the old text.
    pub fn is_old(self) -> bool
        ensures { result ≡ is_old self }
    {
        match self {
            RowSign::Kept | RowSign::Removed => true,
            RowSign::Added => false,
        }
    }

    /// Returns whether the line is in the new text.
    pub fn is_new(self) -> bool
        ensures { result ≡ is_new self }
    {
        match self {
            RowSign::Kept | RowSign::Added => true,
            RowSign::Removed => false,
        }
    }

    /// Returns whether the line is in one of the two texts alone.
    pub fn is_changed(self) -> bool
        ensures { result ≡ is_changed self }
    {
        match self {
            RowSign::Kept => false,
            RowSign::Removed | RowSign::Added => true,
        }
    }
}

/// A row of a diff.
#[derive(Debug, Drop, PartialEq, Eq)]
pub struct DiffRow {
    /// In which of the texts the line is.
    pub sign: RowSign,
    /// The line, with its newline. Only the last line of a text may have none.
    pub line: String,
    /// The number of the line in the old text, from 1, if it is in that text.
    pub old_number: Option<usize>,
    /// The number of the line in the new text, from 1, if it is in that text.
    pub new_number: Option<usize>,
}

/// Returns the rows of the diff that edits make of a text: the lines of the source, but for the
/// added ones, and those of the text after the edits, but for the removed ones. Each row has the
/// numbers of its line in the texts that it is in.
///
/// # Errors
///
/// Those of [`apply_edits`](crate::apply_edits).
///
/// # Examples
///
/// ```rust
/// let edits = [Edit::new(alloc, (), 7..7, "use b;\n")?];
/// let rows = diff(alloc, "use a;\nfn f() {}\n", &edits)?;
/// assert_eq!(rt; (rows[1].sign, rows[1].line.as_str()), (RowSign::Added, "use b;\n"));
/// assert_eq!(rt; (rows[2].old_number, rows[2].new_number), (Some(2), Some(3)));
/// ```
pub fn diff<FileId>(
    alloc: Global,
    source: &str,
    edits: &[Edit<FileId>],
) -> Result<Vec<DiffRow>, EditError>
    ensures rows { IfOk result (λ rows.
        rows_view rows ≡ diff_rows source.now (text_edits edits.now)) }
    ensures numbers { IfOk result (λ rows.
        numbered_view rows ≡ numbered (diff_rows source.now (text_edits edits.now))) }
    ensures failed { FailsBy (fault source.now (text_edits edits.now)) result }
{
    let places = places_in_order(alloc, source, edits)?;
    let mut rows = collect_rows(alloc, source, edits, &places)?;
    number_rows(&mut rows);
    Ok(rows)
}

/// Returns the rows of the edits that have these places.
fn collect_rows<FileId>(
    alloc: Global,
    source: &str,
    edits: &[Edit<FileId>],
    places: &[Place],
) -> Result<Vec<DiffRow>, EditError>
    requires fit { FitFrom source.now 0 (edits_at (text_edits edits.now) places.now) }
    requires listed { All (λ place. place.index < length edits.now) places.now }
    ensures rows { IfOk result (λ rows. rows_view rows
        ≡ flat_map block_rows (blocks_from no_change
        (pieces_from source.now 0 (edits_at (text_edits edits.now) places.now)))) }
    ensures failed { OnErr result (IsErrOf result EditError.OutOfMemory) }
{
    let mut differ = Differ {
        rows: Vec::new(alloc),
        before: String::new(alloc),
        after: String::new(alloc),
    };
    let mut byte = 0;
    for place in places {
        differ.keep(alloc, &source[byte..place.start])?;
        let replaced = &source[place.start..place.end];
        differ.push(alloc, replaced, &edits[place.index].replacement)?;
        byte = place.end;
    }
    differ.keep(alloc, &source[byte..])?;
    differ.finish(alloc)
}

/// The rows of the blocks so far, and the two texts of the pieces that are held for the next one.
#[derive(Drop)]
struct Differ {
    rows: Vec<DiffRow>,
    before: String,
    after: String,
}

impl Differ {
    /// Takes the lines of a text that is kept.
    fn keep(&mut self, alloc: Global, text: &str) -> Result<(), EditError>
        ensures rows { IfOk result (λ _. (ps : List Change) →
            all_rows self.new ps ≡ all_rows self.old (map kept (lines text.now) ++ ps)) }
        ensures failed { OnErr result (IsErrOf result EditError.OutOfMemory) }
    {
        let lines = lines_of(alloc, text)?;
        for line in &lines {
            self.keep_line(alloc, line)?;
        }
        Ok(())
    }

    /// Takes a line that is kept. It is a row as it is, where nothing is held and it is whole.
    #[inline(always)]
    fn keep_line(&mut self, alloc: Global, line: &str) -> Result<(), EditError>
        requires { lines line.now ≡ line.now ∷ [] }
        ensures rows { IfOk result (λ _. (ps : List Change) →
            all_rows self.new ps ≡ all_rows self.old (kept line.now ∷ ps)) }
        ensures failed { OnErr result (IsErrOf result EditError.OutOfMemory) }
    {
        if is_whole_text(line)
            && self.before.as_str().is_empty()
            && self.after.as_str().is_empty()
        {
            push_row(alloc, &mut self.rows, RowSign::Kept, line)
        } else {
            self.push(alloc, line, line)
        }
    }

    /// Takes a piece: a text, and what it is after the edits.
    fn push(&mut self, alloc: Global, old: &str, new: &str) -> Result<(), EditError>
        ensures rows { IfOk result (λ _. (ps : List Change) → all_rows self.new ps
            ≡ all_rows self.old (record { old = old.now; new = new.now } ∷ ps)) }
        ensures failed { OnErr result (IsErrOf result EditError.OutOfMemory) }
    {
        self.before.push_str(old)?;
        self.after.push_str(new)?;
        if is_whole_text(&self.before) && is_whole_text(&self.after) {
            push_block(alloc, &mut self.rows, &self.before, &self.after)?;
            self.before.clear();
            self.after.clear();
        }
        Ok(())
    }

    /// Returns all rows.
    fn finish(mut self, alloc: Global) -> Result<Vec<DiffRow>, EditError>
        ensures rows { IfOk result (λ rows. rows_view rows ≡ all_rows self []) }
        ensures failed { OnErr result (IsErrOf result EditError.OutOfMemory) }
    {
        push_block(alloc, &mut self.rows, &self.before, &self.after)?;
        Ok(self.rows)
    }
}

/// Adds the rows of a block.
fn push_block(alloc: Global, rows: &mut Vec<DiffRow>, old: &str, new: &str) -> Result<(), EditError>
    ensures rows { IfOk result (λ _. rows_view rows.new
        ≡ rows_view rows.old ++ block_rows (record { old = old.now; new = new.now })) }
    ensures failed { OnErr result (IsErrOf result EditError.OutOfMemory) }
{
    let old_lines = lines_of(alloc, old)?;
    let new_lines = lines_of(alloc, new)?;
    let start = count_start(&old_lines, &new_lines);
    push_rows(alloc, rows, RowSign::Kept, &old_lines[..start])?;
    let old_rest = &old_lines[start..];
    let new_rest = &new_lines[start..];
    let end = count_end(old_rest, new_rest);
    let old_end = old_rest.len() - end;
    push_rows(alloc, rows, RowSign::Removed, &old_rest[..old_end])?;
    push_rows(
        alloc,
        rows,
        RowSign::Added,
        &new_rest[..new_rest.len() - end],
    )?;
    push_rows(alloc, rows, RowSign::Kept, &old_rest[old_end..])?;
    Ok(())
}

/// Adds rows with one sign.
fn push_rows(
    alloc: Global,
    rows: &mut Vec<DiffRow>,
    sign: RowSign,
    lines: &[&str],
) -> Result<(), EditError>
    ensures rows { IfOk result (λ _. rows_view rows.new
        ≡ rows_view rows.old ++ rows_with sign (map (λ l. l.now) lines.now)) }
    ensures failed { OnErr result (IsErrOf result EditError.OutOfMemory) }
{
    for line in lines {
        push_row(alloc, rows, sign, line)?;
    }
    Ok(())
}

/// Adds a row.
fn push_row(
    alloc: Global,
    rows: &mut Vec<DiffRow>,
    sign: RowSign,
    line: &str,
) -> Result<(), EditError>
    ensures rows { IfOk result (λ _. rows_view rows.new
        ≡ rows_view rows.old ++ (record { sign = sign; line = line.now }) ∷ []) }
    ensures failed { OnErr result (IsErrOf result EditError.OutOfMemory) }
{
    rows.push(DiffRow {
        sign,
        line: String::from_str(alloc, line)?,
        old_number: None,
        new_number: None,
    })?;
    Ok(())
}

/// Returns how many lines two lists have in common at the start.
pub(crate) fn count_start(old: &[&str], new: &[&str]) -> usize
    ensures of_old { result ≤ length old.now }
    ensures of_new { result ≤ length new.now }
    ensures count { result
        ≡ common_start (map (λ l. l.now) old.now) (map (λ l. l.now) new.now) }
{
    let limit = old.len().min(new.len());
    for count in 0..limit {
        if old[count] != new[count] {
            return count;
        }
    }
    limit
}

/// Returns how many lines two lists have in common at the end.
pub(crate) fn count_end(old: &[&str], new: &[&str]) -> usize
    ensures of_old { result ≤ length old.now }
    ensures of_new { result ≤ length new.now }
    ensures count { result ≡ common_end (map (λ l. l.now) old.now) (map (λ l. l.now) new.now) }
{
    let limit = old.len().min(new.len());
    for count in 0..limit {
        if old[old.len() - 1 - count] != new[new.len() - 1 - count] {
            return count;
        }
    }
    limit
}
