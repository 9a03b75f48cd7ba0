//! The hunks of a diff: runs of the rows that are drawn.

ghost use Rattle.std.specs.Prelude.{◌≡◌, ◌≤◌, ◌++◌, ◌+◌, IfOk, ◌∷◌};
ghost use Rattle.std.specs.Prelude.{OnErr, IsErrOf, List, map, ℕ, Bool, true, false, length, min};
ghost use Rattle.std.specs.Prelude.{drop, slice_range, if◌then◌else◌};
ghost use Rattle.codespan_edits.specs.Edits.{text_edits};
ghost use Rattle.codespan_edits.specs.Faults.{fault, FailsBy};
ghost use Rattle.codespan_edits.specs.Diffs.{Row, rows_with};
ghost use Rattle.codespan_edits.specs.DiffLaws.{is_changed};
ghost use Rattle.codespan_edits.specs.Numbers.{is_old, numbered};
ghost use Rattle.codespan_edits.specs.DrawnRows.{hunks_of, last_run, diff_hunks};
ghost use Rattle.codespan_edits.specs.RowViews.{numbered_view, context_view, hunks_view};
ghost use Rattle.codespan_edits.specs.Private.Blocks.{LineBlock, rows_of, FitLines, block_view};
ghost use Rattle.codespan_edits.specs.Private.Hunks.{hunks_with, ArePicked, Cut, Open};
ghost use Rattle.codespan_edits.specs.declared.rows.RowSign.TheVariants.{Kept};

use crate::apply::add_len;
use crate::blocks::{Block, collect_blocks};
use crate::edit::Edit;
use crate::error::EditError;
use crate::lines::lines_of;
use crate::numbers::next_line;
use crate::order::places_in_order;
use crate::rows::{DiffRow, RowSign, count_end, count_start};
use std::alloc::Global;
use std::mem;

/// How many rows are drawn around a changed one.
#[derive(Clone, Copy, Debug, PartialEq, Eq)]
pub struct DiffContext {
    /// How many rows before it.
    pub before: usize,
    /// How many rows after it.
    pub after: usize,
}

/// A run of drawn rows of a diff. It has at least one row.
#[derive(Debug, Drop, PartialEq, Eq)]
pub struct Hunk {
    /// The rows.
    pub rows: Vec<DiffRow>,
}

/// Returns the hunks of the diff that edits make of a text: its removed and added rows, the rows
/// around each by the context, and each single row between two of these. Between two hunks two
/// rows or more are left out. Where no row is removed or added there is no hunk.
///
/// # Errors
///
/// Those of [`apply_edits`](crate::apply_edits).
///
/// # Examples
///
/// ```rust
/// let edits = [Edit::new(alloc, (), 4..5, "C")?];
/// let context = DiffContext { before: 1, after: 0 };
/// let hunks = diff_hunks(alloc, "a\nb\nc\nd\n", &edits, context)?;
/// assert_eq!(rt; hunks[0].rows[0].line.as_str(), "b\n");
/// assert_eq!(rt; hunks[0].rows.len(), 3);
/// ```
pub fn diff_hunks<FileId>(
    alloc: Global,
    source: &str,
    edits: &[Edit<FileId>],
    context: DiffContext,
) -> Result<Vec<Hunk>, EditError>
    ensures hunks { IfOk result (λ hunks. hunks_view hunks
        ≡ diff_hunks (context_view context) source.now (text_edits edits.now)) }
    ensures failed { FailsBy (fault source.now (text_edits edits.now)) result }
{
    let places = places_in_order(alloc, source, edits)?;
    let lines = lines_of(alloc, source)?;
    let blocks = collect_blocks(alloc, source, edits, &places)?;
    cut_hunks(alloc, &lines, &blocks, context)
}

/// Returns the hunks of the rows that blocks make of lines.
fn cut_hunks(
    alloc: Global,
    lines: &[&str],
    blocks: &[Block],
    context: DiffContext,
) -> Result<Vec<Hunk>, EditError>
    requires fit { FitLines (map (λ l. l.now) lines.now) 0 (map block_view blocks.now) }
    ensures hunks { IfOk result (λ hunks. hunks_view hunks
        ≡ hunks_of (context_view context)
        (numbered (rows_of (map (λ l. l.now) lines.now) 0 (map block_view blocks.now)))) }
    ensures failed { OnErr result (IsErrOf result EditError.OutOfMemory) }
{
    let mut cutter = Cutter {
        hunks: Vec::new(alloc),
        run: Vec::new(alloc),
        started: false,
        line: 0,
        new_line: 0,
    };
    for block in blocks {
        cutter.push_block(alloc, lines, block, context)?;
    }
    cutter.finish(alloc, lines, context)
}

/// The hunks so far, and where the rows go on that are to come.
#[derive(Drop)]
struct Cutter {
    hunks: Vec<Hunk>,
    /// The rows of the hunk that goes on.
    run: Vec<DiffRow>,
    /// Whether a row was removed or added. The last one that was is the last row of the run.
    started: bool,
    /// How many old lines and how many new ones come before the rows that are to come.
    line: usize,
    new_line: usize,
}

impl Cutter {
    /// Takes the kept lines before a block, and its rows but for the lines in common at its end.
    fn push_block(
        &mut self,
        alloc: Global,
        lines: &[&str],
        block: &Block,
        context: DiffContext,
    ) -> Result<(), EditError>
        requires from { self.old.line ≤ block.now.first }
        requires ordered { block.now.first ≤ block.now.end }
        requires within { block.now.end ≤ length lines.now }
        ensures line { IfOk result (λ _. self.new.line ≤ block.now.end) }
        ensures cut { IfOk result (λ _. (full : List Row) (bs : List LineBlock)
            → FitLines (map (λ l. l.now) lines.now) block.now.end bs
            → Cut (context_view context) full self.old
            (rows_of (map (λ l. l.now) lines.now) self.old.line (block_view block.now ∷ bs))
            → Cut (context_view context) full self.new
            (rows_of (map (λ l. l.now) lines.now) self.new.line bs)) }
        ensures failed { OnErr result (IsErrOf result EditError.OutOfMemory) }
    {
        let old = &lines[block.first..block.end];
        let new_lines = lines_of(alloc, &block.new)?;
        let start = count_start(old, &new_lines);
        let old_rest = &old[start..];
        let new_rest = &new_lines[start..];
        let end = count_end(old_rest, new_rest);
        let removed = &old_rest[..old_rest.len() - end];
        let added = &new_rest[..new_rest.len() - end];
        if removed.is_empty() && added.is_empty() {
            return Ok(());
        }
        self.skip_to(alloc, lines, block.first + start, context)?;
        self.push_rows(alloc, RowSign::Removed, removed)?;
        self.push_rows(alloc, RowSign::Added, added)?;
        self.started = true;
        Ok(())
    }

    /// Takes the kept lines up to one before which a row is removed or added.
    fn skip_to(
        &mut self,
        alloc: Global,
        lines: &[&str],
        end: usize,
        context: DiffContext,
    ) -> Result<(), EditError>
        requires from { self.old.line ≤ end }
        requires within { end ≤ length lines.now }
        ensures line { IfOk result (λ _. self.new.line ≡ end) }
        ensures started { IfOk result (λ _. self.new.started ≡ self.old.started) }
        ensures cut { IfOk result (λ _. (full : List Row) (r : Row) (rs : List Row)
            → is_changed r.sign ≡ true
            → Cut (context_view context) full self.old
            (rows_with Kept (slice_range (map (λ l. l.now) lines.now) self.old.line end)
            ++ (r ∷ rs))
            → Open (context_view context) full self.new (r ∷ rs)) }
        ensures failed { OnErr result (IsErrOf result EditError.OutOfMemory) }
    {
        let gap = &lines[self.line..end];
        let head = self.count_after(gap.len(), context);
        let rest = gap.len() - head;
        if self.started && rest.saturating_sub(1) <= context.before {
            self.push_rows(alloc, RowSign::Kept, gap)?;
            return Ok(());
        }
        let tail = rest.min(context.before);
        self.push_rows(alloc, RowSign::Kept, &gap[..head])?;
        self.leave_out(alloc, rest - tail)?;
        self.push_rows(alloc, RowSign::Kept, &gap[head + (rest - tail)..])?;
        Ok(())
    }

    /// Returns how many of so many kept lines are drawn after the last changed row.
    fn count_after(&self, lines: usize, context: DiffContext) -> usize
        ensures started { self.now.started ≡ true → result ≡ min lines context.after }
        ensures start { self.now.started ≡ false → result ≡ 0 }
        ensures few { result ≤ lines }
    {
        if self.started {
            lines.min(context.after)
        } else {
            0
        }
    }

    /// Adds rows with one sign to the run.
    fn push_rows(&mut self, alloc: Global, sign: RowSign, lines: &[&str]) -> Result<(), EditError>
        ensures line { IfOk result (λ _. self.new.line
            ≡ self.old.line + (if is_old sign then length lines.now else 0)) }
        ensures started { IfOk result (λ _. self.new.started ≡ self.old.started) }
        ensures rows { IfOk result (λ _. (picks : ℕ → Bool) (k : ℕ) (rs : List Row)
            → ArePicked picks true k (length lines.now)
            → hunks_with self.new picks (k + length lines.now) rs
            ≡ hunks_with self.old picks k (rows_with sign (map (λ l. l.now) lines.now) ++ rs)) }
        ensures failed { OnErr result (IsErrOf result EditError.OutOfMemory) }
    {
        for line in lines {
            self.push_row(alloc, sign, line)?;
        }
        Ok(())
    }

    /// Adds a row to the run.
    fn push_row(&mut self, alloc: Global, sign: RowSign, line: &str) -> Result<(), EditError>
        ensures line { IfOk result (λ _. self.new.line
            ≡ self.old.line + (if is_old sign then 1 else 0)) }
        ensures started { IfOk result (λ _. self.new.started ≡ self.old.started) }
        ensures rows { IfOk result (λ _. (picks : ℕ → Bool) (k : ℕ) (rs : List Row)
            → picks k ≡ true
            → hunks_with self.new picks (k + 1) rs
            ≡ hunks_with self.old picks k ((record { sign = sign; line = line.now }) ∷ rs)) }
        ensures failed { OnErr result (IsErrOf result EditError.OutOfMemory) }
    {
        let old_number = next_line(&mut self.line, sign.is_old())?;
        let new_number = next_line(&mut self.new_line, sign.is_new())?;
        self.run.push(DiffRow {
            sign,
            line: String::from_str(alloc, line)?,
            old_number,
            new_number,
        })?;
        Ok(())
    }

    /// Leaves out so many kept lines. Where there are any, the run ends.
    fn leave_out(&mut self, alloc: Global, lines: usize) -> Result<(), EditError>
        ensures line { IfOk result (λ _. self.new.line ≡ self.old.line + lines) }
        ensures started { IfOk result (λ _. self.new.started ≡ self.old.started) }
        ensures rows { IfOk result (λ _. (picks : ℕ → Bool) (k : ℕ) (ls : List (List ℕ))
            (rs : List Row) → length ls ≡ lines → ArePicked picks false k lines
            → hunks_with self.new picks (k + lines) rs
            ≡ hunks_with self.old picks k (rows_with Kept ls ++ rs)) }
        ensures failed { OnErr result (IsErrOf result EditError.OutOfMemory) }
    {
        if lines == 0 {
            return Ok(());
        }
        self.line = add_len(self.line, lines)?;
        self.new_line = add_len(self.new_line, lines)?;
        let run = mem::replace(&mut self.run, Vec::new(alloc));
        push_hunk(&mut self.hunks, run)?;
        Ok(())
    }

    /// Returns all hunks, with the kept lines that are drawn after the last changed row.
    fn finish(
        mut self,
        alloc: Global,
        lines: &[&str],
        context: DiffContext,
    ) -> Result<Vec<Hunk>, EditError>
        requires within { self.line ≤ length lines.now }
        ensures hunks { IfOk result (λ hunks. (full : List Row)
            → Cut (context_view context) full self
            (rows_with Kept (drop self.line (map (λ l. l.now) lines.now)))
            → hunks_view hunks ≡ hunks_of (context_view context) (numbered full)) }
        ensures failed { OnErr result (IsErrOf result EditError.OutOfMemory) }
    {
        let gap = &lines[self.line..];
        let head = self.count_after(gap.len(), context);
        self.push_rows(alloc, RowSign::Kept, &gap[..head])?;
        let mut hunks = self.hunks;
        push_hunk(&mut hunks, self.run)?;
        Ok(hunks)
    }
}

/// Adds a hunk of these rows, unless there is none.
fn push_hunk(hunks: &mut Vec<Hunk>, rows: Vec<DiffRow>) -> Result<(), EditError>
    ensures hunks { IfOk result (λ _. hunks_view hunks.new
        ≡ hunks_view hunks.old ++ last_run (numbered_view rows)) }
    ensures failed { OnErr result (IsErrOf result EditError.OutOfMemory) }
{
    if !rows.is_empty() {
        hunks.push(Hunk { rows })?;
    }
    Ok(())
}
