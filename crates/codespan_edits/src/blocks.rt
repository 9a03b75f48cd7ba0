//! The blocks of lines that edits replace.

ghost use Rattle.std.specs.Prelude.{All, ◌<◌, ◌≡◌, ◌-◌, ◌++◌, ◌∷◌, []};
ghost use Rattle.std.specs.Prelude.{List, ℕ, IfOk, OnErr, IsErrOf, length, map, string_bytes, true};
ghost use Rattle.std.specs.Prelude.{drop, get_or};
ghost use Rattle.codespan_core.specs.Lines.{line_starts_of};
ghost use Rattle.std.specs.List.{flat_map};
ghost use Rattle.codespan_edits.specs.Edits.{text_edits};
ghost use Rattle.codespan_edits.specs.Diffs.{Change, Row, lines, is_whole, block_rows, kept};
ghost use Rattle.codespan_edits.specs.Diffs.{no_change, pieces_from, blocks_from};
ghost use Rattle.codespan_edits.specs.Private.Places.{edits_at, FitFrom};
ghost use Rattle.codespan_edits.specs.Private.Blocks.{rows_of, FitLines, block_view, Holds};
ghost use Rattle.codespan_edits.specs.Private.Blocks.{HoldsBlock};

use crate::apply::add_len;
use crate::edit::Edit;
use crate::error::EditError;
use crate::lines::{is_whole_text, lines_of, starts_of};
use crate::order::Place;
use std::alloc::Global;
use std::mem;

/// The lines of a text at the indices from `first` to `end`, and the text that edits make of them.
#[derive(Drop)]
pub(crate) struct Block {
    pub(crate) first: usize,
    pub(crate) end: usize,
    pub(crate) new: String,
}

/// Returns the blocks of the edits that have these places.
pub(crate) fn collect_blocks<FileId>(
    alloc: Global,
    source: &str,
    edits: &[Edit<FileId>],
    places: &[Place],
) -> Result<Vec<Block>, EditError>
    requires fit { FitFrom source.now 0 (edits_at (text_edits edits.now) places.now) }
    requires listed { All (λ place. place.index < length edits.now) places.now }
    ensures fit { IfOk result (λ blocks.
        FitLines (lines source.now) 0 (map block_view blocks.items)) }
    ensures rows { IfOk result (λ blocks. rows_of (lines source.now) 0 (map block_view blocks.items)
        ≡ flat_map block_rows (blocks_from no_change
        (pieces_from source.now 0 (edits_at (text_edits edits.now) places.now)))) }
    ensures failed { OnErr result (IsErrOf result EditError.OutOfMemory) }
{
    let mut collector = Collector {
        blocks: Vec::new(alloc),
        line: 0,
        before: String::new(alloc),
        after: String::new(alloc),
    };
    let mut byte = 0;
    for place in places {
        collector.keep(alloc, &source[byte..place.start])?;
        let replaced = &source[place.start..place.end];
        collector.push(alloc, replaced, &edits[place.index].replacement)?;
        byte = place.end;
    }
    collector.keep(alloc, &source[byte..])?;
    collector.finish(alloc)
}

/// The blocks so far, how many lines of the text come before what is held, and the two texts of the
/// pieces that are held for the next block.
#[derive(Drop)]
struct Collector {
    blocks: Vec<Block>,
    line: usize,
    before: String,
    after: String,
}

impl Collector {
    /// Takes a text that is kept. Of its lines the first one may end a block, and one without a
    /// newline is held.
    fn keep(&mut self, alloc: Global, text: &str) -> Result<(), EditError>
        ensures holds { IfOk result (λ _. (ls : List (List ℕ)) (all : List Row) (rest : List ℕ)
            (ps : List Change)
            → Holds ls all self.old (text.now ++ rest) (map kept (lines text.now) ++ ps)
            → Holds ls all self.new rest ps) }
        ensures failed { OnErr result (IsErrOf result EditError.OutOfMemory) }
    {
        let starts = starts_of(alloc, text)?;
        self.keep_lines(alloc, text, &starts)?;
        let last = &text[starts[starts.len() - 1]..];
        if last.is_empty() {
            return Ok(());
        }
        self.push(alloc, last, last)?;
        Ok(())
    }

    /// Takes the lines of a kept text that have a newline, by the starts of all lines.
    fn keep_lines(&mut self, alloc: Global, text: &str, starts: &[usize]) -> Result<(), EditError>
        requires { starts.now ≡ line_starts_of text.now }
        ensures holds { IfOk result (λ _. (ls : List (List ℕ)) (all : List Row) (rest : List ℕ)
            (ps : List Change) (last : List ℕ)
            → last ≡ drop (get_or starts.now (length starts.now - 1) 0) text.now
            → Holds ls all self.old (text.now ++ rest) (map kept (lines text.now) ++ ps)
            → Holds ls all self.new (last ++ rest) (map kept (lines last) ++ ps)) }
        ensures failed { OnErr result (IsErrOf result EditError.OutOfMemory) }
    {
        if starts.len() < 2 {
            return Ok(());
        }
        let line = &text[..starts[1]];
        self.push(alloc, line, line)?;
        self.line = add_len(self.line, starts.len() - 2)?;
        Ok(())
    }

    /// Takes a piece: a text, and what it is after the edits.
    fn push(&mut self, alloc: Global, old: &str, new: &str) -> Result<(), EditError>
        ensures holds { IfOk result (λ _. (ls : List (List ℕ)) (all : List Row) (rest : List ℕ)
            (ps : List Change)
            → Holds ls all self.old (old.now ++ rest)
            ((record { old = old.now; new = new.now }) ∷ ps)
            → Holds ls all self.new rest ps) }
        ensures ended { IfOk result (λ _.
            is_whole (string_bytes self.old.before ++ old.now) ≡ true
            → is_whole (string_bytes self.old.after ++ new.now) ≡ true
            → (string_bytes self.new.before ≡ []) × (string_bytes self.new.after ≡ [])) }
        ensures failed { OnErr result (IsErrOf result EditError.OutOfMemory) }
    {
        self.before.push_str(old)?;
        self.after.push_str(new)?;
        if is_whole_text(&self.before) && is_whole_text(&self.after) {
            self.end_block(alloc)?;
        }
        Ok(())
    }

    /// Makes a block of what is held.
    fn end_block(&mut self, alloc: Global) -> Result<(), EditError>
        ensures before { IfOk result (λ _. string_bytes self.new.before ≡ []) }
        ensures after { IfOk result (λ _. string_bytes self.new.after ≡ []) }
        ensures holds { IfOk result (λ _. (ls : List (List ℕ)) (all rows : List Row)
            (rest : List ℕ) → HoldsBlock ls all self.old rest rows
            → HoldsBlock ls all self.new rest rows) }
        ensures failed { OnErr result (IsErrOf result EditError.OutOfMemory) }
    {
        let count = lines_of(alloc, &self.before)?.len();
        let end = add_len(self.line, count)?;
        let new = mem::replace(&mut self.after, String::new(alloc));
        self.blocks.push(Block {
            first: self.line,
            end,
            new,
        })?;
        self.line = end;
        self.before.clear();
        Ok(())
    }

    /// Returns all blocks.
    fn finish(mut self, alloc: Global) -> Result<Vec<Block>, EditError>
        ensures blocks { IfOk result (λ blocks. (ls : List (List ℕ)) (all : List Row)
            → Holds ls all self [] []
            → FitLines ls 0 (map block_view blocks.items)
            × (rows_of ls 0 (map block_view blocks.items) ≡ all)) }
        ensures failed { OnErr result (IsErrOf result EditError.OutOfMemory) }
    {
        self.end_block(alloc)?;
        Ok(self.blocks)
    }
}
