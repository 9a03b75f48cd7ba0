//! The pointers under the carets of a line, cached for its pointer row and its hanging messages.

ghost use Rattle.std.specs.Prelude.{◌≡◌, IfOk, IsErrOf, IsTrue, OnErr};
ghost use Rattle.codespan_output.specs.CharMetrics.{char_metrics};
ghost use Rattle.codespan_output.specs.Arguments.{single_label_views, starts_in_order};
ghost use Rattle.codespan_output.specs.Rows.{hanging_labels};
ghost use Rattle.codespan_output.specs.Private.PointerLists.{pointers_in};
ghost use Rattle.codespan_renderer.specs.Private.CachedMetrics.{remaining_from_cache};

use crate::term::renderer::cached::cached_metrics::MetricsFromCache;
use crate::term::renderer::cached::label_cursor::StartCursor;
use codespan_core::files::Error;
use codespan_output::rows::line::Line;
use codespan_output::rows::messages::{Messages, has_any_message};
use codespan_output::rows::pointer_cursor::{Pointer, PointerCursor};
use codespan_output::rows::pointers::{max_label_start, pointer_under};

/// A cursor over cached pointers.
#[derive(Drop)]
pub struct CachedPointers<'cache> {
    /// Those that are left.
    pub pointers: &'cache [Pointer],
}

impl<'cache> PointerCursor for CachedPointers<'cache> {
    ghost remaining = { λ s. s.pointers.now };

    #[inline(always)]
    fn next_pointer(&mut self) -> Option<Pointer> {
        let (pointer, pointers) = self.pointers.split_first()?;
        self.pointers = pointers;
        Some(*pointer)
    }
}

/// Replaces the pointers with those of the hanging labels of a line. If no label hangs, no
/// character is read.
///
/// # Errors
///
/// `OutOfMemory` where an allocation fails.
///
/// # Requires
///
/// - The labels are in the order of their starts, and `messages` are those of `line`.
/// - `characters` has all characters of the line, by the tab width.
#[inline(always)]
pub fn find_pointers(
    pointers: &mut Vec<Pointer>,
    tab_width: usize,
    line: Line<'_, '_>,
    messages: Messages<'_, '_>,
    characters: MetricsFromCache<'_, '_>,
) -> Result<(), Error>
    requires ordered { IsTrue (starts_in_order (single_label_views messages.labels.now)) }
    requires characters { remaining_from_cache characters ≡ char_metrics tab_width line.text.now }
    ensures found { IfOk result (λ _. pointers.new.items
        ≡ pointers_in (hanging_labels (single_label_views messages.entry.labels.now))
        (char_metrics tab_width line.entry.text.now)) }
    ensures failed { OnErr result (IsErrOf result Error.OutOfMemory) }
{
    pointers.clear();
    if !has_any_message(messages.before) && !has_any_message(messages.after) {
        return Ok(());
    }
    let mut before_trailing = StartCursor {
        labels: messages.before,
        next: 0,
    };
    let mut after_trailing = StartCursor {
        labels: messages.after,
        next: 0,
    };
    let greatest_start = max_label_start(messages.labels);
    for metrics in characters {
        if metrics.byte_index > greatest_start {
            return Ok(());
        }
        let early = before_trailing.start_style(None, metrics);
        if let Some(style) = after_trailing.start_style(early, metrics) {
            pointers.push(pointer_under(metrics, style))?;
        }
    }
    Ok(())
}
