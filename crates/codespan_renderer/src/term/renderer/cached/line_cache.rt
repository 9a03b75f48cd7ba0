//! The characters of a line and the pointers under them, in memory that serves many lines.

ghost use Rattle.std.specs.Prelude.{◌≡◌, IfOk, IsErrOf, IsTrue, OnErr};
ghost use Rattle.codespan_output.specs.Arguments.{single_label_views, starts_in_order};
ghost use Rattle.codespan_renderer.specs.Private.CachedMetrics.{AreCached, ReachesPast};

use crate::term::renderer::cached::cached_line::CachedLine;
use crate::term::renderer::cached::cached_metrics::MetricsFromCache;
use crate::term::renderer::cached::pointers::find_pointers;
use crate::term::renderer::cached::reach::reach_of;
use crate::term::renderer::char_metrics::{CharMetrics, Metrics};
use codespan_core::files::Error;
use codespan_output::rows::line::Line;
use codespan_output::rows::messages::Messages;
use codespan_output::rows::pointer_cursor::Pointer;
use std::alloc::Global;

/// The characters of a line and the pointers under them, cached for all its rows.
///
/// One value serves many lines, so that its memory is allocated once.
#[derive(Drop)]
pub struct LineCache {
    /// The first characters, from left to right, as far as the rows reach.
    cached: Vec<Metrics>,
    /// The pointers under the characters from which labels hang.
    pointers: Vec<Pointer>,
}

impl LineCache {
    /// Returns an empty cache. It allocates nothing.
    pub fn new(alloc: Global) -> LineCache {
        LineCache {
            cached: Vec::new(alloc),
            pointers: Vec::new(alloc),
        }
    }

    /// Replaces the cached characters and pointers with those of a line, as far as its rows need
    /// them, and returns the line with them. Nothing is allocated for a line without labels on
    /// which no multi-line label starts or ends. `tab_width` is the number of cells from one tab
    /// stop to the next; where it is 0, a tab takes no cell.
    ///
    /// # Errors
    ///
    /// `OutOfMemory` where an allocation fails.
    ///
    /// # Requires
    ///
    /// The labels are in the order of their starts.
    #[inline(always)]
    pub fn cache_line<'cache, 'row, 'd>(
        &'cache mut self,
        tab_width: usize,
        line: Line<'row, 'd>,
    ) -> Result<CachedLine<'cache, 'row, 'd>, Error>
        requires ordered { IsTrue (starts_in_order (single_label_views line.labels.now)) }
        ensures line { IfOk result (λ cached. cached.line ≡ line.entry) }
        ensures tab_width { IfOk result (λ cached. cached.tab_width ≡ tab_width) }
        ensures failed { OnErr result (IsErrOf result Error.OutOfMemory) }
    {
        let rest = cache_metrics(&mut self.cached, line.text, tab_width, reach_of(line))?;
        let characters = MetricsFromCache {
            cached: self.cached.as_slice(),
            rest: rest.fork(false),
        };
        let messages = Messages::of(line.labels);
        find_pointers(&mut self.pointers, tab_width, line, messages, characters)?;
        Ok(CachedLine {
            tab_width,
            line,
            messages,
            cached: self.cached.as_slice(),
            rest,
            pointers: self.pointers.as_slice(),
        })
    }
}

/// Replaces the cached characters with those of a text, up to the first one that begins past the
/// byte index `reach`, and returns an iterator over those after it. Where `reach` is `None`, none
/// is cached.
///
/// # Errors
///
/// `OutOfMemory` where an allocation fails.
#[inline(always)]
fn cache_metrics<'row>(
    cached: &mut Vec<Metrics>,
    text: &'row str,
    tab_width: usize,
    reach: Option<usize>,
) -> Result<CharMetrics<'row>, Error>
    ensures are_cached { IfOk result (λ rest. AreCached tab_width text.now cached.new.items rest) }
    ensures reaches_past { IfOk result (λ rest. ReachesPast reach rest) }
    ensures failed { OnErr result (IsErrOf result Error.OutOfMemory) }
{
    cached.clear();
    let mut rest = CharMetrics::new(text, tab_width, false);
    if let Some(reach) = reach {
        // those that begin at 0 to `reach`, and one past it: each character has a byte
        cached.reserve(reach.saturating_add(2).min(text.len()))?;
        while let Some(metrics) = rest.next_metrics() {
            cached.push(metrics)?;
            if metrics.byte_index > reach {
                return Ok(rest);
            }
        }
    }
    Ok(rest)
}
