//! The characters of a line, of which the first ones are cached.

use crate::term::renderer::char_metrics::{CharMetrics, Metrics};

/// The characters of a line, from left to right: those that are cached, and then those that an
/// iterator goes on with.
#[derive(Drop)]
pub struct MetricsFromCache<'cache, 'text> {
    /// The cached ones that are left.
    pub cached: &'cache [Metrics],
    /// The iterator over those after them.
    pub rest: CharMetrics<'text>,
}

impl<'cache, 'text> Iterator for MetricsFromCache<'cache, 'text> {
    ghost use Rattle.std.specs.Iterator.{YieldsFirst, item_count};
    ghost use Rattle.codespan_renderer.specs.Private.CachedMetrics.{remaining_from_cache};

    type Item = Metrics;

    ghost next_gives = { YieldsFirst remaining_from_cache };

    ghost remaining = { item_count remaining_from_cache };

    #[inline(always)]
    fn next(&mut self) -> Option<Metrics> {
        match self.cached.split_first() {
            Some((metrics, cached)) => {
                self.cached = cached;
                Some(*metrics)
            }
            None => self.rest.next(),
        }
    }
}
