//! The rows of a line, written from a cache of its characters that is made once for all of them.
//!
//! The cache reaches as far as the rows under the line do. The labels of the line are in the order
//! of their starts, so that a cursor over the characters passes each of them once. The rows are
//! those of [`Renderer::render_snippet_source`]; only the time differs.
//!
//! [`Renderer::render_snippet_source`]: crate::term::renderer::Renderer::render_snippet_source

mod cached_line;
mod cached_metrics;
mod label_cursor;
mod line_cache;
mod pointers;
mod reach;

pub use cached_line::CachedLine;
pub use line_cache::LineCache;
