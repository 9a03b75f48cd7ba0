//! The memory in which lines are shortened.

use crate::cut::Cut;
use crate::gap::Gap;
use crate::spans::Span;
use codespan_core::diagnostic::LabelStyle;
use codespan_output::arguments::{MultiLabel, SingleLabel};
use std::alloc::Global;

/// The memory in which lines are shortened. One value serves many lines, so that its memory is
/// allocated once.
#[derive(Drop)]
pub struct FittingBuffers<'d> {
    /// What of the line has to be shown.
    pub spans: Vec<Span>,
    /// The gaps between its needed units.
    pub gaps: Vec<Gap>,
    /// The stretches for which dots stand.
    pub cuts: Vec<Cut>,
    /// The shortened text.
    pub text: String,
    /// The labels, moved with it.
    pub labels: Vec<SingleLabel<'d>>,
    /// The lane marks, moved with it.
    pub lane_marks: Vec<(usize, LabelStyle, MultiLabel<'d>)>,
}

impl<'d> FittingBuffers<'d> {
    /// Returns empty buffers. It allocates nothing.
    pub fn new(alloc: Global) -> FittingBuffers<'d> {
        FittingBuffers {
            spans: Vec::new(alloc),
            gaps: Vec::new(alloc),
            cuts: Vec::new(alloc),
            text: String::new(alloc),
            labels: Vec::new(alloc),
            lane_marks: Vec::new(alloc),
        }
    }
}
