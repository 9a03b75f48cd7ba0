//! The line that is rendered in place of a line that has to fit a width.

ghost use Rattle.std.specs.Prelude.{◌≡◌, IfOk, OnErr, IsErrOf};
ghost use Rattle.codespan_output.specs.FittedLines.{fitted};
ghost use Rattle.codespan_output.specs.Private.LineViews.{context_view, line_view};

use codespan_core::files::Error;
use codespan_fitting::{FittedLine, FittingBuffers, Frame, fit_line};
use codespan_output::rows::line::{Lanes, Line, RowContext, leading_whitespace};
use std::alloc::Global;

/// Returns the line that is rendered in place of a line: itself where there is no width or it fits,
/// and else what is shown of it, in the buffers, which are made when they are first needed.
///
/// # Errors
///
/// `OutOfMemory`: an allocation fails.
#[inline(always)]
pub fn fitted_line<'row, 'd>(
    buffers: &'row mut Option<Box<FittingBuffers<'d>>>,
    alloc: Global,
    max_width: Option<usize>,
    context: RowContext<'_>,
    line: Line<'row, 'd>,
) -> Result<Line<'row, 'd>, Error>
    ensures fitted { IfOk result (λ shown. line_view shown
        ≡ fitted max_width (context_view context.entry) (line_view line.entry)) }
    ensures failed { OnErr result (IsErrOf result Error.OutOfMemory) }
{
    match max_width {
        None => Ok(line),
        Some(width) => {
            let buffers = match buffers {
                Some(made) => made,
                None => buffers.insert(Box::new(alloc, FittingBuffers::new(alloc))?),
            };
            shortened_line(buffers, width, context, line)
        }
    }
}

/// Returns the line itself where it fits, and else what is shown of it.
///
/// # Errors
///
/// `OutOfMemory`: an allocation fails.
fn shortened_line<'row, 'd>(
    buffers: &'row mut FittingBuffers<'d>,
    width: usize,
    context: RowContext<'_>,
    line: Line<'row, 'd>,
) -> Result<Line<'row, 'd>, Error>
    ensures fitted { IfOk result (λ shown. line_view shown
        ≡ fitted (Some width) (context_view context.entry) (line_view line.entry)) }
    ensures failed { OnErr result (IsErrOf result Error.OutOfMemory) }
{
    let frame = Frame {
        width,
        padding: context.padding,
        num_lanes: line.lanes.count,
        tab_width: context.tab_width,
    };
    let whole = FittedLine {
        text: line.text,
        labels: line.labels,
        lane_marks: line.lanes.lane_marks,
    };
    match fit_line(buffers, frame, whole)? {
        None => Ok(line),
        Some(shown) => Ok(Line {
            number: line.number,
            text: shown.text,
            leading: leading_whitespace(shown.text),
            labels: shown.labels,
            lanes: Lanes {
                count: line.lanes.count,
                lane_marks: shown.lane_marks,
            },
        }),
    }
}
