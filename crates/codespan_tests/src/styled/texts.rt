//! Styled texts.

use codespan_styled::{Run, StyleMark, StyledText};
use std::alloc::Global;
use std::panic::Expect;
use std::process::Abort;

/// Returns the styled text whose runs have these styles and texts.
pub fn text_of_runs(rt: &impl Abort, alloc: Global, parts: &[(StyleMark, &str)]) -> StyledText {
    let mut runs = Vec::new(alloc);
    for (style, part) in parts {
        let text = part.to_string(alloc).expect(rt, "the part");
        runs.push(Run {
            style: *style,
            text,
        })
        .expect(rt, "the parts");
    }
    StyledText { runs }
}
