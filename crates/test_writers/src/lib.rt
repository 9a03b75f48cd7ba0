//! What tests share: the custom writers of `docs/WRITERS.md`, writers that count or stop, a style
//! mark of each kind, the removal of escape sequences, and the equality of configurations.
#![tactic(auto)]

pub mod counting;
pub mod equality;
pub mod example;
pub mod sequences;
pub mod stopping;
pub mod style_marks;
