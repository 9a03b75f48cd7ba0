//! The definitions of the output of a diagnostic, its rows and their streams, and the types that
//! these and the renderer share; what an output means, as definitions; and `rows`, which writes the
//! rows. Users name the types of `arguments` as those of `codespan_reporting::term::renderer`.
#![tactic(auto)]

pub mod arguments;
pub mod char_metrics;
pub mod lane_shapes;
pub mod padding;
pub mod rows;
pub mod scalar_chars;
