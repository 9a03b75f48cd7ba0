//! The laws of outputs: what the output of a diagnostic means, as contracts of functions that do
//! nothing. Users name them as `codespan_reporting::laws`.
#![tactic(auto)]

pub mod laws;
