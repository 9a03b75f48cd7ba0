//! The calls that render the rows of a diagnostic, over those of `codespan_output::rows`. Users
//! name `term::renderer` as `codespan_reporting::term::renderer`, without `Lanes`, `Line` and
//! `cached`, which the views use.
#![tactic(auto)]

pub mod term;
