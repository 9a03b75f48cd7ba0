//! What programs share at their edges: their arguments, the whole input as text, the output, the
//! line and the status of an error; and what scripts of `report` and cases of `gallery` have in
//! common, the fields of a line, texts with escapes, and the names of display styles and
//! severities.
#![tactic(auto)]

pub mod arguments;
pub mod escapes;
pub mod fields;
pub mod input;
pub mod names;
pub mod output;
pub mod run_error;
