//! The calls that render rows.

pub mod renderer;
