//! Worked outputs: each function does nothing, and its contract states outputs, or what is true of
//! them, computed from the definitions.
#![tactic(auto, unfolding(crate::specs::Worked::worked_definitions))]

mod chosen_lines;
mod direct_rows;
mod mutants;
mod other_files;
mod several_lines;
mod single_lines;
mod styles;
