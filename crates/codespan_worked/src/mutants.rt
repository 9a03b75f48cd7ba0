//! Worked outputs that kill mutants, each named for the rule that it shows.

mod characters;
mod lines;
