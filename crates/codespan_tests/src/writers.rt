//! Tests of every writer, and of clones of configurations.

mod characters;
mod clones;
mod flushing;
mod parts;
mod style_marks;
mod written;
