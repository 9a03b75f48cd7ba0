//! Tests of the call that C makes, and of its writer.

mod calls;
mod editor;
mod flushing;
mod forms;
