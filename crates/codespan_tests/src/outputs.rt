//! Tests of the views and of the calls that emit, beside the rows of `writer_runs`.

mod endless;
pub mod failures;
mod fitted;
mod flushing;
mod label_orders;
mod listing;
mod longest_file;
mod other_files;
pub mod rendering;
pub mod styles;
