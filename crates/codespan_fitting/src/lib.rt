//! Lines of the source that fit a width: [`fit_line`] leaves out of a long line what is far from
//! its labels.
//!
//! Only what is near the labels is read: the characters between are not.
#![tactic(auto)]

mod buffers;
mod cut;
mod cuts;
mod fit;
mod gap;
mod gaps;
mod measure;
mod moved;
mod radius;
mod spans;
mod units;
mod walk;

pub use buffers::FittingBuffers;
pub use fit::{FittedLine, Frame, fit_line};
