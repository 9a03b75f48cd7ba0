//! Tests of styled text and of the documents made of it.

mod hostile;
mod html;
mod recorder;
mod style_sheet;
mod svg;
mod terminal;
mod texts;
