//! A diagnostic as text in runs, each in one style, as an HTML element, as an SVG document, and as
//! safe text for a terminal.
//!
//! [`styled_text`] renders a diagnostic to a [`StyledText`]; [`to_html`] makes an element of it,
//! [`to_svg`] a document, and [`to_terminal`] a text that is safe to print. A [`Recorder`] makes a
//! [`StyledText`] of anything that is written to it with style marks, as a suggestion.
#![tactic(auto)]

mod cells;
pub mod html;
pub mod recorder;
pub mod render;
mod safe;
pub mod style_sheet;
pub mod svg;
pub mod terminal;
pub mod text;

pub use codespan_base::term::config::style_mark::StyleMark;
pub use html::to_html;
pub use recorder::Recorder;
pub use render::styled_text;
pub use style_sheet::html_styles;
pub use svg::to_svg;
pub use terminal::to_terminal;
pub use text::{Run, StyledText};
