//! Views of a diagnostic, which render it to a [`Renderer`](crate::term::Renderer): in rich, medium
//! or short style.

pub use codespan_views::rich::RichDiagnostic;
pub use codespan_views::short::ShortDiagnostic;
