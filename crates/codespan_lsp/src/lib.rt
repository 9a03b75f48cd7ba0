//! Positions and diagnostics as the Language Server Protocol has them.
//!
//! [`byte_index_to_position`] and the three functions beside it convert between byte indices of a
//! file and positions: a line, and the code units of the line before the position. They look the
//! file up in any file database. Their positions count UTF-16 code units, which is what the
//! protocol counts unless client and server agree on another encoding; [`PositionEncoding`] has the
//! four as methods, for each of the protocol's encodings.
#![tactic(auto)]

mod columns;
mod diagnostics;
mod encoding;
pub mod laws;
mod messages;
mod positions;
mod severity;
mod spans;

pub use diagnostics::{LspDiagnostic, RelatedInformation, to_lsp_diagnostics};
pub use encoding::PositionEncoding;
pub use positions::{Position, byte_index_to_position, position_to_byte_index};
pub use severity::DiagnosticSeverity;
pub use spans::{Range, byte_span_to_range, range_to_byte_span};
