//! Tests of positions and of diagnostics for language servers, over databases of each kind: values
//! from the protocol, from UTF-16 and from the tests of Rust's `codespan-lsp`, and the code of
//! `docs/LSP.md`.

mod diagnostics;
mod failures;
mod positions;
