//! Tests of files, diagnostics and writers, of the calls that emit, of the views and the rows, of
//! styled text, of `codespan_lsp`, of `codespan_edits`, of `codespan_suggestions` and of the call
//! for C. Some repeat on worked values what a contract says; others test what none says, such as
//! which calls flush. `files` and `lsp` have the code of `docs/FILES.md` and of `docs/LSP.md`, and
//! `quick_start` that of `README.md`.
#![tactic(auto)]

#[cfg(test)]
mod asserts;
#[cfg(test)]
mod diagnostics;
#[cfg(test)]
mod edits;
#[cfg(test)]
mod files;
#[cfg(test)]
mod fixtures;
#[cfg(test)]
mod lsp;
#[cfg(test)]
mod native;
#[cfg(test)]
mod outputs;
#[cfg(test)]
mod quick_start;
#[cfg(test)]
mod rows;
#[cfg(test)]
mod styled;
#[cfg(test)]
mod suggestions;
#[cfg(test)]
mod writers;
