//! `edit_cases` makes the edits or the suggestion that standard input states, and writes what they
//! are made into.
//!
//! The first line of the input has a word, and after it numbers, with a space before each. The
//! texts of which it has the lengths follow, one after another. Lengths are in bytes.
//!
//! | word | what is made |
//! |---|---|
//! | `edits` | edits of one source, and their diff |
//! | `text` | the edits alone |
//! | `rendering` | the output of the edits as a suggestion, in rich style |
//! | `lines` | a file database, which has the starts of the lines of the source |
//! | `suggestion` | a suggestion over several files, by each call |
//!
//! For `suggestion` the numbers are those of [`suggestion_case`], and the texts the message, of
//! each file its name and its source, and the replacements. For the other words the numbers are how
//! many times all is made, and of each edit its start, its end and the length of its replacement;
//! the texts are the replacements, and then the source, which goes to the end of the input.
//!
//! For `edits` the output is the text, after a line with its length in bytes, and then for each row
//! of the diff a line with its sign, its old number, its new number and the length of its line, and
//! the line; a number that the row does not have is `.`. Where the edits have a fault, the output
//! is that alone, a line that begins with `error: `. For `text` and `rendering` it is the text
//! alone, for `lines` nothing, and for `suggestion` what [`suggestion_output`] says. If the input
//! is malformed or anything else fails, the status is 1.
//!
//! It is made to be compared with a model of edits, and to be measured: `tools/edits` and
//! `tools/bench` do that.
#![tactic(auto)]

mod case;
mod error;
mod fields;
mod measured;
mod output;
mod suggestion_case;
mod suggestion_output;

use case::Case;
use codespan_edits::{DiffRow, EditError, apply_edits, diff};
use error::CaseError;
use measured::{lines_times, rendering_times, text_times};
use output::output;
use std::alloc::Global;
use std::io::{Read, Write};
use std::str;
use suggestion_case::SuggestionCase;
use suggestion_output::suggestion_output;

fn main(rt: HostRuntime) -> Result<(), CaseError> {
    let mut input = Vec::new(rt.alloc());
    rt.stdin().read_to_end(&mut input)?;
    let Ok(text) = str::from_utf8(input.as_slice()) else {
        return Err(CaseError::Input);
    };
    let written = written(rt.alloc(), text)?;
    rt.stdout().write_all(written.as_bytes())?;
    Ok(())
}

/// Returns the output for an input.
fn written(alloc: Global, input: &str) -> Result<String, CaseError> {
    let Some((line, texts)) = input.split_once('\n') else {
        return Err(CaseError::Input);
    };
    let Some((word, numbers)) = line.split_once(' ') else {
        return Err(CaseError::Input);
    };
    if word == "suggestion" {
        let case = SuggestionCase::read(alloc, numbers, texts)?;
        return suggestion_output(alloc, &case);
    }
    let case = Case::read(alloc, numbers, texts)?;
    match word {
        "edits" => output(alloc, made(alloc, &case)),
        "text" => text_times(alloc, &case),
        "rendering" => rendering_times(alloc, case),
        "lines" => lines_times(alloc, &case),
        _ => Err(CaseError::Input),
    }
}

/// Returns the text of a case and its diff, which are made as many times as it states.
fn made(alloc: Global, case: &Case<'_>) -> Result<(String, Vec<DiffRow>), EditError> {
    let mut text = String::new(alloc);
    let mut rows = Vec::new(alloc);
    for _ in 0..case.times {
        text = apply_edits(alloc, case.source, &case.edits)?;
        rows = diff(alloc, case.source, &case.edits)?;
    }
    Ok((text, rows))
}
