//! `safe_text` copies standard input to standard output as text that is safe to print to a
//! terminal: the characters that [`codespan_styled::terminal::is_safe`] names are left out, or
//! shown as U+FFFD. So no text of others can start an escape sequence, or show one line as another.
//!
//! Colors are escape sequences too, so what it reads has to be without them. The carets of a
//! diagnostic stay under their characters.
//!
//! | status | standard output | standard error |
//! |---|---|---|
//! | 0 | the safe text | nothing |
//! | 1 | nothing, or a prefix of the safe text if writing it failed | one line: the error |
//! | 2 | nothing: there are arguments | one line: the usage |
//!
//! The status is 1 if the input is unreadable or not UTF-8, or if an allocation or writing failed.
//! Nothing is written before the whole input is read.
#![tactic(auto)]

mod no_error;
mod run;

use crate::no_error::NoError;
use crate::run::run;
use program_io::arguments::arguments;
use program_io::run_error::{RunError, conclude};
use std::process::ExitCode;

fn main(rt: HostRuntime) -> ExitCode {
    let status = match arguments(&rt) {
        Ok(args) => run(
            rt.alloc(),
            &args,
            &mut rt.stdin(),
            &mut rt.stdout(),
            &mut rt.stderr(),
        ),
        Err(error) => conclude(Err(RunError::<NoError>::from(error)), &mut rt.stderr()),
    };
    ExitCode::from(status)
}
