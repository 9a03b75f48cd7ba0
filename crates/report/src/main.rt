//! `report STYLE NAME START END MESSAGE` renders an error with one label over the source on
//! standard input. `report STYLE NAME` renders the diagnostic and the suggestions that the script
//! there states, over the source that follows it; `report apply NAME` writes that source after the
//! edits of the script's first suggestion, and `report diff NAME` these edits as a unified diff.
//! `report --version` prints the program's version.
//!
//! `STYLE` is `rich`, `medium` or `short`. `START` and `END`, in decimal digits, are the byte range
//! of the label in the source, from 0, the end exclusive. `NAME` is the file's name, and `MESSAGE`
//! the message of both the error and the label. [`script`] says what a script is.
//!
//! | status | standard output | standard error |
//! |---|---|---|
//! | 0 | the output, or the version | nothing |
//! | 1 | nothing, or a prefix of the output if writing it failed | one line: the error |
//! | 2 | nothing: the arguments are wrong | one line: the usage |
//! | 3 | nothing: the script has an error | its whole diagnostic |
//!
//! The status is 1 if the input is unreadable or not UTF-8, or if rendering, an allocation or
//! writing failed; where writing the diagnostic of a script's error failed, standard error has a
//! prefix of it and no line. The usage names the first form of the arguments alone.
//!
//! Nothing is written to standard output before the whole output is rendered. Arguments that are
//! not UTF-8 are wrong; if an allocation for them fails, the status is 1.
#![tactic(auto)]

mod diagnostics;
mod laws;
mod rendering;
mod report_error;
mod request;
mod run;
mod script;
#[cfg(test)]
mod tests;
mod version;

use crate::run::{conclude, run};
use crate::version::{is_version_requested, write_version};
use program_io::arguments::arguments;
use std::process::ExitCode;

fn main(rt: HostRuntime) -> ExitCode {
    let status = match arguments(&rt) {
        Ok(args) if is_version_requested(&args) => {
            write_version(&mut rt.stdout(), &mut rt.stderr())
        }
        Ok(args) => run(
            rt.alloc(),
            &args,
            &mut rt.stdin(),
            &mut rt.stdout(),
            &mut rt.stderr(),
        ),
        Err(error) => conclude(Err(error.into()), &mut rt.stderr()),
    };
    ExitCode::from(status)
}
