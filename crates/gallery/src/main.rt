//! `gallery < CASES` writes the rendered diagnostic of each case of a list, under its name.
//! `gallery svg NAME < CASES` writes that of the first case with this name in colors, as an SVG
//! document, `gallery html NAME` as an HTML element, and `gallery terminal NAME` as text that is
//! safe to print on a terminal. `gallery styles < CASES` writes the style sheet of HTML elements.
//!
//! [`gallery_cases::cases`] documents the input, and `tools/gallery/README.md` how the cases of
//! the file `stdin` and their expected outputs were made.
//!
//! | status | standard output | standard error |
//! |---|---|---|
//! | 0 | every case, the document of the named one, or the style sheet | nothing |
//! | 1 | nothing, or a prefix of the output if writing it failed | one line: the error |
//! | 2 | nothing: the arguments are wrong | one line: the usage |
//!
//! If a line of the input is wrong, the line of the error has its number, from 1.
#![tactic(auto)]

use gallery_cases::errors::GalleryError;
use gallery_cases::run::run;
use program_io::arguments::arguments;
use program_io::run_error::{RunError, conclude};
use std::process::ExitCode;

fn main(rt: HostRuntime) -> ExitCode {
    let status = match arguments(&rt) {
        Ok(args) => run(
            rt.alloc(),
            args.as_slice(),
            &mut rt.stdin(),
            &mut rt.stdout(),
            &mut rt.stderr(),
        ),
        Err(error) => conclude(Err(RunError::<GalleryError>::from(error)), &mut rt.stderr()),
    };
    ExitCode::from(status)
}
