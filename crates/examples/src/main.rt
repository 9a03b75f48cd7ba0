//! `examples` runs seven examples of how the libraries are used, one after another, each under a
//! line with its name.
//!
//! Each module is one example, which starts in its `run`: [`preview`] has styles and colors,
//! [`errors`] a custom error type, [`several`] a list of diagnostics, [`files`] a custom file
//! database, [`config`] the front end of a language of settings, [`linter`] edits of a text, and
//! [`minified`] a long line.
#![tactic(auto)]

mod config;
mod errors;
mod files;
mod linter;
mod minified;
mod preview;
mod several;

use codespan_reporting::files::Error;

fn main(rt: HostRuntime) -> Result<(), Error> {
    println!(rt; "# preview")?;
    preview::run(&rt)?;
    println!(rt; "# errors")?;
    errors::run(&rt)?;
    println!(rt; "# several")?;
    several::run(&rt)?;
    println!(rt; "# files")?;
    files::run(&rt)?;
    println!(rt; "# config")?;
    config::run(&rt)?;
    println!(rt; "# linter")?;
    linter::run(&rt)?;
    println!(rt; "# minified")?;
    minified::run(&rt)
}
