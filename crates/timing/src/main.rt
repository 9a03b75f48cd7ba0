//! `timing` renders the diagnostic on standard input as many times as the input states, and writes
//! the last output.
//!
//! It writes one line to standard error: how long rendering took, in nanoseconds, with the file
//! database where that is made anew for each time. It is made to be measured beside a program over
//! the Rust crate that reads the same input: `tools/bench` does that. [`fields`] documents the
//! input. If the input is malformed or anything fails, the status is 1.
#![tactic(auto)]

mod diagnostic;
mod error;
mod fields;
mod files;

use codespan_base::diagnostic::Diagnostic;
use codespan_base::files::{Error, SimpleFiles};
use codespan_base::term::Config;
use codespan_views::emitting::emit_into_string;
use diagnostic::read_diagnostic;
use error::TimingError;
use fields::Fields;
use files::{File, Making, database, read_files, read_making};
use std::io::{Read, Write};
use std::time::Instant;

fn main(rt: HostRuntime) -> Result<(), TimingError> {
    let mut input = Vec::new(rt.alloc());
    rt.stdin().read_to_end(&mut input)?;
    run(&rt, Fields::new(input.as_slice()))
}

/// Renders what the fields state, and writes the last output and the time.
fn run(rt: &HostRuntime, mut fields: Fields<'_>) -> Result<(), TimingError> {
    let times = fields.number()?;
    let making = read_making(&mut fields)?;
    let config = Config {
        max_width: Some(fields.number()?).filter(|width| *width != 0),
        ..Config::default()
    };
    let files = read_files(rt.alloc(), &mut fields)?;
    let diagnostic = read_diagnostic(rt.alloc(), &mut fields)?;
    let made = database(rt.alloc(), &files)?;

    let start = Instant::now(rt)?;
    let output = match making {
        Making::Once => render(&config, times, &made, &diagnostic)?,
        Making::Anew => render_anew(&config, times, &files, &diagnostic)?,
    };
    let nanos = start.elapsed(rt)?.as_nanos();

    write(rt, output.as_str(), nanos)
}

/// Renders this many times over one file database, and returns the last output.
fn render(
    config: &Config<'_>,
    times: usize,
    files: &SimpleFiles<&str, &str>,
    diagnostic: &Diagnostic<usize>,
) -> Result<String, Error> {
    let mut output = String::new(*diagnostic.labels.allocator());
    for _ in 0..times {
        output = emit_into_string(config, files, diagnostic)?;
    }
    Ok(output)
}

/// Renders this many times, each over a file database of its own, and returns the last output.
fn render_anew(
    config: &Config<'_>,
    times: usize,
    files: &[File<'_>],
    diagnostic: &Diagnostic<usize>,
) -> Result<String, Error> {
    let alloc = *diagnostic.labels.allocator();
    let mut output = String::new(alloc);
    for _ in 0..times {
        output = render(config, 1, &database(alloc, files)?, diagnostic)?;
    }
    Ok(output)
}

/// Writes the output, and how long rendering took.
fn write(rt: &HostRuntime, output: &str, nanos: u128) -> Result<(), TimingError> {
    rt.stdout().write_all(output.as_bytes())?;
    writeln!(rt.stderr(), "{nanos}")?;
    Ok(())
}
