//! Prints every error in a text of settings, by the front end of a small language of settings.

pub mod front_end;

use codespan_reporting::files::{Error, SimpleFile};
use codespan_reporting::term::{Config, emit_to_io_write};
use front_end::{Setting, Token, lex, parse, token_text};

/// Settings, with an error of each kind.
const SETTINGS: &str = "\
port = 8080
backup = port
threads
limit 10
= 80
retries = 99999
depth = 1 2
port = 80
";

/// Prints each error, and how many settings were read.
///
/// # Errors
///
/// `Io` where the output fails, and `OutOfMemory` where an allocation does.
pub fn run(rt: &HostRuntime) -> Result<(), Error> {
    let alloc = rt.alloc();
    let file = SimpleFile::new(alloc, "server.conf", SETTINGS)?;
    let mut settings = Vec::new(alloc);
    let mut line = Vec::new(alloc);
    for token in &lex(alloc, SETTINGS)? {
        if token_text(SETTINGS, *token) != "\n" {
            line.push(*token)?;
            continue;
        }
        read_line(rt, &file, &line, &mut settings)?;
        line.clear();
    }
    read_line(rt, &file, &line, &mut settings)?;
    print!(rt; "settings that were read: {}\n", settings.len())?;
    Ok(())
}

/// Adds the setting of a line, or prints its error.
fn read_line(
    rt: &HostRuntime,
    file: &SimpleFile<&str, &str>,
    line: &[Token],
    settings: &mut Vec<Setting>,
) -> Result<(), Error> {
    match parse(SETTINGS, settings, line) {
        Ok(None) => {}
        Ok(Some(setting)) => settings.push(setting)?,
        Err(error) => {
            let diagnostic = error.diagnostic(rt.alloc())?;
            emit_to_io_write(&mut rt.stdout(), &Config::default(), file, &diagnostic)?;
        }
    }
    Ok(())
}
