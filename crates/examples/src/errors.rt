//! Prints two errors and a warning over one text of settings, all of an application's error type.

mod settings;

use codespan_reporting::files::{Error, SimpleFile};
use codespan_reporting::term::{Config, emit_to_io_write};
use settings::{Key, SettingsError};

/// The settings: a value that is not a number, an unknown key, and a key that is set twice.
const SETTINGS: &str = "\
port = 8080
workers = four
tmeout = 30
port = 80
";

/// Prints the diagnostic of each error.
///
/// # Errors
///
/// `Io` where the output fails, and `OutOfMemory` where an allocation does.
pub fn run(rt: &HostRuntime) -> Result<(), Error> {
    let alloc = rt.alloc();
    let config = Config::default();
    let file = SimpleFile::new(alloc, "server.conf", SETTINGS)?;
    let errors = [
        SettingsError::NotANumber {
            key: Key::Workers,
            value: 22..26,
        },
        SettingsError::UnknownKey {
            key_range: 27..33,
            suggestion: Some(Key::Timeout),
        },
        SettingsError::SetTwice {
            key: Key::Port,
            first: 0..4,
            again: 39..43,
        },
    ];
    for error in &errors {
        let diagnostic = error.diagnostic(alloc, ())?;
        emit_to_io_write(&mut rt.stdout(), &config, &file, &diagnostic)?;
    }
    Ok(())
}
