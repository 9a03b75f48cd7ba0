//! Prints an error in a minified file, whose one line is shortened to the width of the output.

use codespan_reporting::diagnostic::{Diagnostic, Label};
use codespan_reporting::files::{Error, SimpleFile};
use codespan_reporting::term::{Config, emit_to_io_write};

/// The minified file.
const SCRIPT: &str = "function f(a,b){return a+b}var x=f(1,2),y=f(3,4);\
                      console.log(x+y,f(x,y),f(y,x),missing,f(x,x));\
                      for(var i=0;i<10;i++){log(i)}";

/// The width of the output, in cells.
const WIDTH: usize = 60;

/// Prints the error.
///
/// # Errors
///
/// `Io` where the output fails, and `OutOfMemory` where an allocation does.
pub fn run(rt: &HostRuntime) -> Result<(), Error> {
    let alloc = rt.alloc();
    let file = SimpleFile::new(alloc, "app.min.js", SCRIPT)?;
    let diagnostic = Diagnostic::error(alloc)
        .with_message("`missing` is not defined")?
        .with_label(Label::primary(alloc, (), 79..86).with_message("not found")?)?
        .with_label(Label::secondary(alloc, (), 9..10).with_message("defined here")?)?;
    let config = Config {
        max_width: Some(WIDTH),
        ..Config::default()
    };
    emit_to_io_write(&mut rt.stdout(), &config, &file, &diagnostic)
}
