//! Prints one error of a compiler three times: in rich style in color, and in medium and short
//! style as plain text.
//!
//! The compiler is that of an invented language with units of measure. The error has labels in two
//! files, one of them a multi-line label, and two notes.

use codespan_reporting::diagnostic::{Diagnostic, Label};
use codespan_reporting::files::{Error, SimpleFiles};
use codespan_reporting::term::{
    Ansi, Config, DisplayStyle, Styles, StylesWriter, emit_to_io_write, emit_to_write_style,
};
use std::alloc::Global;

/// The file that does not compile.
const FLIGHT: &str = "\
import units

fn travel_time(way: Length, pace: Speed) -> Time {
    way / pace
}

let arrival = travel_time(
    384_400 km,
    11 km,
)
";

/// The file that it imports.
const UNITS: &str = "\
unit Length = m
unit Time = s
unit Speed = Length / Time
";

/// Returns the error: a length is passed where a speed is expected.
fn mismatched_units(
    alloc: Global,
    flight: usize,
    units: usize,
) -> Result<Diagnostic<usize>, Error> {
    Diagnostic::error(alloc)
        .with_code("E0012")?
        .with_message("mismatched units")?
        .with_label(Label::primary(alloc, flight, 130..135).with_message(
            "expected `Speed`, found `Length`",
        )?)?
        .with_label(Label::secondary(alloc, flight, 97..138).with_message("in this call")?)?
        .with_label(Label::secondary(alloc, flight, 42..53).with_message(
            "the parameter is declared here",
        )?)?
        .with_label(Label::secondary(alloc, units, 43..56).with_message(
            "`Speed` is defined here",
        )?)?
        .with_note("expected unit `m / s`\n   found unit `m`")?
        .with_note("help: give the length that is covered in a second: `11 km / s`")
}

/// The two files.
type Sources = SimpleFiles<&'static str, &'static str>;

/// Prints the error in each style.
///
/// # Errors
///
/// `Io` where the output fails, and `OutOfMemory` where an allocation does.
pub fn run(rt: &HostRuntime) -> Result<(), Error> {
    let alloc = rt.alloc();
    let mut files = SimpleFiles::new(alloc);
    let flight = files.add("flight.lum", FLIGHT)?;
    let units = files.add("units.lum", UNITS)?;
    let diagnostic = mismatched_units(alloc, flight, units)?;
    print_in_color(rt, &files, &diagnostic)?;
    print(rt, DisplayStyle::Medium, &files, &diagnostic)?;
    print(rt, DisplayStyle::Short, &files, &diagnostic)
}

/// Prints the error in rich style, in color.
fn print_in_color(
    rt: &HostRuntime,
    files: &Sources,
    diagnostic: &Diagnostic<usize>,
) -> Result<(), Error> {
    let styles = Styles::default();
    let mut writer = StylesWriter::new(Ansi::new(rt.stdout()), &styles);
    emit_to_write_style(&mut writer, &Config::default(), files, diagnostic)
}

/// Prints the error in this style, as plain text.
fn print(
    rt: &HostRuntime,
    display_style: DisplayStyle,
    files: &Sources,
    diagnostic: &Diagnostic<usize>,
) -> Result<(), Error> {
    let config = Config {
        display_style,
        ..Config::default()
    };
    emit_to_io_write(&mut rt.stdout(), &config, files, diagnostic)
}
