//! `command_line [--short] NAME` reports the first tab of the source on standard input, whose file
//! has this name.
//!
//! The error is in color where standard output is a terminal, unless the environment variable
//! `NO_COLOR` is set or `TERM` is `dumb`, and where `CLICOLOR_FORCE` is set, but not to `0`. It is
//! safe to print, whatever the source and the name hold.
//!
//! | status | standard output | standard error |
//! |---|---|---|
//! | 0 | nothing: the source has no tab | nothing |
//! | 1 | the error of the first tab | nothing |
//! | 2 | nothing, or a prefix of the error if writing it failed | one line: what is wrong |
#![tactic(auto)]

ghost use Rattle.std.specs.Prelude.{◌≡◌, ◌≢◌, ◌+◌, ◌<◌, ℕ, List, None, true};
ghost use Rattle.std.specs.Prelude.{false, IfOk, IfSome, string_bytes};
ghost use Rattle.command_line.specs.Tabs.{HasTab, IsTab};
ghost use Rattle.codespan_reporting.specs.Output.{IsRendered};
ghost use Rattle.codespan_styled.specs.Outputs.{AreRuns};
ghost use Rattle.codespan_styled.specs.Runs.{RunView};
ghost use Rattle.codespan_styled.specs.SafeText.{safe_text};
ghost use Rattle.codespan_styled.specs.Terminal.{ShowsSafe};

mod colors;

use codespan_reporting::diagnostic::{Diagnostic, Label};
use codespan_reporting::files::{Error, Files, SimpleFile};
use codespan_reporting::term::{Config, DisplayStyle, Styles, emit_into_string};
use codespan_styled::terminal::safe_text;
use codespan_styled::{styled_text, to_terminal};
use std::alloc::Global;
use std::io::Write;
use std::ops::Range;
use std::process::ExitCode;
use std::{env, io};

fn main(rt: HostRuntime) -> ExitCode {
    let color = colors::are_wanted(&rt);
    let status = match run(&rt, color) {
        Ok(status) => status,
        Err(error) => {
            let _ = writeln!(rt.stderr(), "command_line: {error}");
            2
        }
    };
    ExitCode::from(status)
}

/// Checks the source on standard input, prints what is to be printed of it, and returns the status.
fn run(rt: &HostRuntime, color: bool) -> Result<u8, Error> {
    let alloc = rt.alloc();
    let args: Vec<String> = env::args(rt)?.skip(1).collect(alloc)?;
    let Some((name, display_style)) = parse_arguments(&args) else {
        writeln!(rt.stderr(), "usage: command_line [--short] NAME")?;
        return Ok(2);
    };
    let source = io::read_to_string(alloc, rt.stdin())?;
    let config = Config {
        display_style,
        ..Config::default()
    };
    match check(alloc, color, &config, name, source.as_str())? {
        Some(text) => {
            rt.stdout().write_all(text.as_bytes())?;
            Ok(1)
        }
        None => Ok(0),
    }
}

/// Returns the name of the file and the display style, or `None` where the arguments are wrong.
fn parse_arguments(args: &[String]) -> Option<(&str, DisplayStyle)> {
    match args {
        [name] if name.as_str() != "--short" => Some((name.as_str(), DisplayStyle::Rich)),
        [option, name] if option.as_str() == "--short" => {
            Some((name.as_str(), DisplayStyle::Short))
        }
        _ => None,
    }
}

/// Returns what is printed of a source: the error of its first tab, or `None` where it has none.
fn check(
    alloc: Global,
    color: bool,
    config: &Config<'_>,
    name: &str,
    source: &str,
) -> Result<Option<String>, Error>
    ensures none { IfOk result (λ printed. printed ≡ None → ¬ (HasTab source.now)) }
    ensures some { IfOk result (λ printed. printed ≢ None → HasTab source.now) }
{
    let Some(tab) = find_tab(source) else {
        return Ok(None);
    };
    let file = SimpleFile::new(alloc, name, source)?;
    let diagnostic = tab_error(alloc, tab)?;
    Ok(Some(printed(alloc, color, config, &file, &diagnostic)?))
}

/// Returns the bytes of the first tab of a text, or `None` where it has none.
fn find_tab(text: &str) -> Option<Range<usize>>
    ensures none { result ≡ None → ¬ (HasTab text.now) }
    ensures tab { IfSome result (λ tab. IsTab text.now tab.start × (tab.end ≡ tab.start + 1)) }
    ensures first { IfSome result (λ tab. (i : ℕ) → i < tab.start → ¬ (IsTab text.now i)) }
{
    let start = text.find('\t')?;
    Some(start..start + 1)
}

/// Returns the error of a tab at these bytes.
fn tab_error(alloc: Global, tab: Range<usize>) -> Result<Diagnostic<()>, Error> {
    let label = Label::primary(alloc, (), tab).with_message("use spaces")?;
    Diagnostic::error(alloc)
        .with_message("the source has a tab")?
        .with_label(label)
}

/// Returns the output of a diagnostic as text that is safe to print: in color, or plain.
fn printed<'files, F: Files<'files>>(
    alloc: Global,
    color: bool,
    config: &Config<'_>,
    files: &'files F,
    diagnostic: &Diagnostic<F::FileId>,
) -> Result<String, Error>
    ensures color { color ≡ true → IfOk result (λ printed. (runs : List RunView)
        × AreRuns config.now (F.database files.now) diagnostic.now runs
        × ShowsSafe (string_bytes printed) runs) }
    ensures plain { color ≡ false → IfOk result (λ printed. (text : List ℕ)
        × IsRendered config.now (F.database files.now) diagnostic.now text
        × (string_bytes printed ≡ safe_text text)) }
{
    if color {
        let text = styled_text(alloc, config, files, diagnostic)?;
        Ok(to_terminal(alloc, &text, &Styles::default())?)
    } else {
        let text = emit_into_string(config, files, diagnostic)?;
        Ok(safe_text(alloc, text.as_str())?)
    }
}
