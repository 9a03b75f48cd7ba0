//! What the arguments request.

ghost use Rattle.std.specs.Prelude.{◌≡◌, map, string_bytes};
ghost use Rattle.std.specs.Option.{option_map};
ghost use Rattle.report.specs.Requests.{number_of, script_output_named};

use codespan_core::term::DisplayStyle;
use program_io::names::parse_display_style;

/// A request for an error with one label, whose source is the input.
#[derive(Clone, Copy)]
pub struct LabelRequest<'args> {
    /// The display style.
    pub style: DisplayStyle,
    /// The name of the file.
    pub name: &'args str,
    /// The byte index in the source at which the label starts.
    pub start: usize,
    /// The byte index at which the label ends, exclusive.
    pub end: usize,
    /// The message of the error and of its label.
    pub message: &'args str,
}

impl<'args> LabelRequest<'args> {
    ghost use Rattle.report.specs.Requests.{label_request_view, label_request_of};

    /// Parses the arguments `STYLE NAME START END MESSAGE`. Returns `None` if there are more or
    /// fewer, if `STYLE` is not the name of a display style, or if `START` or `END` is not a
    /// number.
    pub fn from_arguments(args: &'args [String]) -> Option<LabelRequest<'args>>
        ensures { option_map label_request_view result
            ≡ label_request_of (map string_bytes args.now) }
    {
        let [style, name, start, end, message] = args else {
            return None;
        };
        Some(LabelRequest {
            style: parse_display_style(style.as_str())?,
            name: name.as_str(),
            start: parse_number(start.as_str())?,
            end: parse_number(end.as_str())?,
            message: message.as_str(),
        })
    }
}

/// What is written of a script.
#[derive(Clone, Copy)]
pub enum ScriptOutput {
    /// The diagnostic and the suggestions, in this display style.
    Rendered(DisplayStyle),
    /// The source after the edits of the first suggestion.
    Applied,
    /// The unified diff of the first suggestion.
    UnifiedDiff,
}

/// Returns what is written of a script by this word: a display style's name, `apply` or `diff`.
/// Returns `None` for any other text.
#[tactic(auto, unfolding(crate::specs::Requests::script_output_named))]
pub fn parse_script_output(text: &str) -> Option<ScriptOutput>
    ensures { result ≡ script_output_named text.now }
{
    if text == "apply" {
        return Some(ScriptOutput::Applied);
    }
    if text == "diff" {
        return Some(ScriptOutput::UnifiedDiff);
    }
    let style = parse_display_style(text)?;
    Some(ScriptOutput::Rendered(style))
}

/// What the arguments request.
#[derive(Clone, Copy)]
pub enum Request<'args> {
    /// An error with one label, whose source is the input.
    OneLabel(LabelRequest<'args>),
    /// Of the script at the start of the input, whose source follows the script.
    OfScript {
        /// What is written of it.
        output: ScriptOutput,
        /// The name of the file.
        name: &'args str,
    },
}

impl<'args> Request<'args> {
    ghost use Rattle.report.specs.Requests.{request_of, request_view};

    /// Parses the arguments `STYLE NAME`, `apply NAME` or `diff NAME`, or those of a
    /// [`LabelRequest`]. Returns `None` for any others.
    pub fn from_arguments(args: &'args [String]) -> Option<Request<'args>>
        ensures { option_map request_view result ≡ request_of (map string_bytes args.now) }
    {
        match args {
            [output, name] => Some(Request::OfScript {
                output: parse_script_output(output.as_str())?,
                name: name.as_str(),
            }),
            _ => Some(Request::OneLabel(LabelRequest::from_arguments(args)?)),
        }
    }
}

/// Parses a number of one or more ASCII digits. Returns `None` if there are none, if there is any
/// other character, or if the number does not fit a `usize`.
pub fn parse_number(text: &str) -> Option<usize>
    ensures { result ≡ number_of text.now }
{
    if text.bytes().all(|byte| byte.is_ascii_digit()) {
        text.parse().ok()
    } else {
        None
    }
}
