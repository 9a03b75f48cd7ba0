//! The clones of a configuration, and of its parts, with an owned text.

use crate::outcome::{Outcome, judge_failure, judge_success};
use codespan_base::files::Error;
use codespan_base::term::{Chars, Config, DisplayStyle, Layout, SnippetStart};
use std::alloc::Global;
use test_writers::equality::{are_same_chars, is_same_config};

/// A clone of a configuration or of a part of it.
#[derive(Clone, Copy)]
pub enum CloneCall {
    /// The `snippet_start`.
    SnippetStart,
    /// The characters.
    Chars,
    /// The configuration.
    Config,
}

/// The `snippet_start` of the configuration.
const START: &str = "==>";

/// Returns whether a `snippet_start` is the owned text [`START`].
fn is_start(start: &SnippetStart<'_>) -> bool {
    match start {
        SnippetStart::Owned(text) => text.as_str() == START,
        SnippetStart::Fixed(_) => false,
    }
}

/// Returns whether characters are the expected ones, with that `snippet_start`.
fn are_chars(chars: &Chars<'_>, expected: &Chars<'_>) -> bool {
    is_start(&chars.snippet_start) && are_same_chars(chars, expected)
}

/// Returns whether a configuration is the expected one, with that `snippet_start`.
fn is_config(config: &Config<'_>, expected: &Config<'_>) -> bool {
    is_start(&config.chars.snippet_start) && is_same_config(config, expected)
}

/// Returns the configuration that is cloned, with these characters. No field has its default.
fn config_of(chars: Chars<'_>) -> Config<'_> {
    Config {
        display_style: DisplayStyle::Short,
        tab_width: 7,
        chars,
        start_context_lines: 8,
        end_context_lines: 9,
        before_label_lines: 10,
        after_label_lines: 11,
        layout: Layout::Unbroken,
        max_width: Some(12),
    }
}

/// Makes the clone of a configuration, or of a part of it, and judges it.
///
/// # Errors
///
/// `OutOfMemory` if an allocation of the preparation fails.
pub fn judge_clone(alloc: Global, call: CloneCall) -> Result<Outcome, Error> {
    let config = config_of(Chars {
        snippet_start: SnippetStart::Owned(String::from_str(alloc, START)?),
        ..Chars::ascii()
    });
    Ok(match is_cloned(&config, call) {
        Ok(is_equal) => judge_success(is_equal),
        Err(error) => judge_failure(&error, true),
    })
}

/// Makes the clone, and returns whether it is equal to what was cloned.
fn is_cloned(config: &Config<'_>, call: CloneCall) -> Result<bool, Error> {
    match call {
        CloneCall::SnippetStart => Ok(is_start(&config.chars.snippet_start.clone()?)),
        CloneCall::Chars => Ok(are_chars(&config.chars.clone()?, &config.chars)),
        CloneCall::Config => Ok(is_config(&config.clone()?, config)),
    }
}
