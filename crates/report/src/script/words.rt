//! The words of a script.

ghost use Rattle.std.specs.Prelude.{◌≡◌};
ghost use Rattle.report.specs.ScriptWords.{script_word_named};

/// The word with which a line begins.
#[derive(Clone, Copy)]
pub enum Word {
    /// The rest is the severity.
    Severity,
    /// The rest is the code.
    Code,
    /// The rest is the message.
    Message,
    /// The rest is the width that rows should fit.
    Width,
    /// The rest is a primary label.
    Primary,
    /// The rest is a secondary label.
    Secondary,
    /// The rest is a note.
    Note,
    /// The rest is the message of a suggestion.
    Suggestion,
    /// The rest is an edit of the last suggestion.
    Replace,
}

/// Parses a word; `None` for any other text.
#[tactic(auto, unfolding(crate::specs::ScriptWords::script_word_named))]
pub(super) fn parse_word(text: &str) -> Option<Word>
    ensures { result ≡ script_word_named text.now }
{
    match text {
        "severity" => Some(Word::Severity),
        "code" => Some(Word::Code),
        "message" => Some(Word::Message),
        "width" => Some(Word::Width),
        "primary" => Some(Word::Primary),
        "secondary" => Some(Word::Secondary),
        "note" => Some(Word::Note),
        "suggestion" => Some(Word::Suggestion),
        "replace" => Some(Word::Replace),
        _ => None,
    }
}
