//! The words of lines, and the names that may follow them.

ghost use Rattle.std.specs.Prelude.{◌≡◌};
ghost use Rattle.gallery_cases.specs.Words.{characters_named, colors_named, database_kind_named};
ghost use Rattle.gallery_cases.specs.Words.{layout_named, case_word_named};

use crate::case::{CharacterSet, ColorChoice, DatabaseKind};
use codespan_base::term::Layout;

/// The first word of a line that states something of a case.
#[derive(Clone, Copy)]
pub enum Word {
    /// The kind of the file database.
    Database,
    /// The name of one more file.
    File,
    /// The continuation of a source.
    Source,
    /// The number of a line.
    Number,
    /// The display style.
    Style,
    /// The layout of line numbers and lanes.
    Layout,
    /// The tab width.
    Tab,
    /// How many context lines are shown.
    Context,
    /// The width that rows should fit.
    Width,
    /// The characters of borders, carets and lanes.
    Characters,
    /// Whether the output has colors, and how these are written.
    Colors,
    /// The severity.
    Severity,
    /// The code.
    Code,
    /// The message.
    Message,
    /// A primary label.
    Primary,
    /// A secondary label.
    Secondary,
    /// A note.
    Note,
    /// A suggestion.
    Suggestion,
    /// An edit of a suggestion.
    Replace,
}

/// Parses a word. Returns `None` for any other text.
#[tactic(auto, unfolding(crate::specs::Words::case_word_named))]
pub fn parse_word(text: &str) -> Option<Word>
    ensures { result ≡ case_word_named text.now }
{
    match text {
        "database" => Some(Word::Database),
        "file" => Some(Word::File),
        "|" => Some(Word::Source),
        "number" => Some(Word::Number),
        "style" => Some(Word::Style),
        "layout" => Some(Word::Layout),
        "tab" => Some(Word::Tab),
        "context" => Some(Word::Context),
        "width" => Some(Word::Width),
        "characters" => Some(Word::Characters),
        "colors" => Some(Word::Colors),
        "severity" => Some(Word::Severity),
        "code" => Some(Word::Code),
        "message" => Some(Word::Message),
        "primary" => Some(Word::Primary),
        "secondary" => Some(Word::Secondary),
        "note" => Some(Word::Note),
        "suggestion" => Some(Word::Suggestion),
        "replace" => Some(Word::Replace),
        _ => None,
    }
}

/// Parses the name of a kind of file database. Returns `None` for any other text.
#[tactic(auto, unfolding(crate::specs::Words::database_kind_named))]
pub fn parse_database_kind(text: &str) -> Option<DatabaseKind>
    ensures { result ≡ database_kind_named text.now }
{
    match text {
        "one" => Some(DatabaseKind::One),
        "several" => Some(DatabaseKind::Several),
        "mapped" => Some(DatabaseKind::Mapped),
        _ => None,
    }
}

/// Parses the name of a layout. Returns `None` for any other text.
#[tactic(auto, unfolding(crate::specs::Words::layout_named))]
pub fn parse_layout(text: &str) -> Option<Layout>
    ensures { result ≡ layout_named text.now }
{
    match text {
        "classic" => Some(Layout::Classic),
        "unbroken" => Some(Layout::Unbroken),
        _ => None,
    }
}

/// Parses the name of a set of characters. Returns `None` for any other text.
#[tactic(auto, unfolding(crate::specs::Words::characters_named))]
pub fn parse_characters(text: &str) -> Option<CharacterSet>
    ensures { result ≡ characters_named text.now }
{
    match text {
        "box" => Some(CharacterSet::Box),
        "ascii" => Some(CharacterSet::Ascii),
        _ => None,
    }
}

/// Parses the name of a way to write colors. Returns `None` for any other text.
#[tactic(auto, unfolding(crate::specs::Words::colors_named))]
pub fn parse_colors(text: &str) -> Option<ColorChoice>
    ensures { result ≡ colors_named text.now }
{
    match text {
        "none" => Some(ColorChoice::Plain),
        "ansi" => Some(ColorChoice::Ansi),
        "svg" => Some(ColorChoice::Svg),
        _ => None,
    }
}
