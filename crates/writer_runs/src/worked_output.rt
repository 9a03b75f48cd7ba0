//! A worked output: a case, and the texts that are expected of it.

use codespan_base::files::Error;
use codespan_base::term::{Config, DisplayStyle};
use gallery_cases::case::Case;
use gallery_cases::errors::LineError;
use std::alloc::Global;

/// Which output of a case a text is.
#[derive(Clone, Copy, PartialEq, Eq)]
pub enum TextKind {
    /// The text in rich style.
    Rich,
    /// The text in medium style.
    Medium,
    /// The text in short style.
    Short,
    /// The text in escape sequences, in each style whose text is expected.
    Ansi,
    /// The end of the text in escape sequences, in each style whose text is expected.
    AnsiEnd,
}

impl TextKind {
    /// Returns the kind that a word names, or `None`.
    pub fn named(word: &str) -> Option<TextKind> {
        match word {
            "rich" => Some(TextKind::Rich),
            "medium" => Some(TextKind::Medium),
            "short" => Some(TextKind::Short),
            "ansi" => Some(TextKind::Ansi),
            "ansi-end" => Some(TextKind::AnsiEnd),
            _ => None,
        }
    }

    /// Returns the kind of the plain text in a style.
    fn plain(style: DisplayStyle) -> TextKind {
        match style {
            DisplayStyle::Rich => TextKind::Rich,
            DisplayStyle::Medium => TextKind::Medium,
            DisplayStyle::Short => TextKind::Short,
        }
    }
}

/// What is expected of a text in escape sequences.
#[derive(Clone, Copy)]
pub enum ExpectedColors<'text> {
    /// The end of the text.
    End(&'text str),
    /// The whole text.
    Whole(&'text str),
}

impl ExpectedColors<'_> {
    /// Returns whether a text is as expected.
    pub fn is_met_by(self, text: &[u8]) -> bool {
        match self {
            ExpectedColors::End(end) => text.ends_with(end.as_bytes()),
            ExpectedColors::Whole(whole) => text == whole.as_bytes(),
        }
    }
}

/// An expected text.
#[derive(Drop)]
struct Text {
    kind: TextKind,
    text: String,
}

/// A case, and its expected texts.
#[derive(Drop)]
pub struct WorkedOutput<'input> {
    /// The case. Its style and how it writes colors are not used: it is rendered in each.
    pub case: Case<'input>,
    texts: Vec<Text>,
}

impl<'input> WorkedOutput<'input> {
    /// Returns a worked output of this name, with an empty case and no text.
    pub fn new(alloc: Global, name: &'input str) -> WorkedOutput<'input> {
        WorkedOutput {
            case: Case::new(alloc, name),
            texts: Vec::new(alloc),
        }
    }

    /// Adds an expected text, or appends it to the one of its kind if there is one.
    ///
    /// # Errors
    ///
    /// `OutOfMemory` if an allocation fails.
    pub fn add_text(&mut self, kind: TextKind, text: String) -> Result<(), LineError> {
        if let Some(index) = self.index_of(kind) {
            if let Some(expected) = self.texts.get_mut(index) {
                expected.text.push_str(text.as_str())?;
                return Ok(());
            }
        }
        self.texts.push(Text { kind, text })?;
        Ok(())
    }

    /// Returns the index of the expected text of a kind, if there is one.
    fn index_of(&self, kind: TextKind) -> Option<usize> {
        for (index, expected) in self.texts.iter().enumerate() {
            if expected.kind == kind {
                return Some(index);
            }
        }
        None
    }

    /// Returns the expected text of a kind, if there is one.
    fn text(&self, kind: TextKind) -> Option<&str> {
        for expected in self.texts.as_slice() {
            if expected.kind == kind {
                return Some(expected.text.as_str());
            }
        }
        None
    }

    /// Returns the expected plain text in a style, if there is one.
    pub fn plain_text(&self, style: DisplayStyle) -> Option<&str> {
        self.text(TextKind::plain(style))
    }

    /// Returns what is expected of the text in escape sequences in a style: nothing if no plain
    /// text of the style is expected.
    pub fn colors(&self, style: DisplayStyle) -> ExpectedColors<'_> {
        if self.plain_text(style).is_none() {
            return ExpectedColors::End("");
        }
        match self.text(TextKind::Ansi) {
            Some(whole) => ExpectedColors::Whole(whole),
            None => ExpectedColors::End(self.text(TextKind::AnsiEnd).unwrap_or("")),
        }
    }

    /// Returns the configuration of the case in a style.
    ///
    /// # Errors
    ///
    /// `OutOfMemory` if an allocation fails.
    pub fn config(&self, style: DisplayStyle) -> Result<Config<'input>, Error> {
        let mut config = self.case.config.clone()?;
        config.display_style = style;
        Ok(config)
    }
}
