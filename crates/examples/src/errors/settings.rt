//! The errors in the settings of a server, and their diagnostics.

ghost use Rattle.std.specs.Prelude.{◌≡◌, IfOk, IsSome, IfSome, slice_get};
ghost use Rattle.examples.specs.ErrorRanges.{error_range};

use codespan_reporting::diagnostic::{Diagnostic, Label, LabelStyle};
use codespan_reporting::files::Error;
use std::alloc::Global;
use std::fmt;
use std::fmt::Write;
use std::ops::Range;

/// A key of the settings.
#[derive(Clone, Copy)]
pub enum Key {
    /// The port that the server listens on.
    Port,
    /// How many requests are handled at a time.
    Workers,
    /// How many seconds a request may take.
    Timeout,
}

/// Writes the key as it is written in the settings.
impl fmt::Display for Key {
    fn fmt<W: Write>(&self, f: &mut fmt::Formatter<W>) -> fmt::Result {
        match self {
            Key::Port => write!(f, "port"),
            Key::Workers => write!(f, "workers"),
            Key::Timeout => write!(f, "timeout"),
        }
    }
}

/// An error in a text of settings. Ranges are byte ranges of the text, their ends exclusive.
#[derive(Drop)]
pub enum SettingsError {
    /// The value of a key is not a number.
    NotANumber {
        /// The key.
        key: Key,
        /// The range of its value.
        value: Range<usize>,
    },
    /// A key is set twice.
    SetTwice {
        /// The key.
        key: Key,
        /// The range of the key, where it is set first.
        first: Range<usize>,
        /// The range of the key, where it is set again.
        again: Range<usize>,
    },
    /// A line sets an unknown key.
    UnknownKey {
        /// The range of the key.
        key_range: Range<usize>,
        /// The key that may have been meant.
        suggestion: Option<Key>,
    },
}

impl SettingsError {
    /// Returns the diagnostic of the error, in this file. Its first label is primary, and covers
    /// the bytes that are wrong.
    ///
    /// # Errors
    ///
    /// `OutOfMemory`: an allocation fails.
    pub fn diagnostic<FileId: Copy + Drop>(
        &self,
        alloc: Global,
        file: FileId,
    ) -> Result<Diagnostic<FileId>, Error>
        ensures labeled { IfOk result (λ d. IsSome (slice_get d.labels.items 0)) }
        ensures range { IfOk result (λ d. IfSome (slice_get d.labels.items 0) (λ label.
            (label.style ≡ LabelStyle.Primary) × (label.range ≡ error_range self.now))) }
    {
        match self {
            SettingsError::NotANumber { key, value } => {
                let primary_label = Label::primary(alloc, file, value.start..value.end);
                Diagnostic::error(alloc)
                    .with_code("S001")?
                    .with_message(format_args!("`{key}` must be a number"))?
                    .with_label(primary_label.with_message("not a number")?)
            }
            SettingsError::SetTwice { key, first, again } => {
                let primary_label = Label::primary(alloc, file, again.start..again.end);
                let before = Label::secondary(alloc, file, first.start..first.end);
                Diagnostic::warning(alloc)
                    .with_code("S002")?
                    .with_message(format_args!("`{key}` is set twice"))?
                    .with_label(primary_label.with_message("set again here")?)?
                    .with_label(before.with_message("first set here")?)?
                    .with_note("the last value is used")
            }
            SettingsError::UnknownKey {
                key_range,
                suggestion,
            } => {
                let primary_label = Label::primary(alloc, file, key_range.start..key_range.end);
                let diagnostic = Diagnostic::error(alloc)
                    .with_code("S003")?
                    .with_message("unknown key")?
                    .with_label(primary_label.with_message("no such setting")?)?;
                match suggestion {
                    Some(key) => diagnostic.with_note(format_args!("help: did you mean `{key}`?")),
                    None => Ok(diagnostic),
                }
            }
        }
    }
}
