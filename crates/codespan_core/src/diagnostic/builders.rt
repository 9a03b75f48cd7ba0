//! The builders of a diagnostic: its `with_` calls.

ghost use Rattle.std.specs.Prelude.{◌≡◌, ◌++◌, ◌∷◌, [], IfOk, IfSome, IfErr, OnErr};
ghost use Rattle.std.specs.Prelude.{IsErrOf, IsSome, String, string_bytes, map, Some};
ghost use Rattle.std.specs.Global.{Global};
ghost use Rattle.std.specs.Option.{option_map};
ghost use Rattle.std.specs.Iterator.{IsFinite};
ghost use Rattle.std.specs.Iterator.Runs.{WholeRun};

use crate::diagnostic::text::display_text;
use crate::diagnostic::{Diagnostic, Label};
use crate::files::Error;
use std::fmt::Display;

impl<FileId: Drop> Diagnostic<FileId> {
    ghost use Rattle.codespan_core.specs.Diagnostics.{IsDisplayError};

    /// Returns the diagnostic with the text that `code` displays as its code.
    ///
    /// # Errors
    ///
    /// - [`Error::FormatError`] where the `Display` fails.
    /// - [`Error::OutOfMemory`] where an allocation fails.
    pub fn with_code<D: Display + Drop>(mut self, code: D) -> Result<Self, Error>
        ensures code { IfOk result (λ d.
            IfSome (D.output code) (λ bytes. option_map string_bytes d.code ≡ Some bytes)) }
        ensures set { IfOk result (λ d. IsSome d.code) }
        ensures others { IfOk result (λ d. d ≡ record self { code = d.code }) }
        ensures failed { IfErr result IsDisplayError }
    {
        self.code = Some(display_text(*self.message.allocator(), code)?);
        Ok(self)
    }

    /// Returns the diagnostic with the text that `message` displays as its message.
    ///
    /// # Errors
    ///
    /// - [`Error::FormatError`] where the `Display` fails.
    /// - [`Error::OutOfMemory`] where an allocation fails.
    pub fn with_message<D: Display + Drop>(mut self, message: D) -> Result<Self, Error>
        ensures message { IfOk result (λ d.
            IfSome (D.output message) (λ bytes. string_bytes d.message ≡ bytes)) }
        ensures others { IfOk result (λ d. d ≡ record self { message = d.message }) }
        ensures failed { IfErr result IsDisplayError }
    {
        self.message = display_text(*self.message.allocator(), message)?;
        Ok(self)
    }

    /// Returns the diagnostic with one more label at the end.
    ///
    /// # Errors
    ///
    /// [`Error::OutOfMemory`] where an allocation fails.
    pub fn with_label(mut self, label: Label<FileId>) -> Result<Self, Error>
        ensures labels { IfOk result (λ d. d.labels.items ≡ self.labels.items ++ label ∷ []) }
        ensures others { IfOk result (λ d. d ≡ record self { labels = d.labels }) }
        ensures failed { OnErr result (IsErrOf result Error.OutOfMemory) }
    {
        self.labels.push(label)?;
        Ok(self)
    }

    /// Returns the diagnostic with these labels at the end, in their order.
    ///
    /// # Errors
    ///
    /// [`Error::OutOfMemory`] where an allocation fails.
    pub fn with_labels(mut self, mut labels: Vec<Label<FileId>>) -> Result<Self, Error>
        ensures labels { IfOk result (λ d. d.labels.items ≡ self.labels.items ++ labels.items) }
        ensures others { IfOk result (λ d. d ≡ record self { labels = d.labels }) }
        ensures failed { OnErr result (IsErrOf result Error.OutOfMemory) }
    {
        self.labels.append(&mut labels)?;
        Ok(self)
    }

    /// Returns the diagnostic with the labels of an iterator at the end, in their order.
    ///
    /// # Errors
    ///
    /// [`Error::OutOfMemory`] where an allocation fails.
    ///
    /// # Requires
    ///
    /// Each iterator that `into_iter` may return is finite, and its `next` may be called.
    pub fn with_labels_iter<I: IntoIterator<Item = Label<FileId>>>(
        self,
        labels: I,
    ) -> Result<Self, Error>
    where
        I::IntoIter: Drop,
        requires { (it : I.IntoIter) → I.into_iter_gives labels it →
            I.IntoIter.can_next it × IsFinite (I.IntoIter.remaining it) }
        ensures labels { IfOk result (λ d.
            (it : I.IntoIter) × I.into_iter_gives labels it
            × WholeRun I.IntoIter.next_gives it (λ run.
            d.labels.items ≡ self.labels.items ++ run.items)) }
        ensures others { IfOk result (λ d. d ≡ record self { labels = d.labels }) }
        ensures failed { OnErr result (IsErrOf result Error.OutOfMemory) }
    {
        let labels: Vec<Label<FileId>> = labels.into_iter().collect(*self.labels.allocator())?;
        self.with_labels(labels)
    }

    /// Returns the diagnostic with the text that `note` displays as one more note at the end.
    ///
    /// # Errors
    ///
    /// - [`Error::FormatError`] where the `Display` fails.
    /// - [`Error::OutOfMemory`] where an allocation fails.
    pub fn with_note<D: Display + Drop>(mut self, note: D) -> Result<Self, Error>
        ensures note { IfOk result (λ d.
            IfSome (D.output note) (λ bytes.
            map string_bytes d.notes.items
            ≡ map string_bytes self.notes.items ++ bytes ∷ [])) }
        ensures added { IfOk result (λ d.
            (added : String Global) × (d.notes.items ≡ self.notes.items ++ added ∷ [])) }
        ensures others { IfOk result (λ d. d ≡ record self { notes = d.notes }) }
        ensures failed { IfErr result IsDisplayError }
    {
        let text = display_text(*self.message.allocator(), note)?;
        self.notes.push(text)?;
        Ok(self)
    }

    /// Returns the diagnostic with these notes at the end, in their order.
    ///
    /// # Errors
    ///
    /// [`Error::OutOfMemory`] where an allocation fails.
    pub fn with_notes(mut self, mut notes: Vec<String>) -> Result<Self, Error>
        ensures notes { IfOk result (λ d. d.notes.items ≡ self.notes.items ++ notes.items) }
        ensures others { IfOk result (λ d. d ≡ record self { notes = d.notes }) }
        ensures failed { OnErr result (IsErrOf result Error.OutOfMemory) }
    {
        self.notes.append(&mut notes)?;
        Ok(self)
    }

    /// Returns the diagnostic with the notes of an iterator at the end, in their order.
    ///
    /// # Errors
    ///
    /// [`Error::OutOfMemory`] where an allocation fails.
    ///
    /// # Requires
    ///
    /// Each iterator that `into_iter` may return is finite, and its `next` may be called.
    pub fn with_notes_iter<I: IntoIterator<Item = String>>(self, notes: I) -> Result<Self, Error>
    where
        I::IntoIter: Drop,
        requires { (it : I.IntoIter) → I.into_iter_gives notes it →
            I.IntoIter.can_next it × IsFinite (I.IntoIter.remaining it) }
        ensures notes { IfOk result (λ d.
            (it : I.IntoIter) × I.into_iter_gives notes it
            × WholeRun I.IntoIter.next_gives it (λ run.
            d.notes.items ≡ self.notes.items ++ run.items)) }
        ensures others { IfOk result (λ d. d ≡ record self { notes = d.notes }) }
        ensures failed { OnErr result (IsErrOf result Error.OutOfMemory) }
    {
        let notes: Vec<String> = notes.into_iter().collect(*self.notes.allocator())?;
        self.with_notes(notes)
    }
}
