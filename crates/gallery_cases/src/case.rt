//! A case: a diagnostic, its files, and a configuration.

ghost use Rattle.std.specs.Prelude.{◌≡◌, ◌⊎◌, [], ◌∷◌, ◌++◌, map, OnOk};
ghost use Rattle.std.specs.Prelude.{IfErr, string_bytes};
ghost use Rattle.codespan_base.specs.ConfigEquality.{IsEqualChars};
ghost use Rattle.codespan_suggestions.specs.Views.{edit_view, suggestion_view};
ghost use Rattle.gallery_cases.specs.Cases.{IsNew, Applies, FailsToApply, ContinuesSource};
ghost use Rattle.gallery_cases.specs.Cases.{AddsEdit, file_view, new_suggestion};
ghost use Rattle.gallery_cases.specs.Words.{chars_of};
ghost use Rattle.gallery_cases.specs.declared.errors.LineError.TheVariants.{NoFile, NoSuggestion};
ghost use Rattle.gallery_cases.specs.declared.errors.LineError.TheVariants.{OutOfMemory};

use crate::errors::LineError;
use crate::statement::{ContextLines, Statement};
use codespan_base::diagnostic::Diagnostic;
use codespan_base::term::{Chars, Config};
use codespan_edits::Edit;
use codespan_suggestions::Suggestion;
use std::alloc::Global;

/// The kind of the file database of a case.
#[derive(Clone, Copy)]
pub enum DatabaseKind {
    /// A `SimpleFile`.
    One,
    /// `SimpleFiles`.
    Several,
    /// A `MappedFile`.
    Mapped,
}

/// A set of characters for borders, carets and lanes, by its name.
#[derive(Clone, Copy)]
pub enum CharacterSet {
    /// `Chars::box_drawing()`.
    Box,
    /// `Chars::ascii()`.
    Ascii,
}

impl CharacterSet {
    /// Returns the characters of this set.
    pub fn chars<'chars>(self) -> Chars<'chars>
        ensures { IsEqualChars (chars_of self) result }
    {
        match self {
            CharacterSet::Box => Chars::box_drawing(),
            CharacterSet::Ascii => Chars::ascii(),
        }
    }
}

/// Whether an output has colors, and how these are written.
#[derive(Clone, Copy, PartialEq, Eq)]
pub enum ColorChoice {
    /// Plain text, without colors.
    Plain,
    /// Colors as ANSI escape sequences.
    Ansi,
    /// Colors in an SVG document.
    Svg,
}

/// A file of a case.
#[derive(Drop)]
pub struct File {
    /// The displayed name.
    pub name: String,
    /// The source.
    pub source: String,
}

/// A line number that is set.
#[derive(Clone, Copy)]
pub struct SetNumber {
    /// The index of the line, from 0.
    pub line: usize,
    /// Its number.
    pub number: usize,
}

/// A case: a diagnostic to be rendered, its files, and a configuration.
#[derive(Drop)]
pub struct Case<'input> {
    /// The name of the case.
    pub name: &'input str,
    /// The kind of the file database.
    pub database_kind: DatabaseKind,
    /// The files in their order.
    pub files: Vec<File>,
    /// The set line numbers. Only a `MappedFile` uses them.
    pub set_numbers: Vec<SetNumber>,
    /// The configuration.
    pub config: Config<'input>,
    /// Whether the output has colors, and how these are written.
    pub colors: ColorChoice,
    /// The diagnostic.
    pub diagnostic: Diagnostic<usize>,
    /// The suggestions, whose outputs are below that of the diagnostic.
    pub suggestions: Vec<Suggestion<usize>>,
}

impl<'input> Case<'input> {
    /// Returns a new case with this name: an error without message, label or note, no suggestions,
    /// no files, and the default configuration, without colors.
    pub fn new(alloc: Global, name: &'input str) -> Case<'input>
        ensures { IsNew name.now result }
    {
        Case {
            name,
            database_kind: DatabaseKind::Several,
            files: Vec::new(alloc),
            set_numbers: Vec::new(alloc),
            config: Config::default(),
            colors: ColorChoice::Plain,
            diagnostic: Diagnostic::error(alloc),
            suggestions: Vec::new(alloc),
        }
    }

    /// Applies a statement. It replaces an earlier one of the same kind, except that files,
    /// sources, line numbers, labels, notes, suggestions and edits are added.
    ///
    /// # Errors
    ///
    /// - `NoFile`: the statement continues a source, and the case has no file.
    /// - `NoSuggestion`: the statement is an edit, and the case has no suggestion.
    /// - `OutOfMemory`: an allocation fails.
    pub fn apply(&mut self, statement: Statement) -> Result<(), LineError>
        ensures applied { OnOk result (Applies statement self.old self.new) }
        ensures failed { IfErr result (FailsToApply statement self.old) }
    {
        match statement {
            Statement::Database(kind) => self.database_kind = kind,
            Statement::File(name) => self.add_file(name)?,
            Statement::Source(text) => self.continue_source(text.as_str())?,
            Statement::Number { line, number } => self
                .set_numbers
                .push(SetNumber { line, number })?,
            Statement::Style(style) => self.config.display_style = style,
            Statement::Layout(layout) => self.config.layout = layout,
            Statement::Tab(width) => self.config.tab_width = width,
            Statement::Context(context) => self.set_context(context),
            Statement::Width(width) => self.config.max_width = Some(width),
            Statement::Characters(set) => self.config.chars = set.chars(),
            Statement::Colors(colors) => self.colors = colors,
            Statement::Severity(severity) => self.diagnostic.severity = severity,
            Statement::Code(code) => self.diagnostic.code = Some(code),
            Statement::Message(message) => self.diagnostic.message = message,
            Statement::Label(label) => self.diagnostic.labels.push(label)?,
            Statement::Note(note) => self.diagnostic.notes.push(note)?,
            Statement::Suggestion(message) => self.add_suggestion(message)?,
            Statement::Replace(edit) => self.add_edit(edit)?,
        }
        Ok(())
    }

    /// Adds a file with an empty source.
    fn add_file(&mut self, name: String) -> Result<(), LineError>
        ensures others { self.new ≡ record self.old { files = self.new.files } }
        ensures files { OnOk result (map file_view self.new.files.items
            ≡ map file_view self.old.files.items ++ (string_bytes name, []) ∷ []) }
        ensures failed { IfErr result (λ line_error. line_error ≡ OutOfMemory) }
    {
        let source = String::new(*self.files.allocator());
        self.files.push(File { name, source })?;
        Ok(())
    }

    /// Appends a text to the source of the last file.
    fn continue_source(&mut self, text: &str) -> Result<(), LineError>
        ensures others { self.new ≡ record self.old { files = self.new.files } }
        ensures files { OnOk result
            (ContinuesSource text.now (map file_view self.old.files.items)
            (map file_view self.new.files.items)) }
        ensures failed { IfErr result (λ line_error. (line_error ≡ OutOfMemory)
            ⊎ ((line_error ≡ NoFile) × (self.old.files.items ≡ []))) }
    {
        let Some(file) = self.files.last_mut() else {
            return Err(LineError::NoFile);
        };
        file.source.push_str(text)?;
        Ok(())
    }

    /// Adds a suggestion without edits.
    fn add_suggestion(&mut self, message: String) -> Result<(), LineError>
        ensures others { self.new ≡ record self.old { suggestions = self.new.suggestions } }
        ensures suggestions { OnOk result (map suggestion_view self.new.suggestions.items
            ≡ map suggestion_view self.old.suggestions.items
            ++ new_suggestion (string_bytes message) ∷ []) }
        ensures failed { IfErr result (λ line_error. line_error ≡ OutOfMemory) }
    {
        let mut suggestion = Suggestion::new(*self.suggestions.allocator());
        suggestion.message = message;
        self.suggestions.push(suggestion)?;
        Ok(())
    }

    /// Adds an edit to the last suggestion.
    fn add_edit(&mut self, edit: Edit<usize>) -> Result<(), LineError>
        ensures others { self.new ≡ record self.old { suggestions = self.new.suggestions } }
        ensures suggestions { OnOk result
            (AddsEdit (edit_view edit) (map suggestion_view self.old.suggestions.items)
            (map suggestion_view self.new.suggestions.items)) }
        ensures failed { IfErr result (λ line_error. (line_error ≡ OutOfMemory)
            ⊎ ((line_error ≡ NoSuggestion) × (self.old.suggestions.items ≡ []))) }
    {
        let Some(suggestion) = self.suggestions.last_mut() else {
            return Err(LineError::NoSuggestion);
        };
        suggestion.edits.push(edit)?;
        Ok(())
    }

    /// Sets how many context lines are shown.
    fn set_context(&mut self, context: ContextLines)
        ensures { self.new ≡ record self.old {
          config = record self.old.config {
            start_context_lines = context.start;
            end_context_lines = context.end;
            before_label_lines = context.before;
            after_label_lines = context.after;
          };
        } }
    {
        self.config.start_context_lines = context.start;
        self.config.end_context_lines = context.end;
        self.config.before_label_lines = context.before;
        self.config.after_label_lines = context.after;
    }
}
