//! Finds the first invalid argument, before anything is converted or allocated.

ghost use Rattle.std.specs.Prelude.{IfNone, IfSome, IsTrue, MatchOption, ◌≡◌};
ghost use Rattle.codespan_native.specs.Validity.{AreValid, FindsFirstInvalid, IsFirstInvalid};
ghost use Rattle.codespan_native.specs.Validity.{IsValidAt};

mod config;
mod diagnostic;
mod edits;
mod files;
mod values;

use crate::error::Argument;
use crate::raw::{RawConfig, RawDiagnostic, RawFile};
pub use crate::validate::config::first_invalid_color;
use crate::validate::config::{character_index, color_index, is_abi_valid, is_snippet_start_valid};
use crate::validate::diagnostic::{
    label_file_index, label_message_index, label_reserved_index, label_style_index, note_index,
};
pub use crate::validate::edits::{edit_reserved_index, replacement_index};
pub use crate::validate::files::invalid_field;
use crate::validate::files::{
    file_reserved_index, lines_index, locations_index, name_index, source_index,
};
use crate::validate::values::are_zero;
pub use crate::validate::values::is_utf8;

/// An invalid argument.
#[derive(Drop)]
pub struct InvalidArgument {
    /// Which one it is.
    pub argument: Argument,
    /// The index, from 0, of the character, style, file, label or note; 0 where there is only one
    /// such argument.
    pub index: usize,
}

/// The arguments, in the order of their numbers.
const ARGUMENTS: [Argument; 24] = [
    Argument::Abi,
    Argument::DisplayStyle,
    Argument::Layout,
    Argument::Form,
    Argument::ColorMode,
    Argument::Characters,
    Argument::SnippetStart,
    Argument::Character,
    Argument::Color,
    Argument::ConfigReserved,
    Argument::FileName,
    Argument::FileSource,
    Argument::FileLines,
    Argument::FileLocations,
    Argument::FileReserved,
    Argument::Severity,
    Argument::Code,
    Argument::Message,
    Argument::DiagnosticReserved,
    Argument::LabelStyle,
    Argument::LabelMessage,
    Argument::LabelFile,
    Argument::LabelReserved,
    Argument::Note,
];

/// Returns the invalid argument with the lowest number, and of several the one with the lowest
/// index.
pub fn first_invalid(
    files: &[RawFile<'_>],
    diagnostic: &RawDiagnostic<'_>,
    config: &RawConfig<'_>,
) -> Option<InvalidArgument>
    ensures none { IfNone result (AreValid files.now diagnostic.now config.now) }
    ensures some { IfSome result (λ found.
        IsFirstInvalid files.now diagnostic.now config.now found.argument found.index) }
{
    for argument in ARGUMENTS {
        if let Some(index) = invalid_index(argument, files, diagnostic, config) {
            return Some(InvalidArgument { argument, index });
        }
    }
    None
}

/// Returns the lowest index at which an argument is invalid; 0 where there is only one.
fn invalid_index(
    argument: Argument,
    files: &[RawFile<'_>],
    diagnostic: &RawDiagnostic<'_>,
    config: &RawConfig<'_>,
) -> Option<usize>
    ensures { FindsFirstInvalid (IsValidAt files.now diagnostic.now config.now argument) result }
{
    match argument {
        Argument::Abi => index_unless(is_abi_valid(config)),
        Argument::DisplayStyle => index_unless(config.display_style <= 2),
        Argument::Layout => index_unless(config.layout <= 1),
        Argument::Form => index_unless(config.form <= 4),
        Argument::ColorMode => index_unless(config.color_mode <= 2),
        Argument::Characters => index_unless(config.characters <= 2),
        Argument::SnippetStart => index_unless(is_snippet_start_valid(config)),
        Argument::Character => character_index(config),
        Argument::Color => color_index(config),
        Argument::ConfigReserved => index_unless(are_zero(&config.reserved)),
        Argument::FileName => name_index(files),
        Argument::FileSource => source_index(files),
        Argument::FileLines => lines_index(files),
        Argument::FileLocations => locations_index(files),
        Argument::FileReserved => file_reserved_index(files),
        Argument::Severity => index_unless(diagnostic.severity <= 4),
        Argument::Code => index_unless(is_utf8(diagnostic.code)),
        Argument::Message => index_unless(is_utf8(diagnostic.message)),
        Argument::DiagnosticReserved => index_unless(are_zero(&diagnostic.reserved)),
        Argument::LabelStyle => label_style_index(diagnostic.labels),
        Argument::LabelMessage => label_message_index(diagnostic.labels),
        Argument::LabelFile => label_file_index(files, diagnostic.labels),
        Argument::LabelReserved => label_reserved_index(diagnostic.labels),
        Argument::Note => note_index(diagnostic.notes),
    }
}

/// Returns 0, the index of an argument of which there is only one, unless it is valid.
fn index_unless(is_valid: bool) -> Option<usize>
    ensures { MatchOption result (IsTrue is_valid) (λ index. (index ≡ 0) × ¬ IsTrue is_valid) }
{
    if is_valid { None } else { Some(0) }
}
