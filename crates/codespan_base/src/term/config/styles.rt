//! The styles of the parts of the output.

ghost use Rattle.std.specs.Prelude.{◌≡◌};
ghost use Rattle.codespan_base.specs.PartStyles.{colored, bold_intense};

use crate::term::config::color::{Color, ColorSpec};
use codespan_core::diagnostic::{LabelStyle, Severity};

/// The styles of the parts of the output.
///
/// The default styles are those of the Rust crate's code. Its documentation says blue, and cyan on
/// Windows alone, for secondary labels, line numbers, borders and bullets; its code has cyan
/// everywhere.
///
/// # Examples
///
/// ```rust
/// let styles = Styles::default();
/// let mut colored = StylesWriter::new(Ansi::new(&mut stdout), &styles);
/// emit_to_write_style(&mut colored, &rich, &files, &diagnostic)?;
/// ```
#[derive(Clone, Copy, Debug, PartialEq, Eq)]
pub struct Styles {
    /// The severity and the code in the header of a bug. By default red, bold and intense.
    pub header_bug: ColorSpec,
    /// The severity and the code in the header of an error. By default red, bold and intense.
    pub header_error: ColorSpec,
    /// The severity and the code in the header of a warning. By default yellow, bold and intense.
    pub header_warning: ColorSpec,
    /// The severity and the code in the header of a note. By default green, bold and intense.
    pub header_note: ColorSpec,
    /// The severity and the code in the header of a help message. By default cyan, bold and
    /// intense.
    pub header_help: ColorSpec,
    /// The message of a header, with the colon before it. By default bold and intense.
    pub header_message: ColorSpec,

    /// Primary labels of a bug. By default red.
    pub primary_label_bug: ColorSpec,
    /// Primary labels of an error. By default red.
    pub primary_label_error: ColorSpec,
    /// Primary labels of a warning. By default yellow.
    pub primary_label_warning: ColorSpec,
    /// Primary labels of a note. By default green.
    pub primary_label_note: ColorSpec,
    /// Primary labels of a help message. By default cyan.
    pub primary_label_help: ColorSpec,
    /// Secondary labels. By default cyan.
    pub secondary_label: ColorSpec,

    /// Line numbers. By default cyan.
    pub line_number: ColorSpec,
    /// The border left of the source, and the text before a locus. By default cyan.
    pub source_border: ColorSpec,
    /// The bullet of a note. By default cyan.
    pub note_bullet: ColorSpec,
}

impl Styles {
    ghost use Rattle.codespan_base.specs.PartStyles.{no_color_styles, header_color_spec};
    ghost use Rattle.codespan_base.specs.PartStyles.{label_color_spec};

    /// Borrows the style of the severity and the code in a header.
    pub fn header(&self, severity: Severity) -> &ColorSpec
        ensures { result.now ≡ header_color_spec self.now severity }
    {
        match severity {
            Severity::Bug => &self.header_bug,
            Severity::Error => &self.header_error,
            Severity::Warning => &self.header_warning,
            Severity::Note => &self.header_note,
            Severity::Help => &self.header_help,
        }
    }

    /// Borrows the style of the message of a header, with the colon before it.
    pub fn header_message(&self) -> &ColorSpec
        ensures { result.now ≡ self.now.header_message }
    {
        &self.header_message
    }

    /// Borrows the style of line numbers.
    pub fn line_number(&self) -> &ColorSpec
        ensures { result.now ≡ self.now.line_number }
    {
        &self.line_number
    }

    /// Borrows the style of the bullets of notes.
    pub fn note_bullet(&self) -> &ColorSpec
        ensures { result.now ≡ self.now.note_bullet }
    {
        &self.note_bullet
    }

    /// Borrows the style of the border left of the source, and of the text before a locus.
    pub fn source_border(&self) -> &ColorSpec
        ensures { result.now ≡ self.now.source_border }
    {
        &self.source_border
    }

    /// Borrows the style of a label in a diagnostic of this severity. Secondary labels have one
    /// style in all severities.
    pub fn label(&self, severity: Severity, label_style: LabelStyle) -> &ColorSpec
        ensures { result.now ≡ label_color_spec self.now severity label_style }
    {
        match (label_style, severity) {
            (LabelStyle::Primary, Severity::Bug) => &self.primary_label_bug,
            (LabelStyle::Primary, Severity::Error) => &self.primary_label_error,
            (LabelStyle::Primary, Severity::Warning) => &self.primary_label_warning,
            (LabelStyle::Primary, Severity::Note) => &self.primary_label_note,
            (LabelStyle::Primary, Severity::Help) => &self.primary_label_help,
            (LabelStyle::Secondary, _) => &self.secondary_label,
        }
    }

    /// Returns the styles that are all [`ColorSpec::new`], that of plain text.
    pub fn no_color() -> Styles
        ensures { result ≡ no_color_styles }
    {
        let unset = ColorSpec::new();
        Styles {
            header_bug: unset,
            header_error: unset,
            header_warning: unset,
            header_note: unset,
            header_help: unset,
            header_message: unset,
            primary_label_bug: unset,
            primary_label_error: unset,
            primary_label_warning: unset,
            primary_label_note: unset,
            primary_label_help: unset,
            secondary_label: unset,
            line_number: unset,
            source_border: unset,
            note_bullet: unset,
        }
    }
}

impl Default for Styles {
    ghost use Rattle.std.specs.Prelude.{◌≡◌};
    ghost use Rattle.codespan_base.specs.PartStyles.{default_styles};

    ghost is_default = { λ s. s ≡ default_styles };

    fn default() -> Styles {
        Styles {
            header_bug: bold_intense(Some(Color::Red)),
            header_error: bold_intense(Some(Color::Red)),
            header_warning: bold_intense(Some(Color::Yellow)),
            header_note: bold_intense(Some(Color::Green)),
            header_help: bold_intense(Some(Color::Cyan)),
            header_message: bold_intense(None),
            primary_label_bug: colored(Color::Red),
            primary_label_error: colored(Color::Red),
            primary_label_warning: colored(Color::Yellow),
            primary_label_note: colored(Color::Green),
            primary_label_help: colored(Color::Cyan),
            secondary_label: colored(Color::Cyan),
            line_number: colored(Color::Cyan),
            source_border: colored(Color::Cyan),
            note_bullet: colored(Color::Cyan),
        }
    }
}

/// Returns the style that has this color and nothing else.
fn colored(color: Color) -> ColorSpec
    ensures { result ≡ colored color }
{
    ColorSpec {
        fg: Some(color),
        ..ColorSpec::new()
    }
}

/// Returns a bold and intense style, with this color if there is one.
fn bold_intense(color: Option<Color>) -> ColorSpec
    ensures { result ≡ bold_intense color }
{
    ColorSpec {
        fg: color,
        bold: true,
        intense: true,
        ..ColorSpec::new()
    }
}
