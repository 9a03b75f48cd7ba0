//! Short and medium style: a header for each primary label, and in medium style the notes.

ghost use Rattle.codespan_core.specs.declared.term.config.DisplayStyle.TheVariants.{Short};
ghost use Rattle.codespan_renderer.specs.Renderers.{SameRenderer, config_of, writer_of};
ghost use Rattle.codespan_views.specs.WriteCalls.{WritesStyled};
ghost use Rattle.std.specs.Prelude.{◌≡◌};

use crate::labeled_files::is_primary;
use crate::rich::{render_diagnostic_header, render_notes};
use crate::source_file::SourceFile;
use codespan_core::diagnostic::Diagnostic;
use codespan_core::files::{Error, Files};
use codespan_core::term::WriteStyle;
use codespan_renderer::term::renderer::Renderer;

/// Renders a header for each primary label of a diagnostic, with the locus of the label's start, or
/// one header without a locus where no label is primary; in medium style the notes follow. This is
/// as in the Rust crate.
///
/// # Example
///
/// This writes the line `bug: `.
///
/// ```rust
/// let bug = Diagnostic::bug(alloc);
/// let config = Config::default();
/// let mut plain = PlainWriter::new(Vec::new(alloc));
/// let mut renderer = Renderer::new(&mut plain, &config);
/// ShortDiagnostic::new(&bug, true).render(&files, &mut renderer)?;
/// ```
#[derive(Clone, Copy)]
pub struct ShortDiagnostic<'diagnostic, FileId> {
    diagnostic: &'diagnostic Diagnostic<FileId>,
    show_notes: bool,
}

impl<'diagnostic, FileId: Copy + Eq> ShortDiagnostic<'diagnostic, FileId> {
    ghost use Rattle.codespan_views.specs.Views.{short_diagnostic_of, short_style_of};
    ghost use Rattle.codespan_views.specs.Views.{style_with_notes};

    /// Returns a view of the diagnostic: in medium style if `show_notes` is set, else in short
    /// style.
    pub fn new(
        diagnostic: &'diagnostic Diagnostic<FileId>,
        show_notes: bool,
    ) -> ShortDiagnostic<'diagnostic, FileId>
        ensures diagnostic { short_diagnostic_of result ≡ diagnostic.now }
        ensures style { short_style_of result ≡ style_with_notes show_notes }
    {
        ShortDiagnostic {
            diagnostic,
            show_notes,
        }
    }

    /// Writes the output, by the renderer's configuration.
    ///
    /// For each primary label it looks up the name of its file and the location of its start, and
    /// then writes the header. Nothing is looked up for secondary labels.
    ///
    /// # Errors
    ///
    /// - [`Error::Io`]: the writer fails or takes no bytes, or a lookup fails with it.
    /// - [`Error::OutOfMemory`]: an allocation fails, or a lookup fails with it. The contract
    ///   leaves open when, but it is not returned without primary labels.
    /// - [`Error::FormatError`]: the `Display` of a file's name fails, or a lookup fails with it.
    ///   The contract leaves open when, but it is not returned without primary labels.
    /// - Any other error: that of the first lookup that fails.
    ///
    /// If the writer fails, a prefix of the output has been written; otherwise exactly the headers
    /// of the primary labels before the one at which the call fails. This is known of a writer
    /// whose bytes are known.
    pub fn render<'files, F, W>(
        &self,
        files: &'files F,
        renderer: &mut Renderer<'_, '_, W>,
    ) -> Result<(), Error>
    where
        F: Files<'files, FileId = FileId>,
        W: WriteStyle,
        FileId: 'files,
        ensures same { SameRenderer renderer.old renderer.new }
        ensures renders { let config = config_of renderer.old in
            WritesStyled (short_style_of self.now) config config
            (F.database files.now) (short_diagnostic_of self.now)
            (W.sink (writer_of renderer.old)) result (W.sink (writer_of renderer.new)) }
    {
        let diagnostic = self.diagnostic;
        render_headers(files, diagnostic, renderer)?;
        if self.show_notes {
            render_notes(diagnostic, renderer, 0)
        } else {
            Ok(())
        }
    }
}

/// Renders a header for each primary label, in their order, or one without a locus where no label
/// is primary.
///
/// # Errors
///
/// As [`ShortDiagnostic::render`].
fn render_headers<'files, F: Files<'files>, W: WriteStyle>(
    files: &'files F,
    diagnostic: &Diagnostic<F::FileId>,
    renderer: &mut Renderer<'_, '_, W>,
) -> Result<(), Error>
    ensures same { SameRenderer renderer.old renderer.new }
    ensures renders { WritesStyled Short (config_of renderer.old) (config_of renderer.old)
        (F.database files.now) diagnostic.now
        (W.sink (writer_of renderer.old)) result (W.sink (writer_of renderer.new)) }
{
    let alloc = *diagnostic.labels.allocator();
    let mut has_primary = false;
    for label in &diagnostic.labels {
        if is_primary(label) {
            has_primary = true;
            let file = SourceFile {
                files,
                file_id: label.file_id,
            };
            let locus = file.locus(alloc, label.range.start)?;
            render_diagnostic_header(diagnostic, renderer, Some(&locus))?;
        }
    }
    if has_primary {
        return Ok(());
    }
    render_diagnostic_header(diagnostic, renderer, None)
}
