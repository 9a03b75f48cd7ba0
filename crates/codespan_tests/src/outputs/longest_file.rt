//! A file that has a line for each index, so that context lines reach the greatest one.

ghost use Rattle.std.specs.Prelude.{refl};

use crate::outputs::rendering::assert_renders;
use codespan_reporting::diagnostic::{Diagnostic, Label};
use codespan_reporting::files::{Error, Files, Location};
use codespan_reporting::term::{Config, Layout};
use std::alloc::Global;
use std::ops::Range;
use std::panic::Expect;
use std::process::Abort;

/// A text of newlines that is as long as a text can be. Its lines are empty and numbered by their
/// indices, and its source fails.
#[derive(Drop)]
struct LongestFile<'text> {
    name: &'text str,
}

impl<'a, 'text: 'a> Files<'a> for LongestFile<'text> {
    ghost use Rattle.codespan_tests.specs.LongestFiles.{longest_file, longest_failure};
    ghost use Rattle.codespan_tests.specs.LongestFiles.{longest_lawful, longest_past_last_line};

    type FileId = ();

    type Name = &'text str;

    type Source = &'text str;

    ghost database = { λ s. record {
      same = ⟦<() as PartialEq>⟧.eq;
      file = λ _. longest_file s.name.now;
      failure = λ _. longest_failure;
    } };

    fn name(&'a self, _id: ()) -> Result<&'text str, Error> {
        Ok(self.name)
    }

    fn source(&'a self, _id: ()) -> Result<&'text str, Error> {
        Err(Error::FileMissing)
    }

    #[tactic(auto, using(crate::specs::LongestFiles::longest_lines))]
    fn line_index(&'a self, _id: (), byte_index: usize) -> Result<usize, Error> {
        Ok(byte_index)
    }

    fn line_number(&'a self, _id: (), line_index: usize) -> Result<usize, Error> {
        Ok(line_index)
    }

    fn column_number(
        &'a self,
        _id: (),
        _line_index: usize,
        _byte_index: usize,
    ) -> Result<usize, Error> {
        Ok(1)
    }

    fn location(&'a self, _id: (), byte_index: usize) -> Result<Location, Error> {
        Ok(Location {
            line_number: byte_index,
            column_number: 1,
        })
    }

    #[tactic(auto, using(crate::specs::LongestFiles::longest_lines))]
    fn line_range(&'a self, _id: (), line_index: usize) -> Result<Range<usize>, Error> {
        Ok(line_index..line_index)
    }

    ghost lawful = { λ s _. longest_lawful s.name.now };

    ghost same_file = { λ s i j e. (refl, refl) };

    ghost same_is_eq = { λ s. refl };

    ghost past_last_line = { λ s _ i. longest_past_last_line s.name.now i };
}

/// Returns a diagnostic with a label on the fourth line from the end, and one on the last.
fn with_last_labels(alloc: Global) -> Result<Diagnostic<()>, Error> {
    let (position, last) = (usize::MAX - 3, usize::MAX);
    Diagnostic::error(alloc)
        .with_label(Label::primary(alloc, (), position..position))?
        .with_label(Label::secondary(alloc, (), last..last))
}

/// Asserts that the header of this diagnostic is written, in a layout and with this number of lines
/// after a label, and that the lookup of the source then fails.
fn assert_header(
    rt: &impl Abort,
    diagnostic: &Diagnostic<()>,
    layout: Layout,
    after_label_lines: usize,
) {
    let files = LongestFile { name: "f" };
    let config = Config {
        after_label_lines,
        layout,
        ..Config::default()
    };
    let expected = ("error: \n", ("FileMissing", 0, 0));
    assert_renders(rt, &config, &files, diagnostic, expected);
}

/// The layouts.
static LAYOUTS: [Layout; 2] = [Layout::Classic, Layout::Unbroken];

/// Numbers of lines after a label.
static AFTER_LABEL: [usize; 5] = [0, 3, 4, 5, usize::MAX];

/// Context lines end with the greatest index, and no lookup of theirs fails: the header is written,
/// and then the lookup of the source fails.
#[test]
fn context_past_all_indices(rt: HostRuntime) {
    let diagnostic = with_last_labels(rt.alloc()).expect(&rt, "the diagnostic");
    for layout in &LAYOUTS {
        for after_label_lines in &AFTER_LABEL {
            assert_header(&rt, &diagnostic, *layout, *after_label_lines);
        }
    }
}
