//! The arguments that can be invalid, and the error of a failed allocation.

use crate::raw::Detail;
use std::alloc::{AllocError, AllocFailed};

/// An allocation failed.
#[derive(Clone, Copy, Debug)]
pub struct OutOfMemory;

impl From<AllocError> for OutOfMemory {
    fn from(_error: AllocError) -> OutOfMemory {
        OutOfMemory
    }
}

impl<T: Drop> From<AllocFailed<T>> for OutOfMemory {
    fn from(_error: AllocFailed<T>) -> OutOfMemory {
        OutOfMemory
    }
}

/// An argument that can be invalid, by its number in the header.
#[derive(Clone, Copy)]
pub enum Argument {
    /// The ABI version. Invalid unless it is [`ABI`](crate::raw::ABI).
    Abi = 1,
    /// The display style. Invalid above 2.
    DisplayStyle = 2,
    /// The layout. Invalid above 1.
    Layout = 3,
    /// The form of the output. Invalid above 4.
    Form = 4,
    /// The color mode. Invalid above 2.
    ColorMode = 5,
    /// The choice of characters. Invalid above 2.
    Characters = 6,
    /// The text before a locus, where the caller's characters are chosen. Invalid unless UTF-8.
    SnippetStart = 7,
    /// One of the caller's characters, where they are chosen. Invalid unless it is a Unicode scalar
    /// value.
    Character = 8,
    /// One of the caller's styles, where they are chosen. Invalid where a color of it is above 8.
    Color = 9,
    /// The reserved words of the configuration. Invalid unless all are 0.
    ConfigReserved = 10,
    /// A file's name. Invalid unless UTF-8.
    FileName = 11,
    /// A file's source. Invalid unless UTF-8.
    FileSource = 12,
    /// A file's lines. Invalid unless there are none or they start with its source, ascend without
    /// overlap and end inside it, at character boundaries.
    FileLines = 13,
    /// A file's locations. Invalid unless their bytes ascend strictly.
    FileLocations = 14,
    /// A file's reserved words. Invalid unless all are 0.
    FileReserved = 15,
    /// The severity. Invalid above 4.
    Severity = 16,
    /// The code. Invalid unless UTF-8.
    Code = 17,
    /// The message. Invalid unless UTF-8.
    Message = 18,
    /// The reserved words of the diagnostic. Invalid unless all are 0.
    DiagnosticReserved = 19,
    /// A label's style. Invalid above 1.
    LabelStyle = 20,
    /// A label's message. Invalid unless UTF-8.
    LabelMessage = 21,
    /// A label's file. Invalid unless it is the index of a file, from 0.
    LabelFile = 22,
    /// A label's reserved words. Invalid unless all are 0.
    LabelReserved = 23,
    /// A note. Invalid unless UTF-8.
    Note = 24,
}

impl Argument {
    ghost use Rattle.std.specs.Prelude.{◌≡◌};
    ghost use Rattle.codespan_native.specs.EditorArguments.{argument_detail};
    ghost use Rattle.codespan_native.specs.Validity.{argument_number};

    /// Returns the number of the argument in the header.
    pub fn number(self) -> u32
        ensures { result ≡ argument_number self }
    {
        self as u32
    }

    /// Returns the detail that names the argument, of which there is only one.
    pub fn detail(self) -> Detail
        ensures { result ≡ argument_detail self }
    {
        Detail {
            argument: self.number(),
            index: 0,
        }
    }
}

/// An argument of a call for editors that can be invalid, by its number in the header for editors.
#[derive(Clone, Copy)]
pub enum EditorArgument {
    /// The encoding. Invalid above 2.
    Encoding = 25,
    /// The line of a byte or of a position. Invalid unless the source has it and its index fits a
    /// `u32`.
    LineTooLarge = 26,
    /// The byte or the character of a position. Invalid past the end of its line.
    ColumnTooLarge = 27,
    /// The byte or the character of a position. Invalid inside a character of the source.
    CharBoundary = 28,
    /// The replacement of an edit. Invalid unless UTF-8.
    EditReplacement = 29,
    /// The reserved words of an edit. Invalid unless all are 0.
    EditReserved = 30,
    /// The range of an edit. Invalid where it ends before it starts.
    EditReversed = 31,
    /// The range of an edit. Invalid where it ends past the source.
    EditPastEnd = 32,
    /// The range of an edit. Invalid where it starts or ends inside a character.
    EditBoundary = 33,
    /// The range of an edit. Invalid where it overlaps that of an earlier one, by their ranges.
    EditOverlap = 34,
}

impl EditorArgument {
    ghost use Rattle.codespan_native.specs.EditorArguments.{editor_detail};
    ghost use Rattle.std.specs.Prelude.{◌≡◌};

    /// Returns the detail that names the argument, of several the one of this index.
    pub fn detail(self, index: usize) -> Detail
        ensures { result ≡ editor_detail self index }
    {
        Detail {
            argument: self as u32,
            index,
        }
    }
}
