//! Worked outputs.

use codespan_base::diagnostic::LabelStyle;
use codespan_base::diagnostic::LabelStyle::{Primary, Secondary};
use codespan_base::term::{Config, DisplayStyle};
use std::ops::Range;

/// The kind of file database that a worked output is rendered over.
#[derive(Clone, Copy)]
pub enum DatabaseKind {
    /// A `SimpleFiles` of the files.
    Several,
    /// A `MappedFile` of the first file, whose third line has the number 100.
    Mapped,
    /// The first file, where each lookup of a line's range allocates.
    Copying,
}

/// A label: its style, the index of its file, its range in bytes and its message.
type LabelFields<'text> = (LabelStyle, usize, Range<usize>, &'text str);

/// A worked output: a diagnostic, its files, and the expected text.
pub struct WorkedOutput<'text> {
    /// The file database.
    pub database: DatabaseKind,
    /// The style of the configuration.
    pub display_style: DisplayStyle,
    /// How many lines are shown after the first line of a multi-line label.
    pub start_context_lines: usize,
    /// How many lines are shown before a label.
    pub before_label_lines: usize,
    /// How many lines are shown after a label.
    pub after_label_lines: usize,
    /// The width that lines have to fit.
    pub max_width: Option<usize>,
    /// The name and the text of each file.
    pub files: &'text [(&'text str, &'text str)],
    /// The code of the error.
    pub code: Option<&'text str>,
    /// Its message.
    pub message: &'text str,
    /// Its labels.
    pub labels: &'text [LabelFields<'text>],
    /// Its notes.
    pub notes: &'text [&'text str],
    /// The output, in plain text.
    pub output: &'text str,
    /// The output in escape sequences, if it is rendered in these too.
    pub colored: Option<&'text str>,
}

/// An empty error, in the default configuration.
const EMPTY: WorkedOutput<'static> = WorkedOutput {
    database: DatabaseKind::Several,
    display_style: DisplayStyle::Rich,
    start_context_lines: 3,
    before_label_lines: 0,
    after_label_lines: 0,
    max_width: None,
    files: &[],
    code: None,
    message: "",
    labels: &[],
    notes: &[],
    output: "",
    colored: None,
};

impl WorkedOutput<'_> {
    /// Returns the configuration.
    pub fn config<'chars>(&self) -> Config<'chars> {
        Config {
            display_style: self.display_style,
            start_context_lines: self.start_context_lines,
            before_label_lines: self.before_label_lines,
            after_label_lines: self.after_label_lines,
            max_width: self.max_width,
            ..Config::default()
        }
    }
}

/// Three labels of one line, two of whose messages hang.
pub const MUTABLE_BORROWS: WorkedOutput<'static> = WorkedOutput {
    files: &[(
        "one_line.rs",
        "fn main() {\n\
         \x20   let mut v = vec![Some(\"foo\"), Some(\"bar\")];\n\
         \x20   v.push(v.pop().unwrap());\n\
         }\n",
    )],
    code: Some("E0499"),
    message: "cannot borrow `v` as mutable more than once at a time",
    labels: &[
        (Primary, 0, 71..72, "second mutable borrow occurs here"),
        (Secondary, 0, 64..65, "first borrow later used by call"),
        (Secondary, 0, 66..70, "first mutable borrow occurs here"),
    ],
    output: "error[E0499]: cannot borrow `v` as mutable more than once at a time\n\
              \x20 ┌─ one_line.rs:3:12\n\
              \x20 │\n\
              3 │     v.push(v.pop().unwrap());\n\
              \x20 │     - ---- ^ second mutable borrow occurs here\n\
              \x20 │     │ │     \n\
              \x20 │     │ first mutable borrow occurs here\n\
              \x20 │     first borrow later used by call\n\n",
    ..EMPTY
};

/// A label over nine lines, two of which are left out, and one inside it; and a note.
pub const MISMATCHED_TYPES: WorkedOutput<'static> = WorkedOutput {
    start_context_lines: 2,
    files: &[(
        "src/lib.rs",
        "fn main() {\n    1\n    + 1\n    + 1\n    + 1\n    + 1\n    +1\n    + 1\n    + 1\n    + 1\n}",
    )],
    code: Some("E0308"),
    message: "mismatched types",
    labels: &[
        (Primary, 0, 17..80, "expected (), found integer"),
        (Secondary, 0, 55..55, "missing whitespace"),
    ],
    notes: &["note:\texpected type `()`\n\tfound type `{integer}`"],
    output: "error[E0308]: mismatched types\n\
              \x20  ┌─ src/lib.rs:2:6\n\
              \x20  │  \n\
              \x202 │       1\n\
              \x20  │ ╭─────^\n\
              \x203 │ │     + 1\n\
              \x204 │ │     + 1\n\
              \x20  · │\n\
              \x207 │ │     +1\n\
              \x20  │ │      - missing whitespace\n\
              \x208 │ │     + 1\n\
              \x209 │ │     + 1\n\
              10 │ │     + 1\n\
              \x20  │ ╰───────^ expected (), found integer\n\
              \x20  │  \n\
              \x20  = note:\texpected type `()`\n\
              \x20    \tfound type `{integer}`\n\n",
    ..EMPTY
};

/// A header in short style, without a lookup, and in colors if the call writes style marks.
pub const COLOURED_HEADER: WorkedOutput<'static> = WorkedOutput {
    display_style: DisplayStyle::Short,
    message: "m",
    output: "error: m\n",
    colored: Some("\x1b[0m\x1b[1m\x1b[38;5;9merror\x1b[0m\x1b[1m: m\x1b[0m\n"),
    ..EMPTY
};

/// A type error that another file explains, without its output.
const TYPE_ERROR: WorkedOutput<'static> = WorkedOutput {
    files: &[
        (
            "Data/Nat.fun",
            "module Data.Nat where\n\n\
             data Nat : Type where\n\
             \x20   zero : Nat\n\
             \x20   succ : Nat → Nat\n\n\
             {-# BUILTIN NATRAL Nat #-}\n\n\
             infixl 6 _+_ _-_\n\n\
             _+_ : Nat → Nat → Nat\n",
        ),
        (
            "Test.fun",
            "module Test where\n\n_ : Nat\n_ = 123 + \"hello\"\n",
        ),
    ],
    code: Some("E0001"),
    message: "unexpected type in application of `_+_`",
    labels: &[
        (Primary, 1, 37..44, "expected `Nat`, found `String`"),
        (Secondary, 0, 130..155, "based on the definition of `_+_`"),
    ],
    notes: &["expected type `Nat`\n   found type `String`\n"],
    ..EMPTY
};

/// The type error in rich style: labels of two files, and a note.
pub const TWO_FILES: WorkedOutput<'static> = WorkedOutput {
    output: "error[E0001]: unexpected type in application of `_+_`\n\
              \x20  ┌─ Test.fun:4:11\n\
              \x20  │\n\
              \x204 │ _ = 123 + \"hello\"\n\
              \x20  │           ^^^^^^^ expected `Nat`, found `String`\n\
              \x20  │\n\
              \x20  ┌─ Data/Nat.fun:11:1\n\
              \x20  │\n\
              11 │ _+_ : Nat → Nat → Nat\n\
              \x20  │ --------------------- based on the definition of `_+_`\n\
              \x20  │\n\
              \x20  = expected type `Nat`\n\
              \x20       found type `String`\n\n",
    ..TYPE_ERROR
};

/// The type error in medium style.
pub const MEDIUM: WorkedOutput<'static> = WorkedOutput {
    display_style: DisplayStyle::Medium,
    output: "Test.fun:4:11: error[E0001]: unexpected type in application of `_+_`\n \
             = expected type `Nat`\n      found type `String`\n",
    ..TYPE_ERROR
};

/// The type error in short style.
pub const SHORT: WorkedOutput<'static> = WorkedOutput {
    display_style: DisplayStyle::Short,
    output: "Test.fun:4:11: error[E0001]: unexpected type in application of `_+_`\n",
    ..TYPE_ERROR
};

/// A label over three lines, of which the second has the number 100.
pub const MAPPED_NUMBERS: WorkedOutput<'static> = WorkedOutput {
    database: DatabaseKind::Mapped,
    files: &[("m", "a\nb\nc\nd")],
    labels: &[(Primary, 0, 2..7, "x")],
    output: "error: \n\
              \x20   ┌─ m:2:1\n\
              \x20   │  \n\
              \x20 2 │ ╭ b\n\
              100 │ │ c\n\
              101 │ │ d\n\
              \x20   │ ╰─^ x\n\n",
    ..EMPTY
};

/// A label at the end of a file, with two lines of context before it, where each lookup of a line's
/// range allocates.
pub const SURROUNDING_LINES: WorkedOutput<'static> = WorkedOutput {
    database: DatabaseKind::Copying,
    before_label_lines: 2,
    after_label_lines: 1,
    files: &[(
        "surroundingLines.fun",
        "#[foo]\nfn main() {\n    println!(\n        \"{}\",\n        Foo\n    );\n}\n\nstruct Foo",
    )],
    message: "Syntax error",
    labels: &[(Primary, 0, 79..79, "Missing a semicolon")],
    output: "error: Syntax error\n\
              \x20 ┌─ surroundingLines.fun:9:11\n\
              \x20 │\n\
              7 │ }\n\
              8 │ \n\
              9 │ struct Foo\n\
              \x20 │           ^ Missing a semicolon\n\n",
    ..EMPTY
};

/// A label over three lines, each of which is shortened.
pub const LONG_LINES: WorkedOutput<'static> = WorkedOutput {
    max_width: Some(44),
    files: &[(
        "f",
        "head(1); if (check(first, second, third) == 0) { // a long comment that goes on\n\
         \x20   body(1, 2, 3, 4, 5, 6, 7, 8, 9, 10, 11, 12, 13, 14, 15);\n\
         \x20   done(1); } else { other(2); } // and another one that is long\n",
    )],
    message: "m",
    labels: &[(Primary, 0, 47..155, "this block")],
    output: "error: m\n\
              \x20 ┌─ f:1:48\n\
              \x20 │  \n\
              1 │   ..., third) == 0) { // a long comm...\n\
              \x20 │ ╭───────────────────^\n\
              2 │ │     body(1, 2, 3, 4, 5, 6, 7, 8, 9,...\n\
              3 │ │     done(1); } else { other(2); } /...\n\
              \x20 │ ╰──────────────^ this block\n\n",
    ..EMPTY
};
