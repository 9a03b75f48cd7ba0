//! Suggestions whose output is known.

use crate::worked_output::ExpectedColors;
use codespan_base::term::DisplayStyle;

/// A suggestion, its files, and its output.
#[derive(Clone, Copy)]
pub struct SuggestionRow<'text> {
    /// Its name.
    pub name: &'text str,
    /// Its message.
    pub message: &'text str,
    /// The name and the text of each file.
    pub files: &'text [(&'text str, &'text str)],
    /// The edits: the file, the start, the end and the replacement of each.
    pub edits: &'text [(usize, usize, usize, &'text str)],
    /// The style.
    pub style: DisplayStyle,
    /// How many lines before a changed one are shown, and how many after it.
    pub context: (usize, usize),
    /// The output.
    pub text: &'text str,
    /// What is expected of the output in escape sequences.
    pub colors: ExpectedColors<'text>,
}

/// An edit of each of three files, of which one keeps its text.
const RENAMED: SuggestionRow<'static> = SuggestionRow {
    name: "",
    message: "rename `a` to `b`",
    files: &[
        ("a.h", "void a();\n"),
        ("same.h", "a\n"),
        ("a.c", "#include \"a.h\"\n\nvoid a() {}\n"),
    ],
    edits: &[(2, 21, 22, "b"), (1, 0, 1, "a"), (0, 5, 6, "b")],
    style: DisplayStyle::Rich,
    context: (0, 0),
    text: "",
    colors: ExpectedColors::End(""),
};

/// Three files, of which one keeps its text.
static SEVERAL_FILES: SuggestionRow<'static> = SuggestionRow {
    name: "several_files",
    text: "help: rename `a` to `b`\n\
           \x20   ┌─ a.c:3:6\n\
           \x20   │\n\
           3   │ - void a() {}\n\
           \x20 3 │ + void b() {}\n\
           \x20   │\n\
           \x20   ┌─ a.h:1:6\n\
           \x20   │\n\
           1   │ - void a();\n\
           \x20 1 │ + void b();\n\n",
    colors: ExpectedColors::Whole(
        "\x1b[0m\x1b[1m\x1b[38;5;14mhelp\x1b[0m\x1b[1m: rename `a` to `b`\x1b[0m\n\
         \x20   \x1b[0m\x1b[36m┌─\x1b[0m a.c:3:6\n\
         \x20   \x1b[0m\x1b[36m│\x1b[0m\n\
         \x1b[0m\x1b[36m3\x1b[0m   \x1b[0m\x1b[36m│\x1b[0m \x1b[0m\x1b[31m- void a() {}\x1b[0m\n\
         \x20 \x1b[0m\x1b[36m3\x1b[0m \x1b[0m\x1b[36m│\x1b[0m \
         \x1b[0m\x1b[32m+ void b() {}\x1b[0m\n\
         \x20   \x1b[0m\x1b[36m│\x1b[0m\n\
         \x20   \x1b[0m\x1b[36m┌─\x1b[0m a.h:1:6\n\
         \x20   \x1b[0m\x1b[36m│\x1b[0m\n\
         \x1b[0m\x1b[36m1\x1b[0m   \x1b[0m\x1b[36m│\x1b[0m \x1b[0m\x1b[31m- void a();\x1b[0m\n\
         \x20 \x1b[0m\x1b[36m1\x1b[0m \x1b[0m\x1b[36m│\x1b[0m \
         \x1b[0m\x1b[32m+ void b();\x1b[0m\n\n",
    ),
    ..RENAMED
};

/// Two hunks with context.
static FAR_APART: SuggestionRow<'static> = SuggestionRow {
    name: "far_apart",
    message: "rename",
    files: &[("a.rs", "1\n2\n3\n4\n5\n6\n7\n8\n9\n")],
    edits: &[(0, 2, 2, "new\nnew\n"), (0, 14, 15, "eight")],
    context: (1, 1),
    text: "help: rename\n\
           \x20     ┌─ a.rs:2:1\n\
           \x20     │\n\
           \x201  1 │   1\n\
           \x20   2 │ + new\n\
           \x20   3 │ + new\n\
           \x202  4 │   2\n\
           \x20     ·\n\
           \x207  9 │   7\n\
           \x208    │ - 8\n\
           \x20  10 │ + eight\n\
           \x209 11 │   9\n\n",
    colors: ExpectedColors::Whole(
        "\x1b[0m\x1b[1m\x1b[38;5;14mhelp\x1b[0m\x1b[1m: rename\x1b[0m\n\
         \x20     \x1b[0m\x1b[36m┌─\x1b[0m a.rs:2:1\n\
         \x20     \x1b[0m\x1b[36m│\x1b[0m\n\
         \x1b[0m\x1b[36m 1\x1b[0m \x1b[0m\x1b[36m 1\x1b[0m \x1b[0m\x1b[36m│\x1b[0m   1\n\
         \x20  \x1b[0m\x1b[36m 2\x1b[0m \x1b[0m\x1b[36m│\x1b[0m \x1b[0m\x1b[32m+ new\x1b[0m\n\
         \x20  \x1b[0m\x1b[36m 3\x1b[0m \x1b[0m\x1b[36m│\x1b[0m \x1b[0m\x1b[32m+ new\x1b[0m\n\
         \x1b[0m\x1b[36m 2\x1b[0m \x1b[0m\x1b[36m 4\x1b[0m \x1b[0m\x1b[36m│\x1b[0m   2\n\
         \x20     \x1b[0m\x1b[36m·\x1b[0m\n\
         \x1b[0m\x1b[36m 7\x1b[0m \x1b[0m\x1b[36m 9\x1b[0m \x1b[0m\x1b[36m│\x1b[0m   7\n\
         \x1b[0m\x1b[36m 8\x1b[0m    \x1b[0m\x1b[36m│\x1b[0m \x1b[0m\x1b[31m- 8\x1b[0m\n\
         \x20  \x1b[0m\x1b[36m10\x1b[0m \x1b[0m\x1b[36m│\x1b[0m \x1b[0m\x1b[32m+ eight\x1b[0m\n\
         \x1b[0m\x1b[36m 9\x1b[0m \x1b[0m\x1b[36m11\x1b[0m \x1b[0m\x1b[36m│\x1b[0m   9\n\n",
    ),
    ..RENAMED
};

/// Lines whose ends are stated.
static ENDS: SuggestionRow<'static> = SuggestionRow {
    name: "ends",
    message: "join",
    files: &[("a.rs", "a\r\n\tb\nc")],
    edits: &[(0, 3, 5, "é \n"), (0, 6, 7, "C")],
    text: "help: join\n\
           \x20   ┌─ a.rs:2:1\n\
           \x20   │\n\
           2   │ -     b\n\
           \x20   │ \\ ends with \\n\n\
           \x20 2 │ + é \n\
           \x20   │ \\ ends with \\n\n\
           \x20 3 │ + \n\
           \x20   │ \\ ends with \\n\n\
           3   │ - c\n\
           \x20   │ \\ no newline at end of file\n\
           \x20 4 │ + C\n\
           \x20   │ \\ no newline at end of file\n\n",
    colors: ExpectedColors::Whole(
        "\x1b[0m\x1b[1m\x1b[38;5;14mhelp\x1b[0m\x1b[1m: join\x1b[0m\n\
         \x20   \x1b[0m\x1b[36m┌─\x1b[0m a.rs:2:1\n\
         \x20   \x1b[0m\x1b[36m│\x1b[0m\n\
         \x1b[0m\x1b[36m2\x1b[0m   \x1b[0m\x1b[36m│\x1b[0m \x1b[0m\x1b[31m-     b\x1b[0m\n\
         \x20   \x1b[0m\x1b[36m│\x1b[0m \\ ends with \\n\n\
         \x20 \x1b[0m\x1b[36m2\x1b[0m \x1b[0m\x1b[36m│\x1b[0m \x1b[0m\x1b[32m+ é \x1b[0m\n\
         \x20   \x1b[0m\x1b[36m│\x1b[0m \\ ends with \\n\n\
         \x20 \x1b[0m\x1b[36m3\x1b[0m \x1b[0m\x1b[36m│\x1b[0m \x1b[0m\x1b[32m+ \x1b[0m\n\
         \x20   \x1b[0m\x1b[36m│\x1b[0m \\ ends with \\n\n\
         \x1b[0m\x1b[36m3\x1b[0m   \x1b[0m\x1b[36m│\x1b[0m \x1b[0m\x1b[31m- c\x1b[0m\n\
         \x20   \x1b[0m\x1b[36m│\x1b[0m \\ no newline at end of file\n\
         \x20 \x1b[0m\x1b[36m4\x1b[0m \x1b[0m\x1b[36m│\x1b[0m \x1b[0m\x1b[32m+ C\x1b[0m\n\
         \x20   \x1b[0m\x1b[36m│\x1b[0m \\ no newline at end of file\n\n",
    ),
    ..RENAMED
};

/// The headers of two files.
static SEVERAL_FILES_SHORT: SuggestionRow<'static> = SuggestionRow {
    name: "several_files_short",
    style: DisplayStyle::Medium,
    text: "a.c:3:6: help: rename `a` to `b`\n\
           a.h:1:6: help: rename `a` to `b`\n",
    colors: ExpectedColors::Whole(
        "a.c:3:6: \x1b[0m\x1b[1m\x1b[38;5;14mhelp\x1b[0m\x1b[1m: rename `a` to `b`\x1b[0m\n\
         a.h:1:6: \x1b[0m\x1b[1m\x1b[38;5;14mhelp\x1b[0m\x1b[1m: rename `a` to `b`\x1b[0m\n",
    ),
    ..RENAMED
};

/// A header alone.
static NOTHING_CHANGES: SuggestionRow<'static> = SuggestionRow {
    name: "nothing_changes",
    message: "keep it",
    files: &[("a.c", "one\n")],
    edits: &[(0, 0, 3, "one")],
    text: "help: keep it\n\n",
    colors: ExpectedColors::Whole(
        "\x1b[0m\x1b[1m\x1b[38;5;14mhelp\x1b[0m\x1b[1m: keep it\x1b[0m\n\n",
    ),
    ..RENAMED
};

/// Returns the rows.
pub fn rows() -> [&'static SuggestionRow<'static>; 5] {
    [
        &SEVERAL_FILES,
        &FAR_APART,
        &ENDS,
        &SEVERAL_FILES_SHORT,
        &NOTHING_CHANGES,
    ]
}
