//! Source lines: with labels, with tabs, with lanes.

use super::{DirectRow, LINE, ROW};
use crate::direct::{Line, RowCall};
use codespan_base::diagnostic::LabelStyle::{Primary, Secondary};
use codespan_base::diagnostic::Severity;
use codespan_renderer::term::renderer::MultiLabel;

/// Source lines with labels.
static LABELS: [DirectRow<'static>; 6] = [
    DirectRow {
        name: "reversed_handed_in",
        call: RowCall::Source(Line {
            text: "abc",
            labels: &[(Secondary, 2..1, "r")],
            ..LINE
        }),
        text: "1 │ abc\n  │   r\n",
        ..ROW
    },
    DirectRow {
        name: "mutable_borrows",
        call: RowCall::Source(Line {
            number: 3,
            text: "    v.push(v.pop().unwrap());\n",
            labels: &[
                (Primary, 11..12, "second mutable borrow occurs here"),
                (Secondary, 4..5, "first borrow later used by call"),
                (Secondary, 6..10, "first mutable borrow occurs here"),
            ],
            ..LINE
        }),
        text: "3 │     v.push(v.pop().unwrap());\n\
         \x20 │     - ---- ^ second mutable borrow occurs here\n\
         \x20 │     │ │     \n\
         \x20 │     │ first mutable borrow occurs here\n\
         \x20 │     first borrow later used by call\n",
        ..ROW
    },
    DirectRow {
        name: "overlapping_labels",
        call: RowCall::Source(Line {
            text: "abcdef",
            labels: &[(Secondary, 0..6, "s"), (Primary, 2..4, "p")],
            ..LINE
        }),
        text: "1 │ abcdef\n  │ --^^--\n  │ │ │\n  │ │ p\n  │ s\n",
        ..ROW
    },
    DirectRow {
        name: "wide_pointers",
        call: RowCall::Source(Line {
            text: "路ab",
            labels: &[
                (Primary, 0..3, "w"),
                (Secondary, 3..4, "s"),
                (Secondary, 4..5, "t"),
            ],
            ..LINE
        }),
        text: "1 │ 路ab\n  │ ^^-- t\n  │ │ │ \n  │ │ s\n  │ w\n",
        ..ROW
    },
    // a combining character has no caret, and a wide one has two
    DirectRow {
        name: "wide_and_combining",
        call: RowCall::Source(Line {
            text: "a路b\u{301}c",
            severity: Severity::Note,
            labels: &[(Primary, 1..4, "w"), (Secondary, 5..7, "m")],
            ..LINE
        }),
        text: "1 │ a路b\u{301}c\n  │  ^^  m\n  │  │  \n  │  w\n",
        ..ROW
    },
    // carets are under all cells of a character that a range cuts
    DirectRow {
        name: "moon_jump",
        call: RowCall::Source(Line {
            text: "🐄🌑🐄🌒🐄🌓🐄🌔🐄🌕🐄🌖🐄🌗🐄🌘🐄",
            severity: Severity::Note,
            labels: &[(Secondary, 1..11, "Cow does not start or end at boundary.")],
            ..LINE
        }),
        text: "1 │ 🐄🌑🐄🌒🐄🌓🐄🌔🐄🌕🐄🌖🐄🌗🐄🌘🐄\n\
         \x20 │ ------ Cow does not start or end at boundary.\n",
        ..ROW
    },
];

/// Returns the rows of source lines with labels.
pub fn with_labels() -> &'static [DirectRow<'static>] {
    &LABELS
}

/// The line of `tab_stops` that has the label.
const TAB_STOPS: Line<'static> = Line {
    number: 4,
    text: "\t\tReloadingCondition:\tattack-cooldown\n",
    labels: &[(Primary, 22..37, "the condition")],
    ..LINE
};

/// A source line with tabs, by tab width.
static TABS: [DirectRow<'static>; 3] = [
    DirectRow {
        name: "tab_stops, 4",
        call: RowCall::Source(TAB_STOPS),
        text: "4 │         ReloadingCondition: attack-cooldown\n\
         \x20 │                             ^^^^^^^^^^^^^^^ the condition\n",
        ..ROW
    },
    DirectRow {
        name: "tab_stops, 3",
        call: RowCall::Source(Line {
            tab_width: 3,
            ..TAB_STOPS
        }),
        text: "4 │       ReloadingCondition:  attack-cooldown\n\
         \x20 │                            ^^^^^^^^^^^^^^^ the condition\n",
        ..ROW
    },
    DirectRow {
        name: "tab_stops, 0",
        call: RowCall::Source(Line {
            tab_width: 0,
            ..TAB_STOPS
        }),
        text: "4 │ ReloadingCondition:attack-cooldown\n\
         \x20 │                    ^^^^^^^^^^^^^^^ the condition\n",
        ..ROW
    },
];

/// Returns the rows of a source line with tabs.
pub fn with_tabs() -> &'static [DirectRow<'static>] {
    &TABS
}

/// Source lines with lanes.
static LANES: [DirectRow<'static>; 3] = [
    DirectRow {
        name: "crossing_lanes, first line",
        call: RowCall::Source(Line {
            text: "ab\n",
            num_multi_labels: 2,
            multi_labels: &[
                (0, Secondary, MultiLabel::Top(1)),
                (1, Primary, MultiLabel::Top(0)),
            ],
            ..LINE
        }),
        text: "1 │   ╭ ab\n  │ ╭────'\n",
        ..ROW
    },
    DirectRow {
        name: "crossing_lanes, second line",
        call: RowCall::Source(Line {
            number: 2,
            text: "cd\n",
            num_multi_labels: 2,
            multi_labels: &[
                (0, Secondary, MultiLabel::Bottom(1, "q")),
                (1, Primary, MultiLabel::Left),
            ],
            ..LINE
        }),
        text: "2 │ │ │ cd\n  │ ╰─│─' q\n",
        ..ROW
    },
    DirectRow {
        name: "crossing_lanes, third line",
        call: RowCall::Source(Line {
            number: 3,
            text: "ef",
            num_multi_labels: 2,
            multi_labels: &[(1, Primary, MultiLabel::Bottom(1, "p"))],
            ..LINE
        }),
        text: "3 │   │ ef\n  │   ╰─^ p\n",
        ..ROW
    },
];

/// Returns the rows of source lines with lanes.
pub fn with_lanes() -> &'static [DirectRow<'static>] {
    &LANES
}
