//! Equality of configurations in all but the `snippet_start`. Each field is named, without `..`, so
//! a new one does not compile until it is named here.

use codespan_base::term::{Chars, Config, DisplayStyle, Layout};

/// Returns whether two configurations are equal in all but the `snippet_start`.
pub fn is_same_config(left: &Config<'_>, right: &Config<'_>) -> bool {
    settings_of(left) == settings_of(right) && are_same_chars(&left.chars, &right.chars)
}

/// Returns whether the characters of two configurations are equal in all but the `snippet_start`.
pub fn are_same_chars(left: &Chars<'_>, right: &Chars<'_>) -> bool {
    characters_of(left) == characters_of(right)
}

/// Returns all fields but the characters: the display style, the layout, the greatest width, and
/// the numbers.
fn settings_of(config: &Config<'_>) -> (DisplayStyle, Layout, Option<usize>, [usize; 5]) {
    let Config {
        display_style,
        tab_width,
        chars: _,
        start_context_lines,
        end_context_lines,
        before_label_lines,
        after_label_lines,
        layout,
        max_width,
    } = *config;
    let numbers = [
        tab_width,
        start_context_lines,
        end_context_lines,
        before_label_lines,
        after_label_lines,
    ];
    (display_style, layout, max_width, numbers)
}

/// Returns the characters in the order of their fields, without the `snippet_start`.
fn characters_of(chars: &Chars<'_>) -> [char; 15] {
    let Chars {
        snippet_start: _,
        source_border_left,
        source_border_left_break,
        note_bullet,
        single_primary_caret,
        single_secondary_caret,
        multi_primary_caret_start,
        multi_primary_caret_end,
        multi_secondary_caret_start,
        multi_secondary_caret_end,
        multi_top_left,
        multi_top,
        multi_bottom_left,
        multi_bottom,
        multi_left,
        pointer_left,
    } = *chars;
    [
        source_border_left,
        source_border_left_break,
        note_bullet,
        single_primary_caret,
        single_secondary_caret,
        multi_primary_caret_start,
        multi_primary_caret_end,
        multi_secondary_caret_start,
        multi_secondary_caret_end,
        multi_top_left,
        multi_top,
        multi_bottom_left,
        multi_bottom,
        multi_left,
        pointer_left,
    ]
}
