//! Worked outputs of one long line, by where its labels are.

use crate::outputs::fitted::{EMPTY, Row};
use codespan_reporting::diagnostic::LabelStyle;

/// A line of minified JavaScript.
const JAVASCRIPT: &str =
    "function f(a,b){return a+b}var x=f(1,2),y=f(3,4);console.log(x+y,f(x,y),f(y,x),missing,f(x,x));for(var i=0;i<10;i++){log(i)}";

/// A line of 52 letters.
const LETTERS: &str = "abcdefghijklmnopqrstuvwxyzabcdefghijklmnopqrstuvwxyz";

/// The outputs.
pub static ROWS: [Row; 22] = [
    Row {
        name: "none",
        source: JAVASCRIPT,
        labels: &[(LabelStyle::Primary, 79..86, "not found")],
        output: "error: m\n  ┌─ f:1:80\n  │\n1 │ function f(a,b){return a+b}var x=f(1,2),y=f(3,4);console.log(x+y,f(x,y),f(y,x),missing,f(x,x));for(var i=0;i<10;i++){log(i)}\n  │                                                                                ^^^^^^^ not found\n\n",
        ..EMPTY
    },
    Row {
        name: "middle",
        max_width: Some(60),
        source: JAVASCRIPT,
        labels: &[(LabelStyle::Primary, 79..86, "not found")],
        output: "error: m\n  ┌─ f:1:80\n  │\n1 │ ...og(x+y,f(x,y),f(y,x),missing,f(x,x));for(var i=0;...\n  │                         ^^^^^^^ not found\n\n",
        ..EMPTY
    },
    Row {
        name: "fits_exactly",
        max_width: Some(56),
        source: LETTERS,
        labels: &[(LabelStyle::Primary, 3..5, "here")],
        output: "error: m\n  ┌─ f:1:4\n  │\n1 │ abcdefghijklmnopqrstuvwxyzabcdefghijklmnopqrstuvwxyz\n  │    ^^ here\n\n",
        ..EMPTY
    },
    Row {
        name: "one_cell_less",
        max_width: Some(55),
        source: LETTERS,
        labels: &[(LabelStyle::Primary, 3..5, "here")],
        output: "error: m\n  ┌─ f:1:4\n  │\n1 │ abcdefghijklmnopqrstuvwxyzabcdefghijklmnopqrstuv...\n  │    ^^ here\n\n",
        ..EMPTY
    },
    Row {
        name: "at_start",
        max_width: Some(40),
        source: JAVASCRIPT,
        labels: &[(LabelStyle::Primary, 0..8, "here")],
        output: "error: m\n  ┌─ f:1:1\n  │\n1 │ function f(a,b){return a+b}var x=...\n  │ ^^^^^^^^ here\n\n",
        ..EMPTY
    },
    Row {
        name: "at_end",
        max_width: Some(40),
        source: JAVASCRIPT,
        labels: &[(LabelStyle::Primary, 123..124, "here")],
        output: "error: m\n  ┌─ f:1:124\n  │\n1 │ ...x));for(var i=0;i<10;i++){log(i)}\n  │                                    ^ here\n\n",
        ..EMPTY
    },
    Row {
        name: "past_end",
        max_width: Some(40),
        source: JAVASCRIPT,
        labels: &[(LabelStyle::Primary, 124..124, "expected `;`")],
        output: "error: m\n  ┌─ f:1:125\n  │\n1 │ ...));for(var i=0;i<10;i++){log(i)}\n  │                                    ^ expected `;`\n\n",
        ..EMPTY
    },
    Row {
        name: "past_end_fits",
        max_width: Some(57),
        source: LETTERS,
        labels: &[(LabelStyle::Primary, 52..52, "end")],
        output: "error: m\n  ┌─ f:1:53\n  │\n1 │ abcdefghijklmnopqrstuvwxyzabcdefghijklmnopqrstuvwxyz\n  │                                                     ^ end\n\n",
        ..EMPTY
    },
    Row {
        name: "past_end_one_less",
        max_width: Some(56),
        source: LETTERS,
        labels: &[(LabelStyle::Primary, 52..52, "end")],
        output: "error: m\n  ┌─ f:1:53\n  │\n1 │ ...efghijklmnopqrstuvwxyzabcdefghijklmnopqrstuvwxyz\n  │                                                    ^ end\n\n",
        ..EMPTY
    },
    Row {
        name: "far_past_end",
        max_width: Some(40),
        source: JAVASCRIPT,
        labels: &[(LabelStyle::Primary, 122..133, "here")],
        output: "error: m\n  ┌─ f:1:123\n  │\n1 │ ...));for(var i=0;i<10;i++){log(i)}\n  │                                  ^^^ here\n\n",
        ..EMPTY
    },
    Row {
        name: "empty_label",
        max_width: Some(40),
        source: JAVASCRIPT,
        labels: &[(LabelStyle::Primary, 79..79, "missing `)`")],
        output: "error: m\n  ┌─ f:1:80\n  │\n1 │ ...f(x,y),f(y,x),missing,f(x,x))...\n  │                  ^ missing `)`\n\n",
        ..EMPTY
    },
    Row {
        name: "two_labels",
        max_width: Some(60),
        source: JAVASCRIPT,
        labels: &[
            (LabelStyle::Primary, 79..86, "not found"),
            (LabelStyle::Secondary, 0..1, "defined here"),
        ],
        output: "error: m\n  ┌─ f:1:80\n  │\n1 │ function f(a,b)...f(x,y),f(y,x),missing,f(x,x));for(v...\n  │ -                               ^^^^^^^ not found\n  │ │                                \n  │ defined here\n\n",
        ..EMPTY
    },
    Row {
        name: "two_labels_second_f",
        max_width: Some(60),
        source: JAVASCRIPT,
        labels: &[
            (LabelStyle::Primary, 79..86, "not found"),
            (LabelStyle::Secondary, 9..10, "defined here"),
        ],
        output: "error: m\n  ┌─ f:1:80\n  │\n1 │ function f(a,b){retur...,y),f(y,x),missing,f(x,x));fo...\n  │          -                         ^^^^^^^ not found\n  │          │                          \n  │          defined here\n\n",
        ..EMPTY
    },
    Row {
        name: "near_labels",
        max_width: Some(60),
        source: JAVASCRIPT,
        labels: &[
            (LabelStyle::Primary, 65..71, "first"),
            (LabelStyle::Secondary, 72..78, "second"),
        ],
        output: "error: m\n  ┌─ f:1:66\n  │\n1 │ ...);console.log(x+y,f(x,y),f(y,x),missing,f(x,x));f...\n  │                      ^^^^^^ ------ second\n  │                      │       \n  │                      first\n\n",
        ..EMPTY
    },
    Row {
        name: "label_whole",
        max_width: Some(40),
        source: JAVASCRIPT,
        labels: &[(LabelStyle::Primary, 49..73, "shown whole")],
        output: "error: m\n  ┌─ f:1:50\n  │\n1 │ ...4);console.log(x+y,f(x,y),f(y,...\n  │       ^^^^^^^^^^^^^^^^^^^^^^^^ shown whole\n\n",
        ..EMPTY
    },
    Row {
        name: "label_too_long",
        max_width: Some(40),
        source: JAVASCRIPT,
        labels: &[(LabelStyle::Primary, 27..71, "both ends")],
        output: "error: m\n  ┌─ f:1:28\n  │\n1 │ ...n a+b}var x=f...,f(x,y),f(y,x...\n  │          ^^^^^^^^^^^^^^^^^ both ends\n\n",
        ..EMPTY
    },
    Row {
        name: "label_over_all",
        max_width: Some(40),
        source: JAVASCRIPT,
        labels: &[(LabelStyle::Primary, 0..124, "all of it")],
        output: "error: m\n  ┌─ f:1:1\n  │\n1 │ function f(a,b){...<10;i++){log(i)}\n  │ ^^^^^^^^^^^^^^^^^^^^^^^^^^^^^^^^^^^ all of it\n\n",
        ..EMPTY
    },
    Row {
        name: "label_in_long_label",
        max_width: Some(50),
        source: JAVASCRIPT,
        labels: &[
            (LabelStyle::Secondary, 27..124, "statements"),
            (LabelStyle::Primary, 79..86, "not found"),
        ],
        output: "error: m\n  ┌─ f:1:80\n  │\n1 │ ... a+b}var x=...y,x),missing,f(x,...og(i)}\n  │         --------------^^^^^^^--------------\n  │         │             │\n  │         │             not found\n  │         statements\n\n",
        ..EMPTY
    },
    Row {
        name: "many_labels",
        max_width: Some(40),
        source: JAVASCRIPT,
        labels: &[
            (LabelStyle::Primary, 11..12, "one"),
            (LabelStyle::Secondary, 31..34, "two"),
            (LabelStyle::Primary, 42..45, "three"),
            (LabelStyle::Secondary, 63..66, "four"),
            (LabelStyle::Primary, 79..86, "five"),
            (LabelStyle::Secondary, 109..111, "six"),
        ],
        output: "error: m\n  ┌─ f:1:12\n  │\n1 │ ...a...x=f...f(3...y,f...m...g...10...\n  │    ^   ---   ^^^   ---   ^^^^^   -- six\n  │    │   │     │     │     │        \n  │    │   │     │     │     five\n  │    │   │     │     four\n  │    │   │     three\n  │    │   two\n  │    one\n\n",
        ..EMPTY
    },
    Row {
        name: "too_narrow",
        max_width: Some(12),
        source: JAVASCRIPT,
        labels: &[(LabelStyle::Primary, 79..86, "not found")],
        output: "error: m\n  ┌─ f:1:80\n  │\n1 │ ...m...g...\n  │    ^^^^^ not found\n\n",
        ..EMPTY
    },
    Row {
        name: "width_zero",
        max_width: Some(0),
        source: JAVASCRIPT,
        labels: &[(LabelStyle::Primary, 79..86, "not found")],
        output: "error: m\n  ┌─ f:1:80\n  │\n1 │ ...m...g...\n  │    ^^^^^ not found\n\n",
        ..EMPTY
    },
    Row {
        name: "long_message",
        max_width: Some(40),
        source: JAVASCRIPT,
        labels: &[
            (
                LabelStyle::Primary,
                79..86,
                "a message is never cut, however long it is",
            ),
            (LabelStyle::Secondary, 72..78, "nor is one that hangs"),
        ],
        output: "error: m\n  ┌─ f:1:80\n  │\n1 │ ...,f(x,y),f(y,x),missing,f(x,x))...\n  │            ------ ^^^^^^^ a message is never cut, however long it is\n  │            │       \n  │            nor is one that hangs\n\n",
        ..EMPTY
    },
];
