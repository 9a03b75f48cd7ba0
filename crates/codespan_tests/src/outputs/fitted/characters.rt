//! Worked outputs of one long line, by its characters.

use crate::outputs::fitted::{EMPTY, Row};
use codespan_reporting::diagnostic::LabelStyle;

/// The outputs.
pub static ROWS: [Row; 13] = [
    Row {
        name: "three_left_out",
        max_width: Some(0),
        source: "abcdefgh",
        labels: &[
            (LabelStyle::Primary, 0..1, ""),
            (LabelStyle::Primary, 4..5, ""),
        ],
        output: "error: m\n  ┌─ f:1:1\n  │\n1 │ abcdefgh\n  │ ^   ^\n\n",
        ..EMPTY
    },
    Row {
        name: "four_left_out",
        max_width: Some(0),
        source: "abcdefghi",
        labels: &[
            (LabelStyle::Primary, 0..1, ""),
            (LabelStyle::Primary, 5..6, ""),
        ],
        output: "error: m\n  ┌─ f:1:1\n  │\n1 │ a...fghi\n  │ ^   ^\n\n",
        ..EMPTY
    },
    Row {
        name: "ascii",
        max_width: Some(50),
        is_ascii: true,
        source: "function f(a,b){return a+b}var x=f(1,2),y=f(3,4);console.log(x+y,f(x,y),f(y,x),missing,f(x,x));for(var i=0;i<10;i++){log(i)}",
        labels: &[(LabelStyle::Primary, 79..86, "not found")],
        output: "error: m\n  --> f:1:80\n  |\n1 | ...y,f(x,y),f(y,x),missing,f(x,x));for(var...\n  |                    ^^^^^^^ not found\n\n",
        ..EMPTY
    },
    Row {
        name: "wide",
        max_width: Some(50),
        source: "見出し：色々な文字が続く長い行色々な文字が続く長い行色々な文字が続く長い行色々な文字が続く長い行間違いがまだ続く長い行がまだ続く長い行がまだ続く長い行",
        labels: &[(LabelStyle::Primary, 144..153, "wrong")],
        output: "error: m\n  ┌─ f:1:49\n  │\n1 │ ...文字が続く長い行間違いがまだ続く長い行...\n  │                    ^^^^^^ wrong\n\n",
        ..EMPTY
    },
    Row {
        name: "combining",
        max_width: Some(30),
        source: "e\u{301}a\u{300}e\u{301}a\u{300}e\u{301}a\u{300}e\u{301}a\u{300}e\u{301}a\u{300}e\u{301}a\u{300}e\u{301}a\u{300}e\u{301}a\u{300}e\u{301}a\u{300}e\u{301}a\u{300}e\u{301}a\u{300}e\u{301}a\u{300}e\u{301}a\u{300}e\u{301}a\u{300}e\u{301}a\u{300}e\u{301}a\u{300}e\u{301}a\u{300}e\u{301}a\u{300}e\u{301}a\u{300}e\u{301}a\u{300}e\u{301}a\u{300}e\u{301}a\u{300}e\u{301}a\u{300}e\u{301}a\u{300}",
        labels: &[(LabelStyle::Primary, 60..63, "here")],
        output: "error: m\n  ┌─ f:1:41\n  │\n1 │ ...a\u{300}e\u{301}a\u{300}e\u{301}a\u{300}e\u{301}a\u{300}e\u{301}a\u{300}e\u{301}a\u{300}e\u{301}a\u{300}e\u{301}a\u{300}e\u{301}a\u{300}e\u{301}a\u{300}...\n  │             ^ here\n\n",
        ..EMPTY
    },
    Row {
        name: "combining_mark_label",
        max_width: Some(30),
        source: "e\u{301}a\u{300}e\u{301}a\u{300}e\u{301}a\u{300}e\u{301}a\u{300}e\u{301}a\u{300}e\u{301}a\u{300}e\u{301}a\u{300}e\u{301}a\u{300}e\u{301}a\u{300}e\u{301}a\u{300}e\u{301}a\u{300}e\u{301}a\u{300}e\u{301}a\u{300}e\u{301}a\u{300}e\u{301}a\u{300}e\u{301}a\u{300}e\u{301}a\u{300}e\u{301}a\u{300}e\u{301}a\u{300}e\u{301}a\u{300}e\u{301}a\u{300}e\u{301}a\u{300}e\u{301}a\u{300}e\u{301}a\u{300}",
        labels: &[(LabelStyle::Primary, 61..63, "the mark")],
        output: "error: m\n  ┌─ f:1:42\n  │\n1 │ ...a\u{300}e\u{301}a\u{300}e\u{301}a\u{300}e\u{301}a\u{300}e\u{301}a\u{300}e\u{301}a\u{300}e\u{301}a\u{300}e\u{301}a\u{300}e\u{301}a\u{300}e\u{301}a\u{300}...\n  │               the mark\n\n",
        ..EMPTY
    },
    Row {
        name: "off_boundary",
        max_width: Some(40),
        source: "見出し：色々な文字が続く長い行色々な文字が続く長い行色々な文字が続く長い行色々な文字が続く長い行間違いがまだ続く長い行がまだ続く長い行がまだ続く長い行",
        labels: &[(LabelStyle::Primary, 145..152, "wrong")],
        output: "error: m\n  ┌─ f:1:49\n  │\n1 │ ...が続く長い行間違いがまだ続く長...\n  │                ^^^^^^ wrong\n\n",
        ..EMPTY
    },
    Row {
        name: "tabs_whole",
        max_width: Some(96),
        source: "\t\tif (x) {\tcall(first, second);\tcall(third, wrong);\tcall(fourth, fifth); }",
        labels: &[(LabelStyle::Primary, 44..49, "here")],
        output: "error: m\n  ┌─ f:1:45\n  │\n1 │         if (x) {    call(first, second);    call(third, wrong); call(fourth, fifth); }\n  │                                                         ^^^^^ here\n\n",
        ..EMPTY
    },
    Row {
        name: "tabs",
        max_width: Some(50),
        source: "\t\tif (x) {\tcall(first, second);\tcall(third, wrong);\tcall(fourth, fifth); }",
        labels: &[(LabelStyle::Primary, 44..49, "here")],
        output: "error: m\n  ┌─ f:1:45\n  │\n1 │ ...;    call(third, wrong); call(fourth...\n  │                     ^^^^^ here\n\n",
        ..EMPTY
    },
    Row {
        name: "tabs_kept_at_start",
        max_width: Some(50),
        source: "\t\tif (x) {\tcall(first, second);\tcall(third, wrong);\tcall(fourth, fifth); }",
        labels: &[(LabelStyle::Primary, 2..4, "here")],
        output: "error: m\n  ┌─ f:1:3\n  │\n1 │         if (x) {    call(first, second);...\n  │         ^^ here\n\n",
        ..EMPTY
    },
    Row {
        name: "indentation",
        max_width: Some(50),
        source: "                                            value = wrong(1) + right(2) + other(3) + more(4)",
        labels: &[(LabelStyle::Primary, 52..60, "here")],
        output: "error: m\n  ┌─ f:1:53\n  │\n1 │ ...        value = wrong(1) + right(2) + ot...\n  │                    ^^^^^^^^ here\n\n",
        ..EMPTY
    },
    Row {
        name: "line_end",
        max_width: Some(30),
        source: "abcdefghijklmnopqrstuvwxyzabcdefg\r\n\r\nb",
        labels: &[(LabelStyle::Primary, 30..31, "here")],
        output: "error: m\n  ┌─ f:1:31\n  │\n1 │ ...klmnopqrstuvwxyzabcdefg\n  │                        ^ here\n\n",
        ..EMPTY
    },
    Row {
        name: "dots_in_source",
        max_width: Some(40),
        source: "call(...args, first, second, third, fourth, ...rest, wrong)",
        labels: &[(LabelStyle::Primary, 53..58, "here")],
        output: "error: m\n  ┌─ f:1:54\n  │\n1 │ ...d, third, fourth, ...rest, wrong)\n  │                               ^^^^^ here\n\n",
        ..EMPTY
    },
];
