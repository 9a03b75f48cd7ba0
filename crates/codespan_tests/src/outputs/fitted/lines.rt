//! Worked outputs of several lines, some of them long.

use crate::outputs::fitted::{EMPTY, Row};
use codespan_reporting::diagnostic::LabelStyle;
use codespan_reporting::term::Layout;

/// The outputs.
pub static ROWS: [Row; 9] = [
    Row {
        name: "context",
        max_width: Some(40),
        context_lines: 1,
        source: "first = 1;\nfunction f(a,b){return a+b}var x=f(1,2),y=f(3,4);console.log(x+y,f(x,y),f(y,x),missing,f(x,x));for(var i=0;i<10;i++){log(i)}\nlast = 2;\n",
        labels: &[(LabelStyle::Primary, 90..97, "not found")],
        output: "error: m\n  ┌─ f:2:80\n  │\n1 │ first = 1;\n2 │ ...,y),f(y,x),missing,f(x,x));fo...\n  │               ^^^^^^^ not found\n3 │ last = 2;\n\n",
        ..EMPTY
    },
    Row {
        name: "long_context",
        max_width: Some(40),
        context_lines: 1,
        source: "function f(a,b){return a+b}var x=f(1,2),y=f(3,4);console.log(x+y,f(x,y),f(y,x),missing,f(x,x));for(var i=0;i<10;i++){log(i)}\nx = 1;\nfunction f(a,b){return a+b}var x=f(1,2),y=f(3,4);console.log(x+y,f(x,y),f(y,x),missing,f(x,x));for(var i=0;i<10;i++){log(i)}\n",
        labels: &[(LabelStyle::Primary, 125..126, "here")],
        output: "error: m\n  ┌─ f:2:1\n  │\n1 │ function f(a,b){return a+b}var x=...\n2 │ x = 1;\n  │ ^ here\n3 │ function f(a,b){return a+b}var x=...\n\n",
        ..EMPTY
    },
    Row {
        name: "multi_line",
        max_width: Some(44),
        source: "head(1); if (check(first, second, third) == 0) { // a long comment that goes on\n    body(1, 2, 3, 4, 5, 6, 7, 8, 9, 10, 11, 12, 13, 14, 15);\n    done(1); } else { other(2); } // and another one that is long\n",
        labels: &[(LabelStyle::Primary, 47..155, "this block")],
        output: "error: m\n  ┌─ f:1:48\n  │  \n1 │   ..., third) == 0) { // a long comm...\n  │ ╭───────────────────^\n2 │ │     body(1, 2, 3, 4, 5, 6, 7, 8, 9,...\n3 │ │     done(1); } else { other(2); } /...\n  │ ╰──────────────^ this block\n\n",
        ..EMPTY
    },
    Row {
        name: "multi_line_unbroken",
        max_width: Some(44),
        layout: Layout::Unbroken,
        source: "head(1); if (check(first, second, third) == 0) { // a long comment that goes on\n    body(1, 2, 3, 4, 5, 6, 7, 8, 9, 10, 11, 12, 13, 14, 15);\n    done(1); } else { other(2); } // and another one that is long\n",
        labels: &[
            (LabelStyle::Primary, 47..155, "this block"),
            (LabelStyle::Secondary, 13..145, "and this"),
        ],
        output: "error: m\n  ┌─ f:1:48\n  │    \n1 │     ...; if (check(f...== 0) { // a ...\n  │ ╭────────────────────────────^\n  │ │ ╭──────────'\n2 │ │ │     body(1, 2, 3, 4, 5, 6, 7, 8, ...\n3 │ │ │     done(1); } else { other(2); }...\n  │ ╰─│──────────────^ this block\n  │   ╰────' and this\n\n",
        ..EMPTY
    },
    Row {
        name: "top_corner_in_source_row",
        max_width: Some(60),
        source: "                    match shape { Circle(radius) => 1, Square(side) => 2,\n}\n",
        labels: &[(LabelStyle::Primary, 20..75, "block")],
        output: "error: m\n  ┌─ f:1:21\n  │  \n1 │ ╭                     match shape { Circle(radius) =>...\n2 │ │ }\n  │ ╰─^ block\n\n",
        ..EMPTY
    },
    Row {
        name: "indentation_before_top_corner",
        max_width: Some(40),
        source: "                                        match shape { Circle(radius) => 1, Square(side) => 2,\n}\n",
        labels: &[(LabelStyle::Primary, 40..95, "block")],
        output: "error: m\n  ┌─ f:1:41\n  │  \n1 │ ╭                                         m...\n2 │ │ }\n  │ ╰─^ block\n\n",
        ..EMPTY
    },
    Row {
        name: "bottom_at_line_start",
        max_width: Some(30),
        source: "open(\nabcdefghijklmnopqrstuvwxyzabcdefghijklmnopqrstuvwxyz\n",
        labels: &[(LabelStyle::Primary, 0..6, "up to here")],
        output: "error: m\n  ┌─ f:1:1\n  │  \n1 │ ╭ open(\n2 │ │ abcdefghijklmnopqrstu...\n  │ ╰^ up to here\n\n",
        ..EMPTY
    },
    Row {
        name: "lanes_count",
        max_width: Some(40),
        source: "head(1); if (check(first, second, third) == 0) { // a long comment that goes on\n    body(1, 2, 3, 4, 5, 6, 7, 8, 9, 10, 11, 12, 13, 14, 15);\n    done(1); } else { other(2); } // and another one that is long\nabcdefghijklmnopqrstuvwxyzabcdefghijklmnopqrstuvwxyzabcdefghijklmnopqrstuvwxyzabcdefghijklmnopqrstuvwxyz\n",
        labels: &[
            (LabelStyle::Primary, 47..155, "one"),
            (LabelStyle::Secondary, 0..267, "two"),
        ],
        output: "error: m\n  ┌─ f:1:48\n  │    \n1 │   ╭ head(1); ...) == 0) { // a lo...\n  │ ╭───────────────────────^\n2 │ │ │     body(1, 2, 3, 4, 5, 6, 7,...\n3 │ │ │     done(1); } else { other(2...\n  │ ╰─│──────────────^ one\n4 │   │ ...vwxyzabcdefghijklmnopqrst...\n  │   ╰────────────────' two\n\n",
        ..EMPTY
    },
    Row {
        name: "gutter_counts",
        max_width: Some(40),
        source: "\n\n\n\n\n\n\n\n\n\n\n\n\n\n\n\n\n\n\n\n\n\n\n\n\n\n\n\n\n\n\n\n\n\n\n\n\n\n\n\n\n\n\n\n\n\n\n\n\n\n\n\n\n\n\n\n\n\n\n\n\n\n\n\n\n\n\n\n\n\n\n\n\n\n\n\n\n\n\n\n\n\n\n\n\n\n\n\n\n\n\n\n\n\n\n\n\n\n\n\n\n\n\n\n\n\n\n\n\n\n\n\n\n\n\n\n\n\n\n\n\n\n\n\n\n\n\n\n\n\n\n\n\n\n\n\n\n\n\n\n\n\n\n\n\n\n\n\n\n\n\n\n\n\n\n\n\n\n\n\n\n\n\n\n\n\n\n\n\n\n\n\n\n\n\n\n\n\n\n\n\n\n\n\n\n\n\n\n\n\n\n\n\n\n\n\n\n\n\n\n\n\n\n\n\n\n\n\n\n\n\n\n\n\n\n\n\n\n\n\n\n\n\n\n\n\n\n\n\n\n\n\n\n\n\n\n\n\n\n\n\n\n\n\n\n\n\n\n\n\n\n\n\n\n\n\n\n\n\n\n\n\n\n\n\n\n\n\n\n\n\n\n\n\n\n\n\n\n\n\n\n\n\n\n\n\n\n\n\n\n\n\n\n\n\n\n\n\n\n\n\n\n\n\n\n\n\n\n\n\n\n\n\n\n\n\n\n\n\n\n\n\n\n\n\n\n\n\n\n\n\n\n\n\n\n\n\n\n\n\n\n\n\n\n\n\n\n\n\n\n\n\n\n\n\n\n\n\n\n\n\n\n\n\n\n\n\n\n\n\n\n\n\n\n\n\n\n\n\n\n\n\n\n\n\n\n\n\n\n\n\n\n\n\n\n\n\n\n\n\n\n\n\n\n\n\n\n\n\n\n\n\n\n\n\n\n\n\n\n\n\n\n\n\n\n\n\n\n\n\n\n\n\n\n\n\n\n\n\n\n\n\n\n\n\n\n\n\n\n\n\n\n\n\n\n\n\n\n\n\n\n\n\n\n\n\n\n\n\n\n\n\n\n\n\n\n\n\n\n\n\n\n\n\n\n\n\n\n\n\n\n\n\n\n\n\n\n\n\n\n\n\n\n\n\n\n\n\n\n\n\n\n\n\n\n\n\n\n\n\n\n\n\n\n\n\n\n\n\n\n\n\n\n\n\n\n\n\n\n\n\n\n\n\n\n\n\n\n\n\n\n\n\n\n\n\n\n\n\n\n\n\n\n\n\n\n\n\n\n\n\n\n\n\n\n\n\n\n\n\n\n\n\n\n\n\n\n\n\n\n\n\n\n\n\n\n\n\n\n\n\n\n\n\n\n\n\n\n\n\n\n\n\n\n\n\n\n\n\n\n\n\n\n\n\n\n\n\n\n\n\n\n\n\n\n\n\n\n\n\n\n\n\n\n\n\n\n\n\n\n\n\n\n\n\n\n\n\n\n\n\n\n\n\n\n\n\n\n\n\n\n\n\n\n\n\n\n\n\n\n\n\n\n\n\n\n\n\n\n\n\n\n\n\n\n\n\n\n\n\n\n\n\n\n\n\n\n\n\n\n\n\n\n\n\n\n\n\n\n\n\n\n\n\n\n\n\n\n\n\n\n\n\n\n\n\n\n\n\n\n\n\n\n\n\n\n\n\n\n\n\n\n\n\n\n\n\n\n\n\n\n\n\n\n\n\n\n\n\n\n\n\n\n\n\n\n\n\n\n\n\n\n\n\n\n\n\n\n\n\n\n\n\n\n\n\n\n\n\n\n\n\n\n\n\n\n\n\n\n\n\n\n\n\n\n\n\n\n\n\n\n\n\n\n\n\n\n\n\n\n\n\n\n\n\n\n\n\n\n\n\n\n\n\n\n\n\n\n\n\n\n\n\n\n\n\n\n\n\n\n\n\n\n\n\n\n\n\n\n\n\n\n\n\n\n\n\n\n\n\n\n\n\n\n\n\n\n\n\n\n\n\n\n\n\n\n\n\n\n\n\n\n\n\n\n\n\n\n\n\n\n\n\n\n\n\n\n\n\n\n\n\n\n\n\n\n\n\n\n\n\n\n\n\n\n\n\n\n\n\n\n\n\n\n\n\n\n\n\n\n\n\n\n\n\n\n\n\n\n\n\n\n\n\n\n\n\n\n\n\n\n\n\n\n\n\n\n\n\n\n\n\n\n\n\n\n\n\n\n\n\n\n\n\n\n\n\n\nabcdefghijklmnopqrstuvwxyzabcdefghijklmnopqrstuvwxyz\nabcdefghijklmnopqrstuvwxyzabcdefghijklmnopqrstuvwxyz\n",
        labels: &[(LabelStyle::Primary, 1091..1092, "here")],
        output: "error: m\n     ┌─ f:1000:41\n     │\n1000 │ ...wxyzabcdefghijklmnopqrstuvwxyz\n     │                      ^ here\n\n",
        ..EMPTY
    },
];
