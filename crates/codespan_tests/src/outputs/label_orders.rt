//! An output of many labels, in three orders.

use crate::outputs::rendering::{OK, assert_renders};
use codespan_reporting::diagnostic::{Diagnostic, Label, LabelStyle};
use codespan_reporting::files::{Error, SimpleFile};
use codespan_reporting::term::Config;
use std::alloc::Global;
use std::panic::Expect;
use std::process::Abort;

/// Returns the text: fifty equal lines.
fn source_of(alloc: Global) -> Result<String, Error> {
    let mut source = String::new(alloc);
    for _ in 0..50 {
        source.push_str("abcdefgh\n")?;
    }
    Ok(source)
}

/// Returns the label of a position: on the line of its remainder by 50, 0-based, with the position
/// in its message. Those of a line have ranges that overlap.
fn label_of(alloc: Global, position: usize) -> Result<Label<()>, Error> {
    let style = if position % 2 == 0 {
        LabelStyle::Primary
    } else {
        LabelStyle::Secondary
    };
    let start = position % 50 * 9 + position / 50;
    Label::new(alloc, style, (), start..start + 2).with_message(format_args!("m{position}"))
}

/// Returns the rows of a line, 0-based: its labels hang from the last to the first.
fn rows_of(alloc: Global, line: usize) -> Result<String, Error> {
    let carets = if line % 2 == 0 { "^^^^^" } else { "-----" };
    let rows = format!(in alloc;
        "{:>2} │ abcdefgh\n   │ {carets}\n   │ ││││\n\
        \x20  │ │││m{}\n   │ ││m{}\n   │ │m{}\n   │ m{}\n",
        line.saturating_add(1),
        line.saturating_add(150),
        line.saturating_add(100),
        line.saturating_add(50),
        line,
    )?;
    Ok(rows)
}

/// Returns the output.
fn output(rt: &impl Abort, alloc: Global) -> String {
    let start = "error: \n   ┌─ f:1:1\n   │\n";
    let mut text = String::from_str(alloc, start).expect(rt, "the start");
    for line in 0..50 {
        let rows = rows_of(alloc, line).expect(rt, "the rows");
        text.push_str(rows.as_str()).expect(rt, "the lines");
    }
    text.push('\n').expect(rt, "the end");
    text
}

/// An order of the labels of positions 0 to 199.
#[derive(Clone, Copy)]
enum Order {
    /// That of the positions.
    Forward,
    /// From the last position to the first.
    Backward,
    /// Odd positions before even ones.
    OddFirst,
}

/// Returns the position of the label that is at this index in an order.
fn position_at(order: Order, index: usize) -> usize {
    match order {
        Order::Forward => index,
        Order::Backward => 199_usize.saturating_sub(index),
        Order::OddFirst => index % 100 * 2 + (index < 100) as usize,
    }
}

/// Returns a diagnostic with 200 labels in this order.
fn with_labels_in(rt: &impl Abort, alloc: Global, order: Order) -> Diagnostic<()> {
    let mut diagnostic = Diagnostic::error(alloc);
    for index in 0..200 {
        let label = label_of(alloc, position_at(order, index)).expect(rt, "the label");
        diagnostic = diagnostic.with_label(label).expect(rt, "the labels");
    }
    diagnostic
}

/// Asserts that the labels in this order have this output.
fn assert_in_order(
    rt: &impl Abort,
    alloc: Global,
    files: &SimpleFile<&str, &str>,
    order: Order,
    output: &str,
) {
    let diagnostic = with_labels_in(rt, alloc, order);
    assert_renders(rt, &Config::default(), files, &diagnostic, (output, OK));
}

/// The orders.
static ORDERS: [Order; 3] = [Order::Forward, Order::Backward, Order::OddFirst];

#[test]
fn label_orders(rt: HostRuntime) {
    let source = source_of(rt.alloc()).expect(&rt, "the source");
    let files = SimpleFile::new(rt.alloc(), "f", source.as_str()).expect(&rt, "the file");
    let output = output(&rt, rt.alloc());
    for order in &ORDERS {
        assert_in_order(&rt, rt.alloc(), &files, *order, output.as_str());
    }
}
