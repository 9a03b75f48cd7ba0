//! Which calls flush.

use crate::asserts::assert_same;
use crate::writers::written::{Rows, styled, write_rows};
use codespan_base::term::config::plain_ref::PlainWriterRef;
use codespan_base::term::{Ansi, NoColor, PlainWriter};
use std::io;
use std::panic::Expect;
use std::process::Abort;
use test_writers::counting::CountingWriter;

/// Returns how often a writer of plain text flushes.
fn flushes_of_plain() -> io::Result<usize> {
    let mut inner = CountingWriter::default();
    write_rows(&mut PlainWriter::new(&mut inner), Rows::Flushed)?;
    Ok(inner.flushes)
}

/// Returns how often a writer of plain text over a borrowed one flushes.
fn flushes_of_plain_ref() -> io::Result<usize> {
    let mut inner = CountingWriter::default();
    write_rows(&mut PlainWriterRef::new(&mut inner), Rows::Flushed)?;
    Ok(inner.flushes)
}

/// Returns how often a writer in color flushes.
fn flushes_of_ansi() -> io::Result<usize> {
    let mut inner = CountingWriter::default();
    styled(Ansi::new(&mut inner), Rows::Flushed)?;
    Ok(inner.flushes)
}

/// Returns how often a writer without color flushes.
fn flushes_of_no_color() -> io::Result<usize> {
    let mut inner = CountingWriter::default();
    styled(NoColor::new(&mut inner), Rows::Flushed)?;
    Ok(inner.flushes)
}

/// Asserts that a writer flushes once.
fn assert_flushes_once(rt: &impl Abort, flushes: io::Result<usize>) {
    assert_same(rt, &flushes.expect(rt, "the flushes"), &1);
}

/// Each writer passes on one flush; no style mark and no write flushes.
#[test]
fn only_flush_flushes(rt: HostRuntime) {
    assert_flushes_once(&rt, flushes_of_plain());
    assert_flushes_once(&rt, flushes_of_plain_ref());
    assert_flushes_once(&rt, flushes_of_ansi());
    assert_flushes_once(&rt, flushes_of_no_color());
}
