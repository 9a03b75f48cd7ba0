//! Which calls of the writer with style marks in band flush, and what its `write` takes.

use crate::asserts::assert_bytes;
use crate::rows::write_style_marks;
use codespan_native::style_mark_writer::StyleMarkWriter;
use std::io::Write;
use std::panic::Expect;
use test_writers::counting::CountingWriter;

/// The writer passes on a flush, and no other call flushes.
#[test]
fn only_flush_flushes(rt: HostRuntime) {
    let mut inner = CountingWriter::default();
    write_style_marks(&rt, &mut StyleMarkWriter::new(&mut inner));
    assert!(rt; inner.flushes == 1);
}

/// A `write` is passed on, and returns how many bytes were taken.
#[test]
fn write_is_passed_on(rt: HostRuntime) {
    let mut writer = StyleMarkWriter::new(Vec::new(rt.alloc()));
    assert!(rt; writer.write(b"text").expect(&rt, "the count") == 4);
    assert_bytes(&rt, writer.into_inner().as_slice(), "text");
}
