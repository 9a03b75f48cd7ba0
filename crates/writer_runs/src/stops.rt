//! Runs into writers that stop.

use crate::errors::{StopKind, WrongRun};
use crate::recording::Recording;
use crate::rendering::Render;
use crate::sequence_writer::SequenceWriter;
use crate::style_writers::StyleWriterKind;
use std::alloc::Global;
use test_writers::stopping::{Stop, is_as_expected};

/// How a writer stops at a write.
pub const STOPS: [Stop; 4] = [
    Stop::Fails,
    Stop::TakesNothing,
    Stop::IsInterrupted,
    Stop::TakesOneByte,
];

/// The number of kinds of writers: those that stop at a write, the one that accepts a byte at a
/// time, and the one that stops at a style mark.
pub const WRITERS: usize = STOPS.len() + 2;

/// Renders by way of a writer of styles to each writer that stops, at each write that rendering
/// makes, and returns the number of runs.
///
/// # Errors
///
/// - `UnexpectedResult`: the first run whose result or whose writer is not as expected.
/// - `NoFirstWrite`: no write of `recording` begins at the first byte, although no output is empty.
pub fn judge_stops<D: Render>(
    alloc: Global,
    style_writer: StyleWriterKind,
    call: &D,
    recording: &Recording,
) -> Result<usize, WrongRun> {
    let whole = recording.text();
    let slow = Recording::stopping(alloc, 1, usize::MAX, Stop::Fails);
    if !stops_at(style_writer, call, slow, whole, whole.len()) {
        return Err(WrongRun::UnexpectedResult(style_writer, StopKind::Slow, 0));
    }
    if recording.starts.first() != Some(&0) {
        return Err(WrongRun::NoFirstWrite(style_writer));
    }
    let mut runs = 1usize;
    for stop in STOPS {
        for (writes, start) in recording.starts.iter().enumerate() {
            let stopping = Recording::stopping(alloc, usize::MAX, writes, stop);
            let length = written_length(stop, *start, whole.len());
            if !stops_at(style_writer, call, stopping, whole, length) {
                return Err(WrongRun::UnexpectedResult(
                    style_writer,
                    StopKind::AtWrite(stop),
                    writes,
                ));
            }
            runs = runs.saturating_add(1);
        }
        let stopping = Recording::stopping(alloc, usize::MAX, recording.starts.len(), stop);
        if !stops_at(style_writer, call, stopping, whole, whole.len()) {
            let writes = recording.starts.len();
            return Err(WrongRun::UnexpectedResult(style_writer, StopKind::AtWrite(stop), writes));
        }
        runs = runs.saturating_add(1);
    }
    Ok(runs)
}

/// Renders by way of a writer of styles to each writer that takes one byte at a time and fails
/// after some of the bytes of the whole text, and returns the number of runs.
///
/// # Errors
///
/// `UnexpectedResult`: the first run whose result or whose writer is not as expected.
pub fn judge_bytes<D: Render>(
    alloc: Global,
    style_writer: StyleWriterKind,
    call: &D,
    whole: &[u8],
) -> Result<usize, WrongRun> {
    for bytes in 0..whole.len() {
        let stopping = Recording::stopping(alloc, 1, bytes, Stop::Fails);
        if !stops_at(style_writer, call, stopping, whole, bytes) {
            return Err(WrongRun::UnexpectedResult(style_writer, StopKind::AtByte, bytes));
        }
    }
    Ok(whole.len())
}

/// Returns the number of bytes in a writer that stops in this way, after this many bytes.
fn written_length(stop: Stop, start: usize, whole: usize) -> usize {
    match stop {
        Stop::TakesOneByte => start.saturating_add(1).min(whole),
        Stop::Fails | Stop::TakesNothing | Stop::IsInterrupted => start,
    }
}

/// Renders by way of a writer of styles to a writer, and returns whether it then holds a prefix of
/// this length and was not flushed. If that is the whole text, the result has to be `Ok`; else it
/// has to be `Io`, and no write may follow the one that stopped the writer.
fn stops_at<D: Render>(
    style_writer: StyleWriterKind,
    call: &D,
    mut recording: Recording,
    whole: &[u8],
    length: usize,
) -> bool {
    let is_whole = length == whole.len();
    let returned = style_writer.render(call, &mut recording);
    is_as_expected(&returned, !is_whole)
        && recording.inner.is_right(is_whole, whole)
        && recording.inner.flushes == 0
        && recording.text().len() == length
}

/// Renders to a `SequenceWriter`, which fails at each style mark in turn, and returns the number of
/// runs. The text itself has no escape character: each one in `whole` begins the spelling of a
/// style mark.
///
/// # Errors
///
/// `UnexpectedResult`: the first run whose result or whose writer is not as expected.
pub fn judge_style_marks<D: Render>(
    alloc: Global,
    call: &D,
    whole: &[u8],
) -> Result<usize, WrongRun> {
    let mut style_marks = 0usize;
    for (position, byte) in whole.iter().enumerate() {
        if *byte == b'\x1b' {
            let (written, _rest) = whole.split_at(position.saturating_add(1).min(whole.len()));
            if !stops_at_style_mark(alloc, call, style_marks, written, true) {
                return Err(stopped_at_style_mark(style_marks));
            }
            style_marks = style_marks.saturating_add(1);
        }
    }
    if !stops_at_style_mark(alloc, call, style_marks, whole, false) {
        return Err(stopped_at_style_mark(style_marks));
    }
    Ok(style_marks.saturating_add(1))
}

/// Returns the error of a run with a writer that fails at the style mark after this many.
fn stopped_at_style_mark(style_marks: usize) -> WrongRun {
    WrongRun::UnexpectedResult(
        StyleWriterKind::Sequences,
        StopKind::AtStyleMark,
        style_marks,
    )
}

/// Renders to a `SequenceWriter`, which fails at the style mark after this many, and returns
/// whether these bytes have then been written, the writer below was not flushed and, if the bytes
/// are not all, the result is `Io` and no style mark and no write followed.
fn stops_at_style_mark<D: Render>(
    alloc: Global,
    call: &D,
    style_marks: usize,
    written: &[u8],
    is_stopped: bool,
) -> bool {
    let mut recording = Recording::new(alloc);
    fails_at_style_mark(call, &mut recording, style_marks, is_stopped)
        && recording.inner.flushes == 0
        && recording.text() == written
}

/// Renders to a `SequenceWriter`, which fails at the style mark after this many, and returns
/// whether, if it has stopped, the result is `Io` and no style mark and no write followed.
fn fails_at_style_mark<D: Render>(
    call: &D,
    recording: &mut Recording,
    style_marks: usize,
    is_stopped: bool,
) -> bool {
    let mut writer = SequenceWriter::new(recording, style_marks);
    let returned = call.render(&mut writer);
    is_as_expected(&returned, is_stopped)
        && writer.has_failed() == is_stopped
        && writer.calls_after == 0
}
