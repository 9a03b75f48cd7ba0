//! Runs that print the version, and arguments that request it.

use crate::tests::{FailingWriter, owned_arguments};
use crate::version::{is_version_requested, write_version};
use std::alloc::Global;
use std::process::Abort;

/// Asserts whether these arguments request the version.
fn check_request(rt: &impl Abort, alloc: Global, args: &[&str], expected: bool) {
    let owned = owned_arguments(rt, alloc, args);
    assert!(rt; is_version_requested(&owned) == expected, "{args:?}");
}

/// Asserts the status and the standard error of a run in which this write fails, and how many bytes
/// of the version it writes.
fn check_write(
    rt: &impl Abort,
    alloc: Global,
    failed_write: Option<usize>,
    expected: (&str, &str, u8),
) {
    let mut stdout = FailingWriter::new(alloc, failed_write, false);
    let mut stderr = FailingWriter::new(alloc, None, false);
    let status = write_version(&mut stdout, &mut stderr);
    let found = (stdout.text(), stderr.text(), status);
    assert!(rt; found == expected, "{failed_write:?}: {status}");
}

#[test]
fn version(rt: HostRuntime) {
    let alloc = rt.alloc();
    check_request(&rt, alloc, &["--version"], true);
    check_request(&rt, alloc, &[], false);
    check_request(&rt, alloc, &["--versions"], false);
    check_request(&rt, alloc, &["--version", "--version"], false);
    check_write(&rt, alloc, None, ("report 0.1.0\n", "", 0));
    check_write(
        &rt,
        alloc,
        Some(1),
        ("repo", "report: cannot write output\n", 1),
    );
}
