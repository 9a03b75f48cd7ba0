//! `alloc_failures SUBJECT`, of one or two words ([`subject`] lists them), makes one call that
//! allocates, or the calls that do not, and judges the outcome. `alloc_failures` does so for each
//! subject, one after another.
//!
//! It is meant to run while one allocation after another fails: `tools/alloc_failures/run` makes
//! them fail. A subject is prepared, its call is made, and one line reports the outcome:
//! `unprepared`, an allocation failed before the call; `done`, the call returned `Ok` with exactly
//! what is expected; `failed`, it failed with an error that it may return, and all that must stay
//! unchanged is unchanged; or `wrong`. What is expected is written down in this crate: worked
//! outputs, and what the contract of each call promises.
//!
//! | status | meaning |
//! |---|---|
//! | 0 | the outcome is `done`, `failed` or `unprepared`; without SUBJECT, each is `done` |
//! | 1 | the outcome is `wrong`, without SUBJECT any but `done`; or writing the output failed |
//! | 2 | no subject has this name |
#![tactic(auto)]

mod builders;
mod clones;
mod copying;
mod databases;
mod diagnostics;
mod documents;
mod edits;
mod native;
mod outcome;
mod recording;
mod rendering;
mod run;
mod subject;
mod suggestions;
mod without_alloc;
mod worked_outputs;

use outcome::Outcome;
use program_io::arguments::{ArgumentsError, arguments};
use run::{conclude, run};
use std::process::ExitCode;

fn main(rt: HostRuntime) -> ExitCode {
    let status = match arguments(&rt) {
        Ok(args) => run(rt.alloc(), args.as_slice(), &mut rt.stdout()),
        Err(error) => conclude(unreadable_arguments(error), &mut rt.stdout()),
    };
    ExitCode::from(status)
}

/// Returns the outcome where the arguments cannot be read: those that are not UTF-8 name no
/// subject.
fn unreadable_arguments(error: ArgumentsError) -> Outcome {
    match error {
        ArgumentsError::NotUtf8 => Outcome::Unknown,
        ArgumentsError::OutOfMemory => Outcome::Unprepared,
    }
}
