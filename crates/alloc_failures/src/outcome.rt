//! The outcome of a subject.

ghost use Rattle.std.specs.Prelude.{◌≡◌, ◌≢◌, ◌≤◌, ◌⊎◌, IfOk, IsTrue};
ghost use Rattle.std.specs.Prelude.{IsErrOf};

use codespan_base::files::Error;
use std::fmt;
use std::fmt::Write;

/// The outcome of a subject.
#[derive(Clone, Copy, PartialEq, Eq)]
pub enum Outcome {
    /// No subject has this name.
    Unknown,
    /// An allocation failed before the call.
    Unprepared,
    /// The call returned `Ok`, with exactly what is expected.
    Done,
    /// The call failed with an error that it may return, and what must stay unchanged is unchanged.
    Failed,
    /// Any other outcome.
    Wrong(Wrong),
}

/// The reasons of a wrong outcome.
#[derive(Clone, Copy, PartialEq, Eq)]
pub enum Wrong {
    /// An error other than a failed allocation was returned before the call.
    Preparation,
    /// The call returned `Ok` with another value.
    Value,
    /// The call failed with an error that it may not return.
    Error,
    /// The call failed, and something has changed.
    Changed,
}

impl Outcome {
    /// Returns the program's status.
    pub fn status(self) -> u8
        ensures at_most_two { result ≤ 2 }
        ensures success { result ≡ 0 → (self ≡ Outcome.Unprepared) ⊎ (self ≡ Outcome.Done)
            ⊎ (self ≡ Outcome.Failed) }
    {
        match self {
            Outcome::Unprepared | Outcome::Done | Outcome::Failed => 0,
            Outcome::Wrong(_) => 1,
            Outcome::Unknown => 2,
        }
    }

    /// Returns one word, or a few for a wrong outcome or an unknown subject.
    fn words(&self) -> &'static str {
        match self {
            Outcome::Unknown => "no subject has this name",
            Outcome::Unprepared => "unprepared",
            Outcome::Done => "done",
            Outcome::Failed => "failed",
            Outcome::Wrong(Wrong::Preparation) => {
                "wrong: preparing it failed, not by a failed allocation"
            }
            Outcome::Wrong(Wrong::Value) => "wrong: not the expected value",
            Outcome::Wrong(Wrong::Error) => "wrong: an error that the call may not return",
            Outcome::Wrong(Wrong::Changed) => "wrong: the call failed and has changed something",
        }
    }
}

/// Writes one word, or a few for a wrong outcome or an unknown subject.
impl fmt::Display for Outcome {
    fn fmt<W: Write>(&self, f: &mut fmt::Formatter<W>) -> fmt::Result {
        f.write_str(self.words())
    }
}

/// Returns the outcome of a subject whose preparation may fail.
pub fn outcome_of(judged: Result<Outcome, Error>) -> Outcome {
    match judged {
        Ok(outcome) => outcome,
        Err(Error::OutOfMemory) => Outcome::Unprepared,
        Err(_) => Outcome::Wrong(Wrong::Preparation),
    }
}

/// Returns `Done` if the value is the expected one, and else `Wrong`.
pub fn judge_success(is_expected: bool) -> Outcome
    ensures done { result ≡ Outcome.Done → IsTrue is_expected }
    ensures no_failure { result ≢ Outcome.Failed }
{
    if is_expected {
        Outcome::Done
    } else {
        Outcome::Wrong(Wrong::Value)
    }
}

/// Returns `Failed` if the error is a failed allocation and what must stay unchanged is unchanged,
/// and else `Wrong`.
pub fn judge_failure(error: &Error, is_unchanged: bool) -> Outcome
    ensures error { result ≡ Outcome.Failed → error.now ≡ Error.OutOfMemory }
    ensures unchanged { result ≡ Outcome.Failed → IsTrue is_unchanged }
    ensures not_done { result ≢ Outcome.Done }
{
    match error {
        Error::OutOfMemory if is_unchanged => Outcome::Failed,
        Error::OutOfMemory => Outcome::Wrong(Wrong::Changed),
        _ => Outcome::Wrong(Wrong::Error),
    }
}

/// Returns the outcome of a call that makes a value: `Done` if it is the expected one, `Failed` if
/// an allocation failed, and else `Wrong`.
pub fn judge_value<T: PartialEq + Drop>(returned: &Result<T, Error>, expected: &T) -> Outcome
    ensures done { result ≡ Outcome.Done → IfOk returned.now
        (λ made. IsTrue (T.eq made expected.now)) }
    ensures failed { result ≡ Outcome.Failed → IsErrOf returned.now Error.OutOfMemory }
{
    match returned {
        Ok(made) => judge_success(*made == *expected),
        Err(error) => judge_failure(error, true),
    }
}
