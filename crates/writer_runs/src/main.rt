//! `writer_runs < OUTPUTS` renders each worked output by each call that writes to a writer, plain
//! and in colors, into writers that stop.
//!
//! It makes the product of tables, so that no run needs a proof of its own: the worked outputs of
//! the input ([`worked_outputs`]) in each style ([`judging`]); the calls ([`rendering`]), and those
//! of `Renderer` ([`direct`]) and of `codespan_suggestions` ([`suggestions`]); the writers of
//! styles between ([`style_writers`]); and the writers of bytes below, each stopped at each write
//! that rendering makes, or at each style mark ([`stops`]), and for suggestions also after each
//! byte. Of each run it checks the result, that the writer holds exactly the prefix of the output
//! that it accepted, and that it was not flushed. The expected text is what `emit_into_string`
//! returns, which is compared with the text that the input states, if it states one for the style;
//! in colors it is the same text once the escape sequences are removed. Of a direct call and of a
//! suggestion the text is stated.
//!
//! A line for each worked output, each direct call and each suggestion states by how many calls, or
//! by which, and into how many kinds of writers it was rendered, or the error. The last line states
//! how many worked outputs, rows and suggestions there were, and how many runs. An error in the
//! input, of reading or of writing ends the program, with a line on standard error and without this
//! last line.
//!
//! | status | meaning |
//! |---|---|
//! | 0 | no error |
//! | 1 | an error in a run or in the input, or reading or writing failed |
#![tactic(auto)]

mod direct;
mod errors;
mod judging;
mod recording;
mod rendering;
mod run;
mod sequence_writer;
mod stops;
mod style_writers;
mod suggestions;
mod worked_output;
mod worked_outputs;

use run::run;
use std::process::ExitCode;

fn main(rt: HostRuntime) -> ExitCode {
    let status = run(
        rt.alloc(),
        &mut rt.stdin(),
        &mut rt.stdout(),
        &mut rt.stderr(),
    );
    ExitCode::from(status)
}
