//! `yamltokens events` and `yamltokens nodes`: token lines on standard input, the lines of events or of
//! documents on standard output.
#![tactic(auto)]

use std::process::ExitCode;
use token_lines::command::program;
pub use token_lines::command::run_words;

fn main(rt: HostRuntime) -> ExitCode {
    program(rt)
}
