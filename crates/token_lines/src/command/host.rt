//! The program over the input and the output of its process.

use crate::command::words::{no_memory, refuse_words, run_words};
use std::io::{BufReader, BufWriter};
use std::process::ExitCode;
use std::rt::Env;
use std::{env, io};

/// This many bytes are read or written at once.
const BUFFER_SIZE: usize = 1 << 16;

/// Runs what the words after the program's name ask for, from standard input to standard output, and returns
/// the exit status. It is the whole of a program's `main`.
pub fn program(rt: HostRuntime) -> ExitCode {
    let alloc = rt.alloc();
    let mut errors = rt.stderr();
    let Ok(words) = read_words(&rt) else {
        return ExitCode::from(refuse_words(&mut errors));
    };
    let Ok(reader) = BufReader::with_capacity(alloc, BUFFER_SIZE, rt.stdin()) else {
        return ExitCode::from(no_memory(&mut errors));
    };
    let Ok(mut output) = BufWriter::with_capacity(alloc, BUFFER_SIZE, rt.stdout()) else {
        return ExitCode::from(no_memory(&mut errors));
    };
    ExitCode::from(run_words(alloc, words.as_slice(), reader, &mut output, &mut errors))
}

/// Returns the arguments after the program's name.
fn read_words(rt: &(impl Env + AllocGlobal)) -> io::Result<Vec<String>> {
    Ok(env::args(rt)?.skip(1).collect(rt.alloc())?)
}
