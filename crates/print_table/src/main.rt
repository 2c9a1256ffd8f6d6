// Prints the table of an image and a kind with its parameter: 2,066 bytes on standard input, the image and then the two
// numbers of a byte each. A line `Q bits constant`, then a line `i j value` for each
// number that is not 0, i rising, then j rising, with `i i` for a single bit; or one line, `refused` and the number.
// What the numbers mean: E = constant + the value of each bit that is set + the value of each pair i < j whose bits are both set, once.
// A table is whole or said not to be: the first write that fails is the last, and standard error then has a line about
// it. So it has where the input could not be read.
#![tactic(auto)]

mod gathered;
mod streams;
mod table;

use crate::gathered::Gathered;
use crate::streams::Patient;
use std::io;
use std::io::Write;
use std::process::ExitCode;
use std::rt::{Clock, Files};

// An input and one byte more, so that a longer one is seen.
const PLACES: usize = table::INPUT + 1;

// Writes the answer to an input, and sees that it is kept.
fn print_answer(rt: &(impl Print + Clock + Files), input: &[u8]) -> io::Result<()> {
    let mut out = Gathered::new(Patient::new(rt, io::writer(rt)));
    table::write_answer(&mut out, input)?;
    out.flush()?;
    streams::sync_output(rt)
}

// Says what went wrong; where standard error cannot be written either, the exit status alone tells.
fn fail(rt: &HostRuntime, line: &str) -> ExitCode {
    let _ = Patient::new(rt, rt.stderr()).write_all(line.as_bytes());
    ExitCode::FAILURE
}

// The exit status tells whether the table or the refusal is whole, and standard error what went wrong.
fn main(rt: HostRuntime) -> ExitCode {
    let mut places = [0; PLACES];
    let Ok(count) = streams::read_whole(&mut Patient::new(&rt, rt.stdin()), &mut places) else {
        return fail(&rt, "print_table: input failed: no table\n");
    };
    match print_answer(&rt, &places[..count]) {
        Ok(()) => ExitCode::SUCCESS,
        Err(_) => fail(&rt, "print_table: output failed: incomplete table\n"),
    }
}
