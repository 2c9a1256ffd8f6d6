// Carries out the lines of its standard input, each a call of the library or what is lent to it, and prints every line
// with what the library answers. The stored input has the surveys that the papers
// work through and many others, and the stored output what the papers say of them, by model.py beside it: it is not
// copied from a run. A new survey is a line of each file.
#![tactic(auto)]

mod answers;
mod asks;
mod command;
mod edits;
mod readings;
mod search;
mod session;
mod words;

ghost use Rattle.std.specs.Prelude.{◌≤◌, length, IfOk};

use crate::session::Session;
use std::io;
use std::io::{Read, Write};

// So many bytes of input are read; lines behind them are not carried out.
const MOST_READ: usize = 32768;

// Reads until the places are full or the input ends. Gives how many bytes it put there.
fn read_whole(from: &mut impl Read, places: &mut [u8]) -> io::Result<usize>
    ensures { IfOk result (λ n. n ≤ length places.new) }
{
    let mut done = 0;
    while done < places.len() {
        let count = from.read(&mut places[done..])?;
        if count == 0 {
            break;
        }
        done += count;
    }
    Ok(done)
}

fn is_newline(letter: &u8) -> bool {
    *letter == b'\n'
}

// Line by line; the last one may have no end. A line need not be text.
fn carry_out_all(out: &mut impl Write, text: &[u8]) -> io::Result<()> {
    let mut session = Session::new();
    if text.is_empty() {
        return Ok(());
    }
    for line in text.strip_suffix(b"\n").unwrap_or(text).split(is_newline) {
        session.carry_out(out, line)?;
    }
    Ok(())
}

// The whole input is read before a line of it is carried out: where it cannot be read, nothing is printed.
fn main(rt: HostRuntime) -> io::Result<()> {
    let mut places = [0u8; MOST_READ];
    let count = read_whole(&mut rt.stdin(), &mut places)?;
    carry_out_all(&mut io::writer(&rt), &places[..count])
}
