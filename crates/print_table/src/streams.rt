// Input and output that wait for their other end, and say when it does not come.
ghost use Rattle.std.specs.Prelude.{◌≤◌, length, IfOk};

use std::fs::{OpenFile, OpenOptions};
use std::io::{Error, ErrorKind, Read, Write};
use std::rt::{Clock, Files};
use std::time::Duration;
use std::{fs, io, thread};

// So often a call that moved nothing and may succeed later is tried again, a millisecond after the last time: about ten
// seconds in which nothing moves.
const TRIES: u32 = 10000;

// Standard output by its path.
const OUTPUT: &str = "/dev/stdout";

/// A stream whose calls are tried again where they may succeed later: a signal came first, or a pipe that does not wait for its other end is full or empty.
#[derive(Drop)]
pub struct Patient<'a, C, S> {
    clock: &'a C,
    stream: S,
}

impl<'a, C: Clock, S> Patient<'a, C, S> {
    /// The stream, with the clock by which it waits.
    pub fn new(clock: &'a C, stream: S) -> Patient<'a, C, S> {
        Patient { clock, stream }
    }

    // Waits after a call that failed and may succeed later; any other failure it gives back.
    fn wait_after(&self, error: Error) -> io::Result<()> {
        match error.kind() {
            ErrorKind::Interrupted | ErrorKind::WouldBlock => {
                thread::sleep(self.clock, Duration::from_millis(1));
                Ok(())
            }
            _ => Err(error),
        }
    }
}

// Nothing has moved in all the tries.
fn timed_out() -> Error {
    Error::from(ErrorKind::TimedOut)
}

// One loop for both, lent the call as a closure, was tried: it asks something of the closure, by a `requires`, and the
// bound that `Read` and `Write` have on the count is then not proved at once.
impl<C: Clock, S: Read> Read for Patient<'_, C, S> {
    fn read(&mut self, buf: &mut [u8]) -> io::Result<usize> {
        for _ in 0..TRIES {
            match self.stream.read(buf) {
                Ok(count) => return Ok(count),
                Err(error) => self.wait_after(error)?,
            }
        }
        self.stream.read(buf).or(Err(timed_out()))
    }
}

impl<C: Clock, S: Write> Write for Patient<'_, C, S> {
    fn write(&mut self, buf: &[u8]) -> io::Result<usize> {
        for _ in 0..TRIES {
            match self.stream.write(buf) {
                Ok(count) => return Ok(count),
                Err(error) => self.wait_after(error)?,
            }
        }
        self.stream.write(buf).or(Err(timed_out()))
    }

    fn flush(&mut self) -> io::Result<()> {
        self.stream.flush()
    }
}

// The file that standard output goes to, where it is a file and can be opened by its path.
fn output_file<R: Files>(rt: &R) -> Option<R::File> {
    let found = fs::metadata(rt, OUTPUT).ok()?;
    if !found.is_file() {
        return None;
    }
    OpenOptions::new().write(true).open(rt, OUTPUT).ok()
}

/// Reads until the places are full or the input ends. Gives how many bytes it put there.
pub fn read_whole(from: &mut impl Read, places: &mut [u8]) -> io::Result<usize>
    ensures { IfOk result (λ n. n ≤ length places.new) }
{
    let mut done = 0;
    while done < places.len() {
        let count = from.read(&mut places[done..])?;
        if count == 0 {
            break;
        }
        done += count;
    }
    Ok(done)
}

/// Sees that what standard output took is kept, as far as the system can say: of a file, that it has reached its device,
/// since some file systems tell only then that it is lost. Where it is no file, or one that cannot be opened again,
/// nothing can be asked.
pub fn sync_output(rt: &impl Files) -> io::Result<()> {
    match output_file(rt) {
        Some(file) => file.sync_data(),
        None => Ok(()),
    }
}
