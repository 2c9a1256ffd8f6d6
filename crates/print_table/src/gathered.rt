// Output that is gathered in one buffer: a write for each line would cost seconds on a large table. Nothing is allocated.
ghost use Rattle.std.specs.Prelude.{◌≡◌, ◌+◌, ◌≤◌, ◌++◌, OnOk, length, take};
ghost use Rattle.print_table.specs.declared.gathered.TheConstants.{ROOM};

use std::io;
use std::io::Write;

// A write takes so many bytes at most.
const ROOM: usize = 65536;

// From here on a line may not fit: it has three numbers of at most 21 bytes, two spaces and its end.
const NEARLY_FULL: usize = 65470;

/// A stream, and what is to be written to it next.
#[derive(Drop)]
pub struct Gathered<S> {
    stream: S,
    bytes: [u8; ROOM],
    len: usize,
    ghost within: { len ≤ ROOM },
}

impl<S: Write> Gathered<S> {
    /// The stream, with nothing gathered yet.
    pub fn new(stream: S) -> Gathered<S> {
        Gathered {
            stream,
            bytes: [0; ROOM],
            len: 0,
        }
    }

    // Puts bytes behind those that are gathered.
    fn put(&mut self, bytes: &[u8])
        requires { self.old.len + length bytes.now ≤ ROOM }
        ensures { take self.new.len self.new.bytes ≡ take self.old.len self.old.bytes ++ bytes.now }
    {
        let start = self.len;
        self.bytes[start..start + bytes.len()].copy_from_slice(bytes);
        self.len = start + bytes.len();
    }

    /// Makes room for a line, so that a write has whole lines.
    pub fn make_room(&mut self) -> io::Result<()>
        ensures { OnOk result (self.new.len + 66 ≤ ROOM) }
    {
        if NEARLY_FULL < self.len {
            self.write_out()?;
        }
        Ok(())
    }

    // Writes what is gathered. Where that fails it is not tried again.
    fn write_out(&mut self) -> io::Result<()>
        ensures { self.new.len ≡ 0 }
    {
        let len = self.len;
        self.len = 0;
        self.stream.write_all(&self.bytes[..len])
    }
}

impl<S: Write> Write for Gathered<S> {
    fn write(&mut self, buf: &[u8]) -> io::Result<usize> {
        if ROOM - self.len < buf.len() {
            self.write_out()?;
        }
        let count = buf.len().min(ROOM - self.len);
        self.put(&buf[..count]);
        Ok(count)
    }

    // As `write` is, without its count: a line is a few short pieces.
    fn write_all(&mut self, buf: &[u8]) -> io::Result<()> {
        if ROOM - self.len < buf.len() {
            self.write_out()?;
        }
        if ROOM - self.len < buf.len() {
            return self.stream.write_all(buf);
        }
        self.put(buf);
        Ok(())
    }

    fn flush(&mut self) -> io::Result<()> {
        self.write_out()?;
        self.stream.flush()
    }
}
