// What the lines so far leave for those after them.
use crate::command::Command;
use crate::{asks, readings};
use std::io;
use std::io::Write;

// So many bytes are lent as the image at first, and one more at most.
const IMAGE: usize = 2064;

/// The longest slice that is lent as an image.
pub const LONGEST: usize = IMAGE + 1;

/// The bytes of which the first are lent as the image, and the margin of what is asked.
#[derive(Drop)]
pub struct Session {
    // Fixed, with a length beside: bytes that are not lent for a while keep what they hold.
    bytes: [u8; LONGEST],
    lent: usize,
    margin: u64,
}

impl Session {
    /// A session with an image of zeros, of the length of an image, and no margin.
    pub fn new() -> Session {
        Session {
            bytes: [0; LONGEST],
            lent: IMAGE,
            margin: 0,
        }
    }

    /// Carries out a line, and prints it with what the library answers.
    pub fn carry_out(&mut self, out: &mut impl Write, line: &[u8]) -> io::Result<()> {
        out.write_all(line)?;
        let command = Command::parse(line, self.margin);
        let lent = self.lent.min(LONGEST);
        let image = &mut self.bytes[..lent];
        match command {
            Command::Edit(edit) => edit.show(out, image)?,
            Command::Circle(circle) => circle.show(out, image)?,
            Command::Lend(len) => self.lent = len,
            Command::Set(byte) => byte.set(image),
            Command::Try(byte) => byte.show_calls(out, image)?,
            Command::With(margin) => self.margin = margin,
            Command::Image => readings::show(out, image)?,
            Command::Kind(ask) => asks::show_kind(out, image, ask)?,
            Command::Fill(row) => row.show(out, image)?,
            Command::Decode(coding) => coding.show_decode(out, image)?,
            Command::Encode(coding) => coding.show_encode(out, image)?,
            Command::Search(search) => search.show(out, image)?,
            Command::Remark => {}
        }
        out.write_all(b"\n")
    }
}
