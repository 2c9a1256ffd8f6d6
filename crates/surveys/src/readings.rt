// Reads an image and prints what is read.
use site::NO_LINKS;
use std::io;
use std::io::Write;

/// `image`: the number of the refusal, 0 for none, N, and every link with its weight.
pub fn show(out: &mut impl Write, image: &[u8]) -> io::Result<()> {
    let mut links = NO_LINKS;
    let reading = match site::read(image, &mut links) {
        Ok(reading) => reading,
        Err(refusal) => return write!(out, ": {}, meters {}", refusal.number(), 0),
    };
    write!(out, ": {}, meters {}", 0, reading.meters)?;
    for link in links.iter().take(reading.count) {
        write!(out, ", {}-{} {}", link.u, link.v, link.weight)?;
    }
    Ok(())
}
