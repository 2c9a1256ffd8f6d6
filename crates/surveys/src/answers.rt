// What the library answers, as it is printed.
use plans::{Decoded, Refusal};
use std::io::Write;
use std::{fmt, io};

/// A space and a value, or the number of a refusal.
#[derive(Clone, Copy)]
pub struct Answer<T>(pub Result<T, Refusal>);

impl<T: fmt::Display> fmt::Display for Answer<T> {
    fn fmt<W: fmt::Write>(&self, f: &mut fmt::Formatter<W>) -> fmt::Result {
        match &self.0 {
            Ok(value) => write!(f, " {value}"),
            Err(refusal) => write!(f, " refused {}", refusal.number()),
        }
    }
}

/// A space and a number; a sign is written with the space.
#[derive(Clone, Copy)]
pub struct Signed(pub i64);

impl fmt::Display for Signed {
    fn fmt<W: fmt::Write>(&self, f: &mut fmt::Formatter<W>) -> fmt::Result {
        let start = if self.0 < 0 { " -" } else { " " };
        write!(f, "{start}{}", self.0.unsigned_abs())
    }
}

/// A plan's weight and how many meters were repaired.
#[derive(Clone, Copy)]
pub struct Decoding(pub Decoded);

impl fmt::Display for Decoding {
    fn fmt<W: fmt::Write>(&self, f: &mut fmt::Formatter<W>) -> fmt::Result {
        write!(f, "{} {}", self.0.weight, self.0.repaired)
    }
}

/// The number of the refusal, 0 where there is none.
pub fn number<T: Drop>(answer: Result<T, Refusal>) -> u64 {
    match answer {
        // A number and no Option: a line of the output has the 0.
        Ok(_) => 0,
        Err(refusal) => refusal.number(),
    }
}

/// Writes a space and the bytes as digits.
pub fn write_bytes(out: &mut impl Write, bytes: &[u8]) -> io::Result<()> {
    write!(out, " ")?;
    for byte in bytes {
        write!(out, "{byte}")?;
    }
    Ok(())
}

/// In how many places two slices differ, as far as both go.
// Not by `filter` and `count`: an image took a third more instructions.
pub fn differing<T: PartialEq>(left: &[T], right: &[T]) -> usize {
    left.iter().zip(right).fold(0usize, |count, (a, b)| {
        count.wrapping_add(usize::from(a != b))
    })
}
