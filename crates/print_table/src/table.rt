// The table that an input asks for, as lines of text.
use crate::gathered::Gathered;
use plans::{Ask, Refusal};
use std::io;
use std::io::Write;

/// An input has so many bytes: an image of 2,064, and then a kind and its parameter.
pub const INPUT: usize = 2066;

// No table has more bits.
const MOST_BITS: usize = 8192;

/// A table that the library gives: its image and what is asked of it, the bit count and the constant.
#[derive(Clone, Copy)]
struct Table<'a> {
    image: &'a [u8],
    ask: Ask,
    bits: usize,
    constant: i64,
}

// The table that an input asks for, with no margin.
impl<'a> TryFrom<&'a [u8]> for Table<'a> {
    type Error = Refusal;

    fn try_from(input: &'a [u8]) -> Result<Table<'a>, Refusal> {
        let [image @ .., kind, parameter] = input else {
            return Err(Refusal::Image);
        };
        let ask = Ask {
            kind: u64::from(*kind),
            parameter: u64::from(*parameter),
            margin: 0,
        };
        let bits = plans::bit_count(image, ask)?;
        let constant = plans::constant(image, ask)?;
        Ok(Table {
            image,
            ask,
            bits,
            constant,
        })
    }
}

impl Table<'_> {
    // Row i in front of the lent places; its number k stands at the pair (i, i + k), the first at bit i alone.
    fn row<'b>(&self, i: u64, places: &'b mut [i64]) -> &'b mut [i64] {
        plans::row(self.image, self.ask, i, places)
    }

    // The head and the lines of all rows, one row after another: the whole table is never held.
    fn write(&self, out: &mut Gathered<impl Write>) -> io::Result<()> {
        writeln!(out, "Q {} {}", self.bits, self.constant)?;
        let mut places = [0i64; MOST_BITS];
        for i in 0..self.bits as u64 {
            write_row(out, i, self.row(i, &mut places))?;
        }
        Ok(())
    }
}

// A line for each number of row i that is not 0.
fn write_row(out: &mut Gathered<impl Write>, i: u64, row: &[i64]) -> io::Result<()> {
    let mut digits = itoa::Buffer::new();
    let start = digits.format(i);
    for (j, z) in (i..).zip(row) {
        if *z != 0 {
            out.make_room()?;
            write_entry(out, start, j, *z)?;
        }
    }
    Ok(())
}

// The line `i j value`, of which the first number is given. `writeln!(out, "{i} {j} {z}")` was tried: a table of 1.9 million lines took twice the time.
fn write_entry(out: &mut impl Write, start: &str, j: u64, z: i64) -> io::Result<()> {
    let mut digits = itoa::Buffer::new();
    out.write_all(start.as_bytes())?;
    out.write_all(b" ")?;
    out.write_all(digits.format(j).as_bytes())?;
    out.write_all(b" ")?;
    out.write_all(digits.format(z).as_bytes())?;
    out.write_all(b"\n")
}

/// Writes the table that an input asks for, or the refusal.
pub fn write_answer(out: &mut Gathered<impl Write>, input: &[u8]) -> io::Result<()> {
    match Table::try_from(input) {
        Ok(table) => table.write(out),
        Err(refusal) => writeln!(out, "refused {}", refusal.number()),
    }
}
