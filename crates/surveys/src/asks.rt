// Calls that read an image for what is asked. What is lent is printed after the call, so that a line shows what was
// altered too: numbers lent are 77 at first, and bytes 7.
ghost use Rattle.std.specs.Prelude.{◌≡◌, length, min};

use crate::answers::{Answer, Decoding, Signed, differing, number, write_bytes};
use crate::words::{self, MOST_BYTES, Numbers};
use plans::Ask;
use std::io;
use std::io::Write;

// How many numbers of a row are printed.
const SHOWN: usize = 12;

// So many numbers are lent for a row at most.
const MOST_NUMBERS: usize = 8192;

// What a number lent for a row is at first.
const NUMBER: i64 = 77;

/// What a byte lent for a plan or its code is at first.
pub const BYTE: u8 = 7;

/// What is lent: so many of the places, as far as there are as many.
pub fn lent<T>(places: &mut [T], count: u64) -> &mut [T]
    ensures { length result.now ≡ min count (length places.old) }
{
    let len = places.len().min(count as usize);
    &mut places[..len]
}

/// `kind K P`: the bit count, the constant and A.
pub fn show_kind(out: &mut impl Write, image: &[u8], ask: Ask) -> io::Result<()> {
    let bits = Answer(plans::bit_count(image, ask));
    let constant = Answer(plans::constant(image, ask));
    let penalty = Answer(plans::penalty(image, ask));
    write!(out, ":{bits}{constant}{penalty}")
}

/// `fill K P I COUNT`: row I, in so many places.
#[derive(Clone, Copy)]
pub struct Row {
    ask: Ask,
    index: u64,
    count: u64,
}

impl Row {
    /// From the words of a line.
    pub fn new(ask: Ask, [_, _, index, count, ..]: Numbers) -> Row {
        Row { ask, index, count }
    }

    /// The number of the row's refusal, 0 for none, and the length of the part that comes back; the same number of the
    /// call that fills other places, in how many places what the two calls leave
    /// differs, and what the first one leaves.
    // Not inlined: whoever has these places has a stack of 128 KB, which every line would pay for.
    #[inline(never)]
    pub fn show(self, out: &mut impl Write, image: &[u8]) -> io::Result<()> {
        let mut places = [NUMBER; MOST_NUMBERS];
        let mut others = [NUMBER; MOST_NUMBERS];
        let places = lent(&mut places, self.count);
        let others = lent(&mut others, self.count);
        let refusal = number(plans::row_refusal(image, self.ask, self.index, places));
        let len = plans::row(image, self.ask, self.index, places).len();
        let filled = number(plans::fill_row(image, self.ask, self.index, others));
        let different = differing(places, others);
        write!(out, ": {refusal} {len} {filled} {different}")?;
        for z in places.iter().take(SHOWN) {
            write!(out, "{}", Signed(*z))?;
        }
        Ok(())
    }
}

/// `K P BYTES COUNT`: a plan or its code, with so many bytes for the other.
#[derive(Clone, Copy)]
pub struct Coding<'a> {
    ask: Ask,
    word: &'a [u8],
    count: u64,
}

impl<'a> Coding<'a> {
    /// From a line.
    pub fn new(ask: Ask, line: &'a [u8]) -> Coding<'a> {
        let [_, _, _, count, ..] = words::numbers(line);
        Coding {
            ask,
            word: words::fourth(line),
            count,
        }
    }

    /// Of the bits given: the energy, then the weight and how many meters were repaired, and the plan.
    pub fn show_decode(self, out: &mut impl Write, image: &[u8]) -> io::Result<()> {
        let mut bits = [BYTE; MOST_BYTES];
        let mut plan = [BYTE; MOST_BYTES];
        let bits = words::put_digits(self.word, &mut bits);
        let plan = lent(&mut plan, self.count);
        let energy = Answer(plans::energy(image, self.ask, bits));
        let decoded = plans::decode(image, self.ask, bits, plan);
        let decoding = Answer(decoded.map(Decoding));
        write!(out, ":{energy}{decoding}")?;
        write_bytes(out, plan)
    }

    /// Of the plan given: the number of the refusal, 0 for none, and the bits.
    pub fn show_encode(self, out: &mut impl Write, image: &[u8]) -> io::Result<()> {
        let mut plan = [BYTE; MOST_BYTES];
        let mut bits = [BYTE; MOST_BYTES];
        let plan = words::put_digits(self.word, &mut plan);
        let bits = lent(&mut bits, self.count);
        let refusal = number(plans::encode(image, self.ask, plan, bits));
        write!(out, ": {refusal}")?;
        write_bytes(out, bits)
    }
}
