// Tries all plans or all assignments, and finds the least energy.
ghost use Rattle.std.specs.Prelude.{◌≤◌};

use crate::answers::Signed;
use crate::asks::{BYTE, lent};
use crate::words::{MOST_BYTES, Numbers};
use plans::{Ask, Refusal};
use std::io;
use std::io::Write;

// So many are tried at most.
const MOST_TRIED: u64 = 100000;

/// What is tried: plans, which are coded, or assignments, which are decoded.
#[derive(Debug, Clone, Copy, PartialEq, Eq)]
pub enum Candidates {
    /// All of so many bytes.
    Plans,
    /// All of so many bits.
    Assignments,
}

/// `plans K P BYTES BITS TOP COUNT`: all plans of so many bytes, each 0 to TOP, of which there are COUNT. `minimum` with the same numbers: all assignments.
#[derive(Clone, Copy)]
pub struct Search {
    candidates: Candidates,
    ask: Ask,
    bytes: u64,
    bits: u64,
    base: u64,
    count: u64,
    ghost some_digit: { 1 ≤ base },
    ghost one_digit: { base ≤ 10 },
}

impl Search {
    /// From the words of a line; above 100,000 candidates the others are left out.
    pub fn new(candidates: Candidates, ask: Ask, numbers: Numbers) -> Search {
        let [_, _, bytes, bits, top, count] = numbers;
        Search {
            candidates,
            ask,
            bytes,
            bits,
            base: top % 10 + 1,
            count: count.min(MOST_TRIED),
        }
    }

    // Sets the bytes to as many digits of a number, the last digit last.
    fn put_digits(&self, bytes: &mut [u8], number: u64) {
        let mut rest = number;
        for byte in bytes.iter_mut().rev() {
            *byte = (rest % self.base) as u8;
            rest /= self.base;
        }
    }

    // Codes the plan, or decodes the bits, that have the digits of a number.
    fn try_one(
        &self,
        image: &[u8],
        plan: &mut [u8],
        bits: &mut [u8],
        number: u64,
    ) -> Result<(), Refusal> {
        // Two cases, both written here: a closure for each is no shorter.
        match self.candidates {
            Candidates::Plans => {
                self.put_digits(plan, number);
                plans::encode(image, self.ask, plan, bits)
            }
            Candidates::Assignments => {
                self.put_digits(bits, number);
                plans::decode(image, self.ask, bits, plan).map(|_| ())
            }
        }
    }

    /// Tries them: how many there are, how many are plans, how many are refused by 12, and the least energy. Bits that a
    /// refusal left as they were are no code (7 is no bit) or that of an earlier plan.
    pub fn show(&self, out: &mut impl Write, image: &[u8]) -> io::Result<()> {
        let mut plan = [BYTE; MOST_BYTES];
        let mut bits = [BYTE; MOST_BYTES];
        let plan = lent(&mut plan, self.bytes);
        let bits = lent(&mut bits, self.bits);
        let mut accepted = 0u64;
        let mut refused = 0u64;
        let mut least: Option<i64> = None;
        for k in 0..self.count {
            match self.try_one(image, plan, bits, k) {
                Ok(()) => accepted += 1,
                Err(Refusal::NoPlan) => refused += 1,
                Err(_) => {}
            }
            if let Ok(energy) = plans::energy(image, self.ask, bits) {
                least = Some(least.map_or(energy, |least| least.min(energy)));
            }
        }
        write!(
            out,
            ": of {} plans {accepted}, give 12 {refused}",
            self.count
        )?;
        match least {
            Some(energy) => write!(out, ", least energy{}", Signed(energy)),
            None => Ok(()),
        }
    }
}
