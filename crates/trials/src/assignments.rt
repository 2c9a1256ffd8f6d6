// Energies and decoded plans of assignments. The bits behind those of the case are 0.
use crate::Run;
use crate::calls::{self, Decoded, Refusal};
use crate::cases::Case;
use crate::counts::{Counts, Subject};
use crate::draws::Draws;
use crate::slices::{LIST_LEN, List, PATTERN, front, front_mut};
use reference::{Code, Kind, ROOM};

/// How many assignments of a larger case are drawn.
const DRAWN: usize = 40;

/// The least of some energies, how many have it, and how many are below the penalty.
#[derive(Clone, Copy)]
pub struct Least {
    pub energy: Option<u64>,
    pub count: u64,
    pub below: u64,
}

impl Least {
    /// Of no energies.
    pub const NONE: Least = Least {
        energy: None,
        count: 0,
        below: 0,
    };

    /// One energy more, and whether it is below the penalty.
    pub fn add(&mut self, energy: u64, below: bool) {
        self.below = self.below.wrapping_add(u64::from(below));
        if self.energy == Some(energy) {
            self.count = self.count.wrapping_add(1);
        } else if self.energy.is_none_or(|least| energy < least) {
            self.energy = Some(energy);
            self.count = 1;
        }
    }
}

impl Case<'_> {
    /// Channels: plan, weight and number repaired as the reference says, and no more together than the energy.
    fn mend_agrees(&self, n: usize, bits: &Code, plan: &List, given: Decoded, energy: u64) -> bool {
        let mut expected = [PATTERN; LIST_LEN];
        let mended = front_mut(&mut expected, self.site.meters());
        let repaired = self.site.mend(n, bits, mended) as u64;
        let weight = self
            .site
            .weight_of(Kind::Channels(n), self.plan_in(&expected));
        weight.wrapping_add(repaired) <= energy
            && given == Decoded { weight, repaired }
            && *plan == expected
    }

    /// Groups and trees: the plan is one whose code the bits are, with its weight and 0 repaired.
    fn code_agrees(&self, kind: Kind, bits: &Code, plan: &List, given: Decoded) -> bool {
        let plan = self.plan_in(plan);
        let weight = self.site.weight_of(kind, plan);
        given
            == Decoded {
                weight,
                repaired: 0,
            }
            && self.site.code(kind, plan) == Some(*bits)
    }

    /// The last refusals of decoding: a value that no bit has, and no plan, which groups and trees have below the penalty.
    fn decodable(&self, energy: u64) -> Result<(), Refusal> {
        self.unflawed()?;
        match self.kind {
            Some(Kind::Groups(_) | Kind::Tree(_)) if self.penalty <= energy => Err(Refusal::NoPlan),
            _ => Ok(()),
        }
    }

    /// Whether a plan that was given is that of the bits.
    fn plan_agrees(&self, bits: &Code, energy: u64, plan: &List, given: Decoded) -> bool {
        match self.kind {
            Some(Kind::Channels(n)) => self.mend_agrees(n, bits, plan, given, energy),
            Some(kind) => self.code_agrees(kind, bits, plan, given),
            None => false,
        }
    }

    /// Whether decode gives the plan, or the refusal and leaves the plan unaltered.
    // Reads like `encode_agrees`, but for what is lent and what an answer has: generic in both it would be longer.
    fn decode_agrees(&self, bits: &Code, energy: u64, expected: Result<(), Refusal>) -> bool {
        let mut plan = [PATTERN; LIST_LEN];
        let lent = front_mut(&mut plan, self.lent_plan);
        let given = calls::decode(self.image, self.ask, front(bits, self.lent_bits), lent);
        match (expected, given) {
            (Ok(()), Ok(given)) => self.plan_agrees(bits, energy, &plan, given),
            (Err(expected), Err(refusal)) => refusal == expected && plan == [PATTERN; LIST_LEN],
            _ => false,
        }
    }

    /// One assignment; gives its energy.
    pub fn compare_assignment(&self, bits: &Code, counts: &mut Counts) -> u64 {
        let energy = self.energy_of(bits);
        let expected = self.answer(self.site.meters(), self.unflawed());
        let given = calls::energy(self.image, self.ask, front(bits, self.lent_bits));
        counts.called(
            Subject::Energies,
            expected,
            given == expected.map(|()| energy.cast_signed()),
        );
        let expected = self.answer(self.lent_plan, self.decodable(energy));
        counts.called(
            Subject::Decoded,
            expected,
            self.decode_agrees(bits, energy, expected),
        );
        energy
    }
}

/// Assignment number k: bit i is digit i of k to the base 2.
fn bits_of(k: usize) -> Code {
    let mut bits = [0; ROOM];
    reference::list_number(k, 2, front_mut(&mut bits, 32));
    bits
}

/// Draws the first n bits.
pub fn draw_bits(n: usize, draws: &mut Draws) -> Code {
    let mut bits = [0; ROOM];
    for bit in front_mut(&mut bits, n) {
        *bit = draws.below(2) as u8;
    }
    bits
}

/// base^n, for small numbers.
pub fn power(base: usize, n: usize) -> usize {
    // `wrapping_pow` takes a u32: that n fits one would have to be tested first.
    (0..n).fold(1, |power, _| power.wrapping_mul(base))
}

impl Case<'_> {
    /// Every assignment.
    pub fn compare_all(&self, counts: &mut Counts) -> Least {
        let mut least = Least::NONE;
        for k in 0..power(2, self.bits) {
            let energy = self.compare_assignment(&bits_of(k), counts);
            least.add(energy, energy < self.penalty);
        }
        least
    }

    /// Random assignments.
    pub fn compare_some(&self, run: &mut Run) {
        for _ in 0..DRAWN {
            let bits = draw_bits(self.bits, &mut run.draws);
            self.compare_assignment(&bits, &mut run.counts);
        }
    }

    /// An assignment with each one of its bits flipped.
    pub fn compare_flipped(&self, bits: &Code, counts: &mut Counts) {
        // By index: each assignment differs from the others at one place.
        for i in 0..self.bits.min(ROOM) {
            let mut other = *bits;
            other[i] = u8::from(bits[i] == 0);
            self.compare_assignment(&other, counts);
        }
    }
}
