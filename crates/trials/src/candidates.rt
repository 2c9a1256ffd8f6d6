// All lists of numbers as plans, those that are none too.
use crate::assignments::{self, Least};
use crate::calls::{self, Decoded, Refusal};
use crate::cases::Case;
use crate::counts::{Counts, Subject};
use crate::slices::{LIST_LEN, List, PATTERN, front, front_mut};
use reference::{Code, Kind, ROOM};

impl Case<'_> {
    /// Whether encode gives the code, or the refusal and leaves the bits unaltered.
    fn encode_agrees(&self, list: &List, expected: Result<Code, Refusal>) -> bool {
        let mut bits = [PATTERN; ROOM];
        let lent = front_mut(&mut bits, self.lent_bits);
        let given = calls::encode(self.image, self.ask, front(list, self.lent_plan), lent);
        match (expected, given) {
            (Ok(code), Ok(())) => *front(&bits, self.bits) == *front(&code, self.bits),
            (Err(expected), Err(refusal)) => refusal == expected && bits == [PATTERN; ROOM],
            _ => false,
        }
    }

    /// Whether a plan's code is decoded to the plan, with its weight and nothing repaired.
    fn back_agrees(&self, list: &List, code: &Code, weight: u64) -> bool {
        let mut plan = [0; LIST_LEN];
        let lent = front_mut(&mut plan, self.lent_plan);
        let given = calls::decode(self.image, self.ask, front(code, self.lent_bits), lent);
        let expected = Decoded {
            weight,
            repaired: 0,
        };
        given == Ok(expected) && plan == *list
    }
}

/// Whether the energy of a plan's code is its weight, of groups twice that.
fn energy_agrees(kind: Kind, weight: u64, energy: u64) -> bool {
    match kind {
        Kind::Groups(_) => energy == weight.wrapping_mul(2),
        Kind::Channels(_) | Kind::Tree(_) => energy == weight,
    }
}

impl Case<'_> {
    /// A plan's code; gives its energy.
    fn compare_code(&self, kind: Kind, list: &List, code: &Code, counts: &mut Counts) -> u64 {
        let weight = self.site.weight_of(kind, self.plan_in(list));
        let energy = self.compare_assignment(code, counts);
        counts.compared(Subject::Codes, energy_agrees(kind, weight, energy));
        counts.compared(Subject::Codes, self.back_agrees(list, code, weight));
        if !self.small {
            self.compare_flipped(code, counts);
        }
        energy
    }

    /// A list; gives the energy of its code, where it is a plan and nothing is refused.
    pub fn compare_list(&self, list: &List, counts: &mut Counts) -> Option<u64> {
        let plan = self.plan_in(list);
        let code = self
            .kind
            .and_then(|kind| self.site.code(kind, plan))
            .ok_or(Refusal::NoPlan);
        let answer = self.answer(self.lent_plan, code.map(|_| ()));
        let expected = answer.and(code);
        counts.called(Subject::Lists, answer, self.encode_agrees(list, expected));
        let code = expected.ok()?;
        let kind = self.kind?;
        Some(self.compare_code(kind, list, &code, counts))
    }

    /// The lists are over 0 to one above the greatest number that a plan has: a parent is a meter, another number at most the parameter.
    fn base(&self) -> usize {
        let top = match self.kind {
            Some(Kind::Channels(n) | Kind::Groups(n)) => n,
            Some(Kind::Tree(_)) => self.site.meters(),
            // 0 and no Option: lists are compared of accepted kinds alone.
            None => 0,
        };
        top.wrapping_add(2)
    }

    /// All lists; gives the energies of the codes of those that are plans, all counted as below the penalty.
    pub fn compare_lists(&self, counts: &mut Counts) -> Least {
        let base = self.base();
        let meters = self.site.meters();
        let mut list = [0; LIST_LEN];
        let mut least = Least::NONE;
        for k in 0..assignments::power(base, meters) {
            reference::list_number(k, base, front_mut(&mut list, meters));
            if let Some(energy) = self.compare_list(&list, counts) {
                least.add(energy, true);
            }
        }
        least
    }
}
