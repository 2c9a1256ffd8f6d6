// What the sizes and the links add to a row of the table: the terms that hold bit i.
ghost use Rattle.std.specs.Prelude.{ℕ, ◌+◌, ◌<◌, ◌≤◌, ◌^◌, ◌≡◌, length, get_or, pos, nat_abs};
ghost use Rattle.qubo.specs.Rows.{add_terms, Room};
ghost use Rattle.groups.specs.Formula.{bit_count, size_terms, cut_terms};

use crate::Groups;
use qubo::{Problem, Run};

impl Groups<'_> {
    /// Adds A times the sum over pairs of groups of (size difference)² to row i. The group of bit i differs in size
    /// from m - 1 others: that gives A (m - 1) at bit i, and -2 A at each later bit, with 2 A m more at those of its own
    /// group.
    pub(crate) fn add_sizes(&self, row: &mut [i64], i: usize)
        requires { (i < bit_count self.now.survey.meters self.now.m) × (i + length row.old ≡ bit_count self.now.survey.meters self.now.m) × ((k : ℕ) → nat_abs (get_or row.old k (pos 0)) ≤ 2 ^ 59) }
        ensures { row.new ≡ add_terms (size_terms self.now.penalty self.now.survey.meters self.now.m) i row.old }
    {
        let m = self.m;
        let later = Run {
            start: i + 1,
            step: 1,
            count: self.bits() - (i + 1),
        };
        let own = Run {
            start: i + m,
            step: m,
            count: self.survey.meters - (i / m + 1),
        };
        let twice = 2 * self.penalty;
        let less = -(twice as i64);
        let here = self.penalty * ((m - 1) as u64);
        let more = twice * (m as u64);
        qubo::add_single(row, i, i, here as i64);
        qubo::add_run(row, i, later, less);
        qubo::add_run(row, i, own, more as i64);
    }

    /// Adds what the links cut to row i: those at the meter of bit i, each at the group of bit i. None from the first
    /// on whose lower end is above that meter has an end there.
    pub(crate) fn add_cuts(&self, row: &mut [i64], i: usize)
        requires by_index { (i < bit_count self.now.survey.meters self.now.m) × (i + length row.old ≡ bit_count self.now.survey.meters self.now.m) }
        requires room { Room (2 ^ 61) (cut_terms self.now.m self.now.survey.links.now) row.old }
        ensures { row.new ≡ add_terms (cut_terms self.now.m self.now.survey.links.now) i row.old }
    {
        let m = self.m;
        let meter = i / m + 1;
        for link in self.survey.links {
            let u = link.u as usize;
            let v = link.v as usize;
            // An early return and no split: two loops would say no more.
            if meter < u {
                return;
            }
            if u == meter {
                qubo::add_unequal(row, i, i, i + (v - u) * m, link.weight as i64);
            } else if v == meter {
                qubo::add_unequal(row, i, i - (v - u) * m, i, link.weight as i64);
            }
        }
    }
}
