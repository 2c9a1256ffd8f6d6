// A second implementation of the papers' definitions (01, and 02's margin), for sites of 1 to 6 meters: straight from
// its sentences, by trying everything, with no regard to speed. It is compared with the proved
// library over random sites, so it shares no code with it. Its contracts say only what its callers need to be safe.
// A plan is one byte for each meter. Bits are one byte each.
#![tactic(auto)]

ghost use Rattle.std.specs.Prelude.{◌≤◌};

mod channels;
mod choices;
mod groups;
mod kinds;
mod layout;
mod numbers;
mod parents;
mod sites;
mod spanning;
mod trees;

use choices::Choices;
pub use kinds::Kind;
use layout::Layout;
use parents::Parents;
pub use sites::{Link, Site, Weights};
use trees::Assignment;

/// How many bits the code of a plan has room for.
pub const ROOM: usize = 128;

/// Room for the code of a plan, which takes the front of it.
pub type Code = [u8; ROOM];

/// Not refused by 18, "margin too large": "a margin from 0 to 1,000,000" (02, S-7).
pub fn allows_margin(margin: u64) -> bool {
    margin <= 1000000
}

/// Fills the list with number k of the lists of numbers 0 to base - 1: the digits of k to that base, the lowest first; with zeros where there is no such base.
pub fn list_number(k: usize, base: usize, list: &mut [u8]) {
    let mut rest = k;
    for digit in list.iter_mut() {
        *digit = (rest.checked_rem(base).unwrap_or(0) % 256) as u8;
        rest = rest.checked_div(base).unwrap_or(0);
    }
}

impl Site {
    /// How many bits there are, at most 4096, which no small site exceeds.
    pub fn bit_count(&self, kind: Kind) -> usize
        ensures { result ≤ 4096 }
    {
        kind.bits_of(self.meters(), self.links().len()).min(4096)
    }

    /// Where the bits of a tree stand.
    fn layout(&self, d: usize) -> Layout {
        Layout::new(self.meters(), self.links().len(), d)
    }

    /// A, with the margin "that is added to A in all kinds" (02, S-7).
    pub fn penalty(&self, kind: Kind, margin: u64) -> u64 {
        let own = match kind {
            Kind::Channels(_) => channels::penalty(self),
            Kind::Groups(_) => groups::penalty(self),
            Kind::Tree(_) => trees::penalty(self),
        };
        own.wrapping_add(margin)
    }

    /// The energy of an assignment.
    pub fn energy(&self, kind: Kind, margin: u64, bits: &[u8]) -> u64 {
        let a = self.penalty(kind, margin);
        match kind {
            Kind::Channels(n) => channels::energy(self, a, Choices { n, bits }),
            Kind::Groups(n) => groups::energy(self, a, Choices { n, bits }),
            Kind::Tree(d) => {
                let assignment = Assignment {
                    site: self,
                    layout: self.layout(d),
                    bits,
                };
                assignment.energy(a)
            }
        }
    }

    /// Whether the bytes are a plan.
    pub fn is_plan(&self, kind: Kind, plan: &[u8]) -> bool {
        match kind {
            Kind::Channels(n) => choices::in_range(plan, n),
            Kind::Groups(m) => groups::is_plan(plan, m),
            Kind::Tree(d) => self.parents(plan).is_plan(self.layout(d)),
        }
    }

    /// The bytes as parents.
    fn parents<'a>(&'a self, list: &'a [u8]) -> Parents<'a> {
        Parents { site: self, list }
    }

    /// A plan's weight: "its clash weight (links with both ends on one channel), its cut weight (each cut link once) or
    /// its tree's weight (the links from meters to their parents)".
    pub fn weight_of(&self, kind: Kind, plan: &[u8]) -> u64 {
        match kind {
            Kind::Channels(_) => choices::clash_weight(self, plan),
            Kind::Groups(_) => choices::cut_weight(self, plan),
            Kind::Tree(_) => self.parents(plan).weight(),
        }
    }

    /// The code of a plan, zeros behind; `None` where the bytes are no plan.
    pub fn code(&self, kind: Kind, plan: &[u8]) -> Option<Code> {
        if !self.is_plan(kind, plan) {
            return None;
        }
        let mut bits = [0; ROOM];
        match kind {
            Kind::Channels(n) | Kind::Groups(n) => choices::set_code(n, plan, &mut bits),
            Kind::Tree(d) => self.parents(plan).set_code(self.layout(d), &mut bits),
        }
        Some(bits)
    }

    /// Puts the channels that the bits are mended to into the plan. "The number mended is that of meters without exactly
    /// one bit set, counted in the bits lent."
    pub fn mend(&self, n: usize, bits: &[u8], plan: &mut [u8]) -> usize {
        let choices = Choices { n, bits };
        channels::mend(self, choices, plan);
        (1..=plan.len())
            .filter(|v| choices.bits_set(*v) != 1)
            .count()
    }

    /// The least weight of the spanning trees with no meter an end of more than d links; `None` where there is no such tree.
    pub fn best_tree(&self, d: usize) -> Option<u64> {
        spanning::best(self, d)
    }
}
