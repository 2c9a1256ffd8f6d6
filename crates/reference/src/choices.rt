// `shared` and `cut`, and what is added up of each, are twins, as the papers' sentences are: one with a closure would have
// to require that it can be called.
// What channels and groups share: each meter takes one of 1..n. "Bit (v-1)·n + (i-1) is meter v on channel i."
use crate::numbers::{self, before, index_of, of_meter};
use crate::sites::{Link, Site};

/// An assignment for n channels or groups.
#[derive(Clone, Copy)]
pub struct Choices<'a> {
    pub n: usize,
    pub bits: &'a [u8],
}

impl Choices<'_> {
    /// The bit of meter v on channel i, or in group i.
    pub fn bit(self, v: usize, i: usize) -> u64 {
        numbers::bit_at(self.bits, number(self.n, v, i))
    }

    /// The bits set at a meter.
    pub fn bits_set(self, v: usize) -> u64 {
        numbers::count_set(self.bits, number(self.n, v, 1), self.n)
    }

    /// "the sum over meters of (1 - bits set at it)²".
    pub fn misses(self, meters: usize) -> u64 {
        (1..=meters)
            .map(|v| numbers::gap_squared(1, self.bits_set(v)))
            .fold(0, u64::wrapping_add)
    }

    /// How many channels both ends of a link have.
    fn shared(self, link: &Link) -> u64 {
        (1..=self.n)
            .filter(|i| self.bit(link.u, *i) == 1 && self.bit(link.v, *i) == 1)
            .count() as u64
    }

    /// How many groups just one end of a link is in.
    fn cut(self, link: &Link) -> u64 {
        (1..=self.n)
            .filter(|i| self.bit(link.u, *i) != self.bit(link.v, *i))
            .count() as u64
    }

    /// "for each link and channel, the weight if both ends have that channel".
    pub fn clash_sum(self, site: &Site) -> u64 {
        let of_link = |link: &Link| link.weight.wrapping_mul(self.shared(link));
        site.links().iter().map(of_link).fold(0, u64::wrapping_add)
    }

    /// "for each link and group, the weight if exactly one end is in it".
    pub fn cut_sum(self, site: &Site) -> u64 {
        let of_link = |link: &Link| link.weight.wrapping_mul(self.cut(link));
        site.links().iter().map(of_link).fold(0, u64::wrapping_add)
    }
}

/// The number of the bit that is meter v on channel i, or in group i.
fn number(n: usize, v: usize, i: usize) -> usize {
    index_of(before(v), n, before(i))
}

/// "Channels: 1..n each."
pub fn in_range(plan: &[u8], n: usize) -> bool {
    plan.iter().all(|i| (1..=n).contains(&usize::from(*i)))
}

/// Whether a plan has the ends of a link on different channels, or in different groups.
fn is_cut(plan: &[u8], link: &Link) -> bool {
    of_meter(plan, link.u) != of_meter(plan, link.v)
}

/// "its clash weight (links with both ends on one channel)".
pub fn clash_weight(site: &Site, plan: &[u8]) -> u64 {
    site.links()
        .iter()
        .filter(|link| !is_cut(plan, link))
        .map(|link| link.weight)
        .fold(0, u64::wrapping_add)
}

/// "its cut weight (each cut link once)".
pub fn cut_weight(site: &Site, plan: &[u8]) -> u64 {
    site.links()
        .iter()
        .filter(|link| is_cut(plan, link))
        .map(|link| link.weight)
        .fold(0, u64::wrapping_add)
}

/// Sets the code of a plan: "The code of a plan for channels or groups sets each meter's bit for its channel or group and no others."
pub fn set_code(n: usize, plan: &[u8], bits: &mut [u8]) {
    for (k, i) in plan.iter().enumerate() {
        numbers::set_bit(bits, index_of(k, n, before(usize::from(*i))));
    }
}
