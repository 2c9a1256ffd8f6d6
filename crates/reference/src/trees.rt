// Kind 3, tree: penalty and energy, by its six sums and the weights. "An arc is a link in one direction, parent first."
ghost use Rattle.std.specs.Prelude.{◌≤◌};

use crate::layout::{Arc, Layout};
use crate::numbers::{before, bit_at, count_set, gap_squared};
use crate::sites::{Link, Site};

/// "A is 1 plus the sum of all weights."
pub fn penalty(site: &Site) -> u64 {
    site.total().wrapping_add(1)
}

/// An assignment for a tree, whose bits stand as the layout says.
#[derive(Clone, Copy)]
pub struct Assignment<'a> {
    pub site: &'a Site,
    pub layout: Layout,
    pub bits: &'a [u8],
}

impl Assignment<'_> {
    /// The bit of meter v at depth i.
    fn at_depth(self, v: usize, i: usize) -> u64
        ensures { result ≤ 1 }
    {
        bit_at(self.bits, self.layout.depth(v, i))
    }

    /// The bit of an arc at depth i.
    fn arc(self, arc: Arc, i: usize) -> u64 {
        bit_at(self.bits, self.layout.arc(arc, i))
    }

    /// How many bits of the two arcs of link k are set.
    fn arcs_set(self, k: usize) -> u64 {
        count_set(self.bits, self.layout.link(k), self.layout.link_bits())
    }

    /// The depth-i arcs into a meter.
    // What this and `arcs_at` go through as one method, with a closure for what is added, was tried: it would have to require that the closure can be called.
    fn arcs_in(self, v: usize, i: usize) -> u64 {
        self.site
            .links()
            .iter()
            .enumerate()
            .filter(|(_, link)| link.has_end(v))
            .map(|(k, link)| self.arc(arc_into(k, link, v), i))
            .fold(0, u64::wrapping_add)
    }

    /// "per meter and depth i ≥ 1 (its depth-i bit - depth-i arcs into it)²", of one meter.
    fn entries(self, v: usize) -> u64 {
        (1..=self.layout.greatest_depth())
            .map(|i| gap_squared(self.at_depth(v, i), self.arcs_in(v, i)))
            .fold(0, u64::wrapping_add)
    }

    /// All arc bits in or out of a meter.
    fn arcs_at(self, v: usize) -> u64 {
        self.site
            .links()
            .iter()
            .enumerate()
            .filter(|(_, link)| link.has_end(v))
            .map(|(k, _)| self.arcs_set(k))
            .fold(0, u64::wrapping_add)
    }

    /// "sum of j over those set", of a meter's neighbour-count bits.
    fn counted(self, v: usize) -> u64 {
        (1..=self.layout.limit)
            .map(|j| (j as u64).wrapping_mul(bit_at(self.bits, self.layout.count(v, j))))
            .fold(0, u64::wrapping_add)
    }

    /// Of one meter: "(1 - its neighbour-count bits)²" and "(sum of j over those set - all arc bits in or out of it)²".
    fn count_sum(self, v: usize) -> u64 {
        let counts = count_set(self.bits, self.layout.count(v, 1), self.layout.limit);
        gap_squared(1, counts).wrapping_add(gap_squared(self.counted(v), self.arcs_at(v)))
    }

    /// "(1 - its depth bits)²", of one meter.
    fn depth_sum(self, v: usize) -> u64 {
        let layout = self.layout;
        gap_squared(1, count_set(self.bits, layout.depth(v, 0), layout.depths()))
    }

    /// The second to fifth sums, of one meter.
    fn meter_sum(self, v: usize) -> u64 {
        self.depth_sum(v)
            .wrapping_add(self.entries(v))
            .wrapping_add(self.count_sum(v))
    }

    /// "(1 - number of depth-0 bits)²".
    fn root_sum(self) -> u64 {
        let roots = (1..=self.site.meters())
            .map(|v| self.at_depth(v, 0))
            .fold(0, u64::wrapping_add);
        gap_squared(1, roots)
    }

    /// "(2 - [u at i-1] - [v at i])".
    fn missing_ends(self, u: usize, v: usize, i: usize) -> u64 {
        2 - self.at_depth(u, before(i)) - self.at_depth(v, i)
    }

    /// "per arc from u to v at depth i, its bit times (2 - [u at i-1] - [v at i])", of one arc.
    fn arc_sum(self, arc: Arc, u: usize, v: usize) -> u64 {
        (1..=self.layout.greatest_depth())
            .map(|i| self.arc(arc, i).wrapping_mul(self.missing_ends(u, v, i)))
            .fold(0, u64::wrapping_add)
    }

    /// The same, of the two arcs of link k.
    fn link_sum(self, k: usize, link: &Link) -> u64 {
        self.arc_sum(arc_into(k, link, link.v), link.u, link.v)
            .wrapping_add(self.arc_sum(arc_into(k, link, link.u), link.v, link.u))
    }

    /// The sixth sum.
    fn arc_sums(self) -> u64 {
        self.site
            .links()
            .iter()
            .enumerate()
            .map(|(k, link)| self.link_sum(k, link))
            .fold(0, u64::wrapping_add)
    }

    /// "the weight of every arc bit set", link by link.
    fn arc_weights(self) -> u64 {
        self.site
            .links()
            .iter()
            .enumerate()
            .map(|(k, link)| link.weight.wrapping_mul(self.arcs_set(k)))
            .fold(0, u64::wrapping_add)
    }

    /// "A times the sum of" the six sums, the first being "(1 - number of depth-0 bits)²", "plus the weight of every arc bit set".
    pub fn energy(self, a: u64) -> u64 {
        let of_meters = (1..=self.site.meters())
            .map(|v| self.meter_sum(v))
            .fold(0, u64::wrapping_add);
        let sums = self
            .root_sum()
            .wrapping_add(of_meters)
            .wrapping_add(self.arc_sums());
        a.wrapping_mul(sums).wrapping_add(self.arc_weights())
    }
}

/// The arc of link k into one of its ends.
fn arc_into(k: usize, link: &Link, v: usize) -> Arc {
    Arc {
        link: k,
        back: link.u == v,
    }
}
