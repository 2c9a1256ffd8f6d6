// The bits of trees: "Bits, in order: meter v at depth 0..D (meter by meter); links in chain order, for each arc u to v
// then v to u, depths 1..D; meter v has exactly j neighbours, j = 1..d."
ghost use Rattle.std.specs.Prelude.{◌^◌, ◌<◌};

use crate::numbers::{before, index_of};

/// Where the bits of a tree stand.
#[derive(Clone, Copy)]
pub struct Layout {
    meters: usize,
    links: usize,
    /// the neighbour limit d
    pub limit: usize,
}

/// A link in one direction: its number in chain order, from 0, and whether it is the one from v to u.
#[derive(Clone, Copy)]
pub struct Arc {
    pub link: usize,
    pub back: bool,
}

impl Layout {
    /// The layout for so many meters and links and a neighbour limit.
    pub fn new(meters: usize, links: usize, limit: usize) -> Layout {
        Layout {
            meters,
            links,
            limit,
        }
    }

    /// "D is N/2 rounded down."
    pub fn greatest_depth(self) -> usize
        ensures { result < 2 ^ 63 }
    {
        self.meters / 2
    }

    /// How many depths there are, 0 among them.
    pub fn depths(self) -> usize {
        self.greatest_depth() + 1
    }

    /// How many bits a link has: each has two arcs, with D depths.
    pub fn link_bits(self) -> usize {
        self.greatest_depth() * 2
    }

    /// The number of the bit that is meter v at depth i.
    pub fn depth(self, v: usize, i: usize) -> usize {
        index_of(before(v), self.depths(), i)
    }

    /// Where the bits of link k begin, in chain order from 0.
    pub fn link(self, k: usize) -> usize {
        let depths_end = index_of(self.meters, self.depths(), 0);
        index_of(k, self.link_bits(), depths_end)
    }

    /// The number of the bit that is an arc at depth i.
    pub fn arc(self, arc: Arc, i: usize) -> usize {
        let first = self.link(arc.link);
        index_of(usize::from(arc.back), self.greatest_depth(), first).wrapping_add(before(i))
    }

    /// The number of the bit that is meter v having exactly j neighbours.
    pub fn count(self, v: usize, j: usize) -> usize {
        index_of(before(v), self.limit, self.link(self.links)).wrapping_add(before(j))
    }

    /// How many bits there are.
    pub fn bits(self) -> usize {
        index_of(self.meters, self.limit, self.link(self.links))
    }
}
