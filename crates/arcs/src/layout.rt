// Where the bits of trees stand, and what bit i is: every number of a bit of a depth or an arc, in this crate and in
// those above it, is reckoned here. First come each meter's depths 0..D, then each arc's depths 1..D.
ghost use Rattle.std.specs.Prelude.{suc, pred, true, length, ◌+◌, ◌*◌, ◌≤◌, ◌^◌, ◌≡◌};
ghost use Rattle.lists.specs.Tests.{all};
ghost use Rattle.links.specs.Links.{edge_ok, ascending};
ghost use Rattle.arcs.specs.Arcs.{depth_bit, depths_end, arcs_end};

use crate::Place;
use links::Link;

/// Where the bits of depths and arcs stand: it depends on the number of meters and on the deepest depth alone.
#[derive(Clone, Copy)]
pub struct Layout {
    pub meters: usize,
    pub deepest: usize,
    pub ghost meters_high: { meters ≤ 48 },
    pub ghost shallow: { deepest ≤ 24 },
}

/// The arcs of links between so many meters, with depths up to the deepest. The links are a graph, whatever their weights are.
#[derive(Clone, Copy)]
pub struct Arcs<'a> {
    pub layout: Layout,
    pub links: &'a [Link],
    pub ghost few: { length links.now ≤ 256 },
    pub ghost each: { all (edge_ok layout.meters) links.now ≡ true },
    pub ghost rises: { ascending links.now ≡ true },
}

impl Layout {
    /// How many depth bits each meter has.
    pub fn depth_width(&self) -> usize
        ensures { result ≡ suc self.now.deepest }
    {
        self.deepest + 1
    }

    /// Where the depth bits of meter v start: its bit of depth 0.
    pub fn depth_start(&self, v: usize) -> usize
        requires { (1 ≤ v) × (v ≤ 48) }
        ensures { (result ≡ depth_bit self.now.deepest v 0) × (result ≤ 1175) }
    {
        (v - 1) * self.depth_width()
    }

    /// The bit of meter v at a depth.
    pub fn depth_bit(&self, v: usize, depth: usize) -> usize
        requires { (1 ≤ v) × (v ≤ 48) × (depth ≤ 24) }
        ensures { (result ≡ depth_bit self.now.deepest v depth) × (result ≤ 1199) }
    {
        self.depth_start(v) + depth
    }

    /// Where the depth bits end and the bits of arcs start.
    pub fn depths_end(&self) -> usize
        ensures { (result ≡ depths_end self.now.meters self.now.deepest) × (result ≤ 1200) }
    {
        self.meters * self.depth_width()
    }

    /// Where the bits of an arc start: its bit of depth 1.
    pub fn arc_start(&self, number: usize) -> usize
        requires { number ≤ 512 }
        ensures { (result ≡ depths_end self.now.meters self.now.deepest + number * self.now.deepest) × (result ≤ 13488) }
    {
        self.depths_end() + number * self.deepest
    }

    /// The bit of an arc at a depth.
    pub fn arc_bit(&self, number: usize, depth: usize) -> usize
        requires { (number ≤ 512) × (1 ≤ depth) × (depth ≤ self.now.deepest) }
        ensures { result ≡ depths_end self.now.meters self.now.deepest + number * self.now.deepest + pred depth }
    {
        self.arc_start(number) + (depth - 1)
    }

    /// Where the bits of arcs, two for each of so many links, end.
    pub fn arcs_end(&self, links: usize) -> usize
        requires { links ≤ 256 }
        ensures { (result ≡ arcs_end self.now.meters self.now.deepest links) × (result ≤ 13488) }
    {
        self.arc_start(2 * links)
    }
}

impl Arcs<'_> {
    ghost use Rattle.arcs.specs.Inner.{IsPlace, weight_in};

    /// The place of bit i. Of a link's two arcs the one from u to v has the even number.
    pub fn place_of(&self, i: usize) -> Place
        requires { i ≤ 2 ^ 32 }
        ensures place { IsPlace self.now.layout.meters self.now.layout.deepest self.now.links.now i result }
        ensures weight { weight_in result ≤ 65535 }
    {
        let base = self.layout.depths_end();
        if i < base {
            let width = self.layout.depth_width();
            return Place::OfDepth {
                meter: i / width + 1,
                depth: i % width,
            };
        }
        if self.layout.arcs_end(self.links.len()) <= i {
            return Place::Behind;
        }
        let off = i - base;
        let number = off / self.layout.deepest;
        let depth = off % self.layout.deepest + 1;
        let link = self.links[number / 2];
        let (parent, child) = if number % 2 == 0 {
            (link.u, link.v)
        } else {
            (link.v, link.u)
        };
        Place::OfArc {
            number,
            parent: parent as usize,
            child: child as usize,
            weight: link.weight as u64,
            depth,
        }
    }
}
