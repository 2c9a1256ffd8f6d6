// Kind 3, tree: what its table is made for.
ghost use Rattle.std.specs.Prelude.{ℕ, ◌≤◌, ◌≡◌, List, length};

use crate::{codes, plans, rows, sums};
use arcs::{Arcs, Layout};
use links::{Link, Survey};
use neighbours::{Counts, Neighbours};
use qubo::{Decoded, Problem};

/// A relay tree over a survey in which nobody has more than d neighbours, with the penalty A.
#[derive(Clone, Copy)]
pub struct Tree<'a> {
    pub survey: Survey<'a>,
    pub d: usize,
    pub penalty: u64,
    pub ghost meters: { 2 ≤ survey.meters },
    pub ghost low: { 1 ≤ d },
    pub ghost high: { d ≤ 47 },
    pub ghost small: { penalty ≤ 20000000 },
}

impl<'a> Tree<'a> {
    ghost use Rattle.spanning.specs.Parents.{deepest};
    ghost use Rattle.links.specs.Links.{weights};
    ghost use Rattle.links.specs.declared.Link.{Link};
    ghost use Rattle.qubo.specs.Table.{constant_of};
    ghost use Rattle.tree.specs.Formula.{within_limits, penalty, bit_count, formula};

    /// The least neighbour limit.
    pub const MIN: u64 = 1;

    /// The greatest neighbour limit.
    pub const MAX: u64 = 47;

    /// The fewest meters: a single one has no neighbour, so its neighbour term can't be met.
    pub const FEWEST_METERS: u64 = 2;

    /// Whether d and the number of meters are within the limits.
    #[tactic(auto, unfolding(crate::specs::Formula::within_limits))]
    pub fn allows(meters: u64, d: u64) -> bool
        ensures { result ≡ within_limits meters d }
    {
        (Tree::MIN..=Tree::MAX).contains(&d) && Tree::FEWEST_METERS <= meters
    }

    /// A: 1 plus the sum of all weights, whatever the ends of the links are.
    #[tactic(auto, unfolding(crate::specs::Formula::penalty))]
    pub fn own_penalty(links: &[Link]) -> u64
        requires { length links.now ≤ 256 }
        ensures value { result ≡ penalty links.now }
        ensures ends { (ls : List Link) → weights ls ≡ weights links.now → result ≡ penalty ls }
    {
        1 + links::total_weight(links)
    }

    // Where the bits of depths and arcs stand, with 01's D.
    pub(crate) fn layout(meters: usize) -> Layout
        requires { meters ≤ 48 }
        ensures meters { result.meters ≡ meters }
        ensures deepest { result.deepest ≡ deepest meters }
    {
        Layout {
            meters,
            deepest: spanning::deepest(meters),
        }
    }

    /// The number of bits, with so many links.
    // D is unfolded so that a layout made here, in place of the call, is judged by the number of bits alone.
    #[tactic(auto, unfolding(spanning::specs::Parents::deepest))]
    pub fn bit_count(meters: usize, links: usize, d: usize) -> usize
        requires { (meters ≤ 48) × (links ≤ 256) × (d ≤ 47) }
        ensures { (result ≡ bit_count meters links d) × (result ≤ 15744) }
    {
        let layout = Tree::layout(meters);
        Counts { layout, links, d }.counts_end()
    }

    /// The constant, whatever the links and d are: A for the single root, and A for the depth and for the number of neighbours of each meter.
    pub fn constant_of(meters: usize, penalty: u64) -> i64
        requires { (meters ≤ 48) × (penalty ≤ 20000000) }
        ensures { (d : ℕ) (ls : List Link) → result ≡ constant_of (formula penalty meters d ls) }
    {
        let sum = penalty * (1 + 2 * (meters as u64));
        sum as i64
    }

    // The arcs among whose bits those of the tree stand.
    fn arcs(&self) -> Arcs<'a>
        ensures meters { result.layout.meters ≡ self.now.survey.meters }
        ensures deepest { result.layout.deepest ≡ deepest self.now.survey.meters }
        ensures links { result.links.now ≡ self.now.survey.links.now }
    {
        Arcs {
            layout: Tree::layout(self.survey.meters),
            links: self.survey.links,
        }
    }

    // The same, with the neighbour counts.
    fn neighbours(&self) -> Neighbours<'a>
        ensures meters { result.arcs.layout.meters ≡ self.now.survey.meters }
        ensures deepest { result.arcs.layout.deepest ≡ deepest self.now.survey.meters }
        ensures links { result.arcs.links.now ≡ self.now.survey.links.now }
        ensures d { result.d ≡ self.now.d }
    {
        Neighbours {
            arcs: self.arcs(),
            d: self.d,
        }
    }
}

impl Problem for Tree<'_> {
    ghost use Rattle.std.specs.Prelude.{length};
    ghost use Rattle.tree.specs.Formula.{bit_count};
    ghost use Rattle.tree.specs.Instance.{instance};

    ghost instance = { λ t. instance t.penalty t.survey.meters t.d t.survey.links.now };

    fn bits(&self) -> usize
        ensures value { result ≡ bit_count self.now.survey.meters (length self.now.survey.links.now) self.now.d }
        ensures most { result ≤ 15744 }
    {
        Tree::bit_count(self.survey.meters, self.survey.links.len(), self.d)
    }

    fn constant(&self) -> i64 {
        Tree::constant_of(self.survey.meters, self.penalty)
    }

    fn row_into(&self, i: usize, row: &mut [i64]) {
        rows::row_into(&self.neighbours(), row, i, self.penalty);
    }

    fn energy(&self, bits: &[u8]) -> i64 {
        let neighbours = self.neighbours();
        let links = self.survey.links;
        let used = neighbours.arcs.layout.count_used(links.len(), bits);
        let at_choices = sums::broken_choices(&neighbours, bits);
        let at_arcs = sums::broken_arcs(&neighbours, bits, &used);
        let cost = arcs::arc_cost(links, &used);
        let sum = self.penalty * (at_choices + at_arcs) + cost;
        sum as i64
    }

    fn encode(&self, plan: &[u8], bits: &mut [u8]) -> bool {
        codes::encode_plan(self.survey.meters, self.survey.links, self.d, plan, bits)
    }

    // There is a plan exactly where all sums that A multiplies are 0, and it is then read off the arcs. The sums that
    // look at no arc come first: they have few bits, and bits that are no code seldom pass them.
    fn decode(&self, bits: &[u8], plan: &mut [u8]) -> Option<Decoded> {
        let neighbours = self.neighbours();
        if sums::broken_choices(&neighbours, bits) != 0 {
            return None;
        }
        let links = self.survey.links;
        let used = neighbours.arcs.layout.count_used(links.len(), bits);
        if sums::broken_arcs(&neighbours, bits, &used) != 0 {
            return None;
        }
        codes::read_parents(&neighbours.arcs, bits, &used, plan);
        let weight = plans::tree_weight(plan, &self.survey);
        Some(Decoded {
            weight,
            repaired: 0,
        })
    }
}
