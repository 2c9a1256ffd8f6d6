// What depths and arcs add to row i, family by family. The place of bit i tells which terms of a family hold it: at most two walks over the links add them.
// A stays a parameter of the rows: `Layout` and `Arcs` are made for sums too, which have no use of it.
// A row, its number and what that bit is stay parameters: a fact in a struct with the `&mut` row is not covered by the
// check, and what bit i is speaks of the links, which a struct of both would hold once more.
ghost use Rattle.std.specs.Prelude.{ℕ, pred, ◌+◌, ◌*◌, ◌≤◌, ◌<◌, ◌^◌, ◌≡◌, List, [], ◌∷◌, length, get_or, pos, nat_abs};
ghost use Rattle.links.specs.declared.Link.{Link};
ghost use Rattle.qubo.specs.Rows.{add_terms, Room};
ghost use Rattle.arcs.specs.Arcs.{arcs, depths_end, arcs_end};
ghost use Rattle.arcs.specs.Formula.{root_term, depth_terms, entry_term, entry_terms, end_terms, weight_terms};
ghost use Rattle.arcs.specs.Inner.{Row, IsPlace, weight_in, both_ends, pair_at, pairs_at, pairs_within, From, Walk, Held};

use crate::{Arcs, Layout, Place};
use links::Link;

// An end of an arc. An enum and no closure: the definitions speak of it.
#[derive(Clone, Copy, Debug, PartialEq, Eq)]
enum End {
    Parent,
    Child,
}

// Which meters are that end of a link's two arcs: of the one from u to v, and of the one back.
fn both_ends(end: End, link: Link) -> (u8, u8)
    ensures { result ≡ both_ends end link }
{
    match end {
        End::Parent => (link.u, link.v),
        End::Child => (link.v, link.u),
    }
}

impl Layout {
    // Adds the factor times bit i times the bit of an arc at a depth to row i, if its end is the meter. Few arcs have it for an
    // end: where the bit stands is computed for these alone.
    fn add_arc(
        &self,
        row: &mut [i64],
        i: usize,
        number: usize,
        depth: usize,
        end: u8,
        meter: usize,
        factor: i64,
    )
        requires { (1 ≤ length row.old) × (number ≤ 512) × (1 ≤ depth) × (depth ≤ self.now.deepest) × (depths_end self.now.meters self.now.deepest + number * self.now.deepest + pred depth < i + length row.old) × Room (2 ^ 61) (pair_at factor i (depths_end self.now.meters self.now.deepest + number * self.now.deepest + pred depth) end meter) row.old }
        ensures { row.new ≡ add_terms (pair_at factor i (depths_end self.now.meters self.now.deepest + number * self.now.deepest + pred depth) end meter) i row.old }
    {
        if end as usize == meter {
            let p = self.arc_bit(number, depth);
            qubo::add_pair(row, i, i, p, factor);
        }
    }

    /// Adds A times (1 - number of depth-0 bits)² to row i. Of each meter's depth bits this is the first.
    pub fn add_root(&self, row: &mut [i64], i: usize, penalty: u64)
        requires { Row (2 ^ 59) self.now.meters self.now.deepest penalty 0 i row.old }
        ensures { row.new ≡ add_terms (root_term penalty self.now.meters self.now.deepest ∷ []) i row.old }
    {
        let run = qubo::Run {
            start: 0,
            step: self.depth_width(),
            count: self.meters,
        };
        qubo::add_one_hot(row, i, run, penalty as i64);
    }

    /// Adds A times the sum per meter of (1 - its depth bits)² to row i: only depth bits are in such a term.
    pub fn add_depths(&self, row: &mut [i64], i: usize, penalty: u64)
        requires { Row (2 ^ 59) self.now.meters self.now.deepest penalty 0 i row.old }
        ensures { row.new ≡ add_terms (depth_terms penalty self.now.meters self.now.deepest) i row.old }
    {
        if i < self.depths_end() {
            onehot::add_one_hots(row, i, self.depth_width(), penalty);
        }
    }
}

impl Arcs<'_> {
    // Adds the factor times bit i times the bit of each arc that has the meter for that end to row i, at one depth. The walk
    // begins at link `from`: the arc bits of those before it are below bit i, so that their pairs with it stand in other
    // rows.
    fn add_arcs(
        &self,
        row: &mut [i64],
        i: usize,
        end: End,
        from: usize,
        depth: usize,
        meter: usize,
        factor: i64,
    )
        requires { Walk self.now.layout.meters self.now.layout.deepest (length self.now.links.now) i row.old × (1 ≤ depth) × (depth ≤ self.now.layout.deepest) × Room (2 ^ 61) (pairs_at end factor i self.now.layout.meters self.now.layout.deepest meter depth (arcs self.now.links.now)) row.old × From self.now.layout.meters self.now.layout.deepest (length self.now.links.now) i from }
        ensures { row.new ≡ add_terms (pairs_at end factor i self.now.layout.meters self.now.layout.deepest meter depth (arcs self.now.links.now)) i row.old }
    {
        // A part of the links and no `skip`: behind `enumerate` it was proved too, and each turn took a quarter longer.
        for (k, link) in self.links[from..].iter().enumerate() {
            let number = 2 * (from + k);
            let (there, back) = both_ends(end, *link);
            self.layout
                .add_arc(row, i, number, depth, there, meter, factor);
            self.layout
                .add_arc(row, i, number + 1, depth, back, meter, factor);
        }
    }

    // The same for the arcs of all links, where the depth has arcs, and nothing elsewhere.
    fn add_arcs_within(
        &self,
        row: &mut [i64],
        i: usize,
        end: End,
        depth: usize,
        meter: usize,
        factor: i64,
    )
        requires { Walk self.now.layout.meters self.now.layout.deepest (length self.now.links.now) i row.old × Room (2 ^ 61) (pairs_within end factor i self.now.layout.meters self.now.layout.deepest meter depth (arcs self.now.links.now)) row.old }
        ensures { row.new ≡ add_terms (pairs_within end factor i self.now.layout.meters self.now.layout.deepest meter depth (arcs self.now.links.now)) i row.old }
    {
        if 1 <= depth && depth <= self.layout.deepest {
            self.add_arcs(row, i, end, 0, depth, meter, factor);
        }
    }

    // Adds A times (depth bit of a meter - arcs into it at that depth)² to row i, where the factor is 2 A times the coefficient
    // of bit i in it, which is 1 or -1. The arc bits of links before `from` are below bit i.
    fn add_entry(
        &self,
        row: &mut [i64],
        i: usize,
        penalty: u64,
        from: usize,
        meter: usize,
        depth: usize,
        factor: i64,
    )
        requires { Row (2 ^ 59) self.now.layout.meters self.now.layout.deepest penalty (length self.now.links.now) i row.old × (1 ≤ meter) × (meter ≤ self.now.layout.meters) × (1 ≤ depth) × (depth ≤ self.now.layout.deepest) × Held penalty self.now.layout.meters self.now.layout.deepest (arcs self.now.links.now) meter depth i factor × From self.now.layout.meters self.now.layout.deepest (length self.now.links.now) i from }
        ensures { row.new ≡ add_terms (entry_term penalty self.now.layout.meters self.now.layout.deepest (arcs self.now.links.now) meter depth ∷ []) i row.old }
    {
        let less = -(penalty as i64);
        let opposite = -factor;
        let own = self.layout.depth_bit(meter, depth);
        qubo::add_single(row, i, i, less);
        qubo::add_pair(row, i, i, own, factor);
        self.add_arcs(row, i, End::Child, from, depth, meter, opposite);
    }

    /// Adds A times the sum per meter and depth from 1 on of (its depth bit - arcs into it)² to row i. A depth bit is in
    /// the term of its meter and depth, an arc's in that of its child. Link k's arcs are number 2 k and 2 k + 1.
    pub fn add_entries(&self, row: &mut [i64], i: usize, place: Place, penalty: u64)
        requires { IsPlace self.now.layout.meters self.now.layout.deepest self.now.links.now i place × Row (2 ^ 59) self.now.layout.meters self.now.layout.deepest penalty (length self.now.links.now) i row.old }
        ensures { row.new ≡ add_terms (entry_terms penalty self.now.layout.meters self.now.layout.deepest (arcs self.now.links.now)) i row.old }
    {
        let twice = (2 * penalty) as i64;
        match place {
            Place::OfDepth { meter, depth } => {
                if depth > 0 {
                    self.add_entry(row, i, penalty, 0, meter, depth, twice);
                }
            }
            Place::OfArc {
                number,
                child,
                depth,
                ..
            } => {
                let less = -twice;
                self.add_entry(row, i, penalty, number / 2, child, depth, less);
            }
            Place::Behind => {}
        }
    }

    /// Adds A times the sum per arc from u to v at depth i of its bit times (2 - [u at i-1] - [v at i]) to row i. An
    /// arc's bit has 2 A; a meter's at a depth has -A with each arc out of it one deeper, and with each into it.
    pub fn add_ends(&self, row: &mut [i64], i: usize, place: Place, penalty: u64)
        requires { IsPlace self.now.layout.meters self.now.layout.deepest self.now.links.now i place × Row (2 ^ 59) self.now.layout.meters self.now.layout.deepest penalty (length self.now.links.now) i row.old }
        ensures { row.new ≡ add_terms (end_terms penalty self.now.layout.meters self.now.layout.deepest (arcs self.now.links.now)) i row.old }
    {
        let less = -(penalty as i64);
        match place {
            Place::OfDepth { meter, depth } => {
                self.add_arcs_within(row, i, End::Parent, depth + 1, meter, less);
                self.add_arcs_within(row, i, End::Child, depth, meter, less);
            }
            Place::OfArc { .. } => {
                qubo::add_single(row, i, i, (2 * penalty) as i64);
            }
            Place::Behind => {}
        }
    }
}

/// Adds the weight of every arc bit set to row i, whatever the links are among whose bits this is the place of bit i: an arc's bit has its arc's.
// No method: so it asks for neither links nor a row that has room for their bits.
pub fn add_weights(row: &mut [i64], i: usize, place: Place)
    requires { (1 ≤ length row.old) × ((k : ℕ) → nat_abs (get_or row.old k (pos 0)) ≤ 2 ^ 59) × (weight_in place ≤ 65535) }
    ensures { (N D : ℕ) (ls : List Link) → IsPlace N D ls i place → row.new ≡ add_terms (weight_terms N D (arcs ls)) i row.old }
{
    if let Place::OfArc { weight, .. } = place {
        qubo::add_single(row, i, i, weight as i64);
    }
}
