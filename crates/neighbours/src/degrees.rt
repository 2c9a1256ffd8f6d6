// The neighbours of each meter: what the squares of (sum of j over its neighbour-count bits set - all arc bits in or out
// of it) add to a row, and their sum in an assignment.
// A, a row, its number and what that bit is stay parameters, as in the rows of arcs.
ghost use Rattle.std.specs.Prelude.{ℕ, ◌+◌, ◌*◌, ◌^◌, ◌≤◌, ◌<◌, ◌≡◌, List, [], ◌∷◌, length, get_or, set, pos, nat_abs, ◌-ℤ◌, ◌*ℤ◌};
ghost use Rattle.lists.specs.Sums.{sum_to, nth};
ghost use Rattle.links.specs.Links.{is_at};
ghost use Rattle.qubo.specs.Formula.{Bits, Assignment};
ghost use Rattle.qubo.specs.Table.{coef};
ghost use Rattle.qubo.specs.Terms.{over, times};
ghost use Rattle.qubo.specs.Rows.{add_terms, RunBelow, Room};
ghost use Rattle.arcs.specs.Arcs.{arcs, arcs_end, arc_at};
ghost use Rattle.arcs.specs.Arcs as of_links;
ghost use Rattle.arcs.specs.Inner.{IsPlace, Used};
ghost use Rattle.neighbours.specs.Formula.{count_at, touching, degree_term, degree_terms, touches_of, degree_gaps};
ghost use Rattle.neighbours.specs.Inner.{numbered, degree_entries, link_run, link_part, TableRow, Roomy, gaps_from};

use crate::Neighbours;
use crate::counts::{count_meter, count_number};
use arcs::{Arcs, Place};
use links::Link;
use qubo::Run;

// Adds the factor times bit i times the sum of j over the d bits from `start` on to row i.
fn add_numbered(row: &mut [i64], i: usize, start: usize, d: usize, factor: i64)
    requires { (1 ≤ length row.old) × (d ≤ 47) × (start + d ≤ i + length row.old) × Roomy factor i row.old }
    ensures { row.new ≡ add_terms (times factor i (numbered d start) ∷ []) i row.old }
{
    // From 0: the bit goes by t, its number by t + 1.
    for t in 0..d {
        let j = (t + 1) as i64;
        qubo::add_pair(row, i, i, start + t, factor * j);
    }
}

// 2 A c: what each unit of another bit's coefficient adds to its pair with a bit of coefficient c.
fn twice_of(penalty: u64, c: i64) -> i64
    requires { (penalty ≤ 20000000) × (nat_abs c ≤ 47) }
    ensures { result ≡ pos 2 *ℤ (pos penalty *ℤ c) }
{
    2 * (penalty as i64 * c)
}

// -A c². In the square a bit of coefficient c has A c² by itself. But its row is given 2 A c times every coefficient in
// the form, so 2 A c² at the bit itself; with this added, A c² is left.
fn own_of(penalty: u64, c: i64) -> i64
    requires { (penalty ≤ 20000000) × (nat_abs c ≤ 47) }
    ensures { result ≡ pos 0 -ℤ pos penalty *ℤ c *ℤ c }
{
    -(penalty as i64 * c * c)
}

// Whether one of a link's two ends is the meter.
fn is_at(link: Link, meter: usize) -> bool
    ensures { result ≡ is_at meter link }
{
    link.u as usize == meter || link.v as usize == meter
}

// The arc bits set in or out of each meter m, in place m, in one walk of the links, whatever the bits are of which these
// are the counts; a meter's number is a byte. 16 bits hold each sum, and keep the array small on the stack.
fn gather_touches(arcs: &Arcs, used: &[u8]) -> [u16; 256]
    requires { (length arcs.now.links.now ≤ length used.now) × ((k : ℕ) → k < length arcs.now.links.now → get_or used.now k 0 ≤ 48) }
    ensures { (length result ≡ 256) × ((N D : ℕ) (x : List ℕ) → Used N D (length arcs.now.links.now) x used.now → (m : ℕ) → get_or result m 0 ≡ touches_of D (of_links.arcs arcs.now.links.now) (arc_at N D x) m) × ((m : ℕ) → get_or result m 0 ≤ 12288) }
{
    let mut sums = [0; 256];
    for (link, n) in arcs.links.iter().zip(used) {
        let both = *n as u16;
        sums[link.u as usize] += both;
        sums[link.v as usize] += both;
    }
    sums
}

// The sum of j over the bits set in a part.
fn numbers_set(part: &[u8]) -> u64
    requires { Bits part.now × (length part.now ≤ 47) }
    ensures { (result ≡ sum_to (length part.now) (λ j. j * nth part.now j)) × (result ≤ 2209) }
{
    let mut sum = 0;
    for (i, bit) in part.iter().enumerate() {
        sum += ((i + 1) as u64) * (*bit as u64);
    }
    sum
}

impl Neighbours<'_> {
    // The bits of the two arcs of link k.
    fn link_run(&self, k: usize) -> Run
        requires { k ≤ 256 }
        ensures { result ≡ link_run self.now.arcs.layout.meters self.now.arcs.layout.deepest k }
    {
        Run {
            start: self.arcs.layout.arc_start(2 * k),
            step: 1,
            count: 2 * self.arcs.layout.deepest,
        }
    }

    // Adds the factor times bit i times the bits of the two arcs of link k to row i, where the link has an end at the meter. Few
    // links have: the ends are tested first, and where the bits stand is computed for these links alone.
    fn add_link(&self, row: &mut [i64], i: usize, link: Link, k: usize, meter: usize, factor: i64)
        requires { (k ≤ 256) × RunBelow (link_run self.now.arcs.layout.meters self.now.arcs.layout.deepest k) (i + length row.old) × Room (2 ^ 61) (link_part link meter factor i (link_run self.now.arcs.layout.meters self.now.arcs.layout.deepest k)) row.old }
        ensures { row.new ≡ add_terms (link_part link meter factor i (link_run self.now.arcs.layout.meters self.now.arcs.layout.deepest k)) i row.old }
    {
        if is_at(link, meter) {
            qubo::add_run(row, i, self.link_run(k), factor);
        }
    }

    // Adds the factor times bit i times what the arc bits in or out of a meter take off its form to row i, in one walk of the
    // links from `from` on: the arc bits of those before it are below bit i, so that their pairs with it stand in other
    // rows.
    fn add_touching(&self, row: &mut [i64], i: usize, from: usize, meter: usize, factor: i64)
        requires { (arcs_end self.now.arcs.layout.meters self.now.arcs.layout.deepest (length self.now.arcs.links.now) ≤ i + length row.old) × Roomy factor i row.old × (from ≤ length self.now.arcs.links.now) × (arcs_end self.now.arcs.layout.meters self.now.arcs.layout.deepest from ≤ i) }
        ensures { row.new ≡ add_terms (times factor i (over (arcs self.now.arcs.links.now) (touching self.now.arcs.layout.meters self.now.arcs.layout.deepest meter)) ∷ []) i row.old }
    {
        let less = -factor;
        // A part of the links and no `skip`, as in arcs.
        for (k, link) in self.arcs.links[from..].iter().enumerate() {
            self.add_link(row, i, *link, from + k, meter, less);
        }
    }

    // Adds A times the square of a meter's form to row i, where bit i has the coefficient c in the form: j for the
    // meter's bit of j neighbours, -1 for an arc in or out of it. The arc bits of links before `from` are below bit i.
    fn add_degree(&self, row: &mut [i64], i: usize, penalty: u64, from: usize, meter: usize, c: i64)
        requires bounds { (1 ≤ meter) × (meter ≤ self.now.arcs.layout.meters) × (nat_abs c ≤ 47) × TableRow (3 * 2 ^ 58) self.now.arcs.layout.meters self.now.arcs.layout.deepest (length self.now.arcs.links.now) self.now.d penalty i row.old }
        requires from_in_bounds { (from ≤ length self.now.arcs.links.now) × (arcs_end self.now.arcs.layout.meters self.now.arcs.layout.deepest from ≤ i) }
        requires i_value { coef (degree_entries self.now.arcs.layout.meters self.now.arcs.layout.deepest (length self.now.arcs.links.now) self.now.d (arcs self.now.arcs.links.now) meter) i ≡ c }
        ensures { row.new ≡ add_terms (degree_term penalty self.now.arcs.layout.meters self.now.arcs.layout.deepest (length self.now.arcs.links.now) self.now.d (arcs self.now.arcs.links.now) meter ∷ []) i row.old }
    {
        let own = own_of(penalty, c);
        let twice = twice_of(penalty, c);
        let start = self.counts().count_start(meter);
        qubo::add_single(row, i, i, own);
        add_numbered(row, i, start, self.d, twice);
        self.add_touching(row, i, from, meter, twice);
    }

    /// Adds A times the sum over meters of those squares to row i. A bit of a depth is in none of them, that of an arc in
    /// those of its two ends, a neighbour-count bit in that of its meter. Link k's arcs are number 2 k and 2 k + 1: the
    /// arc bits of links before an arc's are below its bit, and all are below a neighbour-count bit.
    pub fn add_degrees(&self, row: &mut [i64], i: usize, place: Place, penalty: u64)
        requires { IsPlace self.now.arcs.layout.meters self.now.arcs.layout.deepest self.now.arcs.links.now i place × (1 ≤ self.now.d) × TableRow (2 ^ 59) self.now.arcs.layout.meters self.now.arcs.layout.deepest (length self.now.arcs.links.now) self.now.d penalty i row.old }
        ensures { row.new ≡ add_terms (degree_terms penalty self.now.arcs.layout.meters self.now.arcs.layout.deepest (length self.now.arcs.links.now) self.now.d (arcs self.now.arcs.links.now)) i row.old }
    {
        match place {
            Place::OfDepth { .. } => {}
            Place::OfArc {
                number,
                parent,
                child,
                ..
            } => {
                let k = number / 2;
                self.add_degree(row, i, penalty, k, parent, -1);
                self.add_degree(row, i, penalty, k, child, -1);
            }
            Place::Behind => {
                let all = self.arcs.links.len();
                let first = self.arcs.layout.arcs_end(all);
                let j = count_number(first, self.d, i) as i64;
                self.add_degree(row, i, penalty, all, count_meter(first, self.d, i), j);
            }
        }
    }

    // The sum over meters of the squared gaps between the sum of j over a meter's d bits set and what is counted in its place.
    fn gaps_of(&self, sums: &[u16], bits: &[u8]) -> u64
        requires { Assignment (arcs_end self.now.arcs.layout.meters self.now.arcs.layout.deepest (length self.now.arcs.links.now) + self.now.arcs.layout.meters * self.now.d) bits.now × (self.now.arcs.layout.meters < length sums.now) × ((m : ℕ) → get_or sums.now m 0 ≤ 12288) }
        ensures { (result ≡ gaps_from self.now.arcs.layout.meters self.now.arcs.layout.deepest (length self.now.arcs.links.now) self.now.d sums.now bits.now) × (result ≤ 2 ^ 33) }
    {
        let counts = self.counts();
        let mut sum = 0;
        // By number: where a meter's bits stand is reckoned, and its sum goes by it too.
        for v in 1..=self.arcs.layout.meters {
            let start = counts.count_start(v);
            let counted = numbers_set(&bits[start..start + self.d]);
            sum += onehot::gap_squared(counted, sums[v] as u64);
        }
        sum
    }

    /// Per meter (sum of j over its neighbour-count bits set - all arc bits in or out of it)².
    pub fn degree_gaps(&self, bits: &[u8], used: &[u8]) -> u64
        requires { Assignment (arcs_end self.now.arcs.layout.meters self.now.arcs.layout.deepest (length self.now.arcs.links.now) + self.now.arcs.layout.meters * self.now.d) bits.now × Used self.now.arcs.layout.meters self.now.arcs.layout.deepest (length self.now.arcs.links.now) bits.now used.now }
        ensures { (result ≡ degree_gaps self.now.arcs.layout.meters self.now.arcs.layout.deepest self.now.d (arcs self.now.arcs.links.now) (arc_at self.now.arcs.layout.meters self.now.arcs.layout.deepest bits.now) (count_at self.now.arcs.layout.meters self.now.arcs.layout.deepest (length self.now.arcs.links.now) self.now.d bits.now)) × (result ≤ 2 ^ 33) }
    {
        let sums = gather_touches(&self.arcs, used);
        self.gaps_of(&sums, bits)
    }
}
