// Neighbour-count bits, the last ones of the table: d for each meter. Where they stand, what their one-hot penalty adds to a row, and its sum in an assignment.
ghost use Rattle.std.specs.Prelude.{length, ◌+◌, ◌-◌, ◌*◌, ◌/◌, ◌%◌, ◌^◌, ◌≤◌, ◌≡◌};
ghost use Rattle.qubo.specs.Formula.{Assignment};
ghost use Rattle.qubo.specs.Rows.{add_terms};
ghost use Rattle.onehot.specs.Choices.{misses};
ghost use Rattle.arcs.specs.Arcs.{arcs_end};
ghost use Rattle.neighbours.specs.Formula.{count_at, count_terms};
ghost use Rattle.neighbours.specs.Inner.{count_start, TableRow};

use arcs::{Arcs, Layout};

/// Where the neighbour-count bits stand: behind those of depths and of so many links' arcs, d for each meter.
#[derive(Clone, Copy)]
pub struct Counts {
    pub layout: Layout,
    pub links: usize,
    // d may be 0 in the sums: only the rows need the bound, and a type would ask it of all.
    pub d: usize,
    pub ghost few: { links ≤ 256 },
    pub ghost high: { d ≤ 47 },
}

/// The neighbours of each meter in a relay tree of these arcs: up to d, one bit for each number of them.
#[derive(Clone, Copy)]
pub struct Neighbours<'a> {
    pub arcs: Arcs<'a>,
    pub d: usize,
    pub ghost high: { d ≤ 47 },
}

/// The meter that bit i, a neighbour-count bit, is of, where the first of them is given.
pub fn count_meter(first: usize, d: usize, i: usize) -> usize
    requires { (1 ≤ d) × (first ≤ i) × (i ≤ 2 ^ 32) }
    ensures { result ≡ (i - first) / d + 1 }
{
    (i - first) / d + 1
}

/// The number of neighbours that bit i, a neighbour-count bit, stands for.
pub fn count_number(first: usize, d: usize, i: usize) -> usize
    requires { (1 ≤ d) × (first ≤ i) × (i ≤ 2 ^ 32) }
    ensures { result ≡ (i - first) % d + 1 }
{
    (i - first) % d + 1
}

impl Counts {
    /// Where the d neighbour-count bits of meter v start.
    pub fn count_start(&self, v: usize) -> usize
        requires { (1 ≤ v) × (v ≤ 49) }
        ensures { (result ≡ count_start self.now.layout.meters self.now.layout.deepest self.now.links self.now.d v) × (result ≤ 15744) }
    {
        self.layout.arcs_end(self.links) + (v - 1) * self.d
    }

    /// Where all of them end, and with them the table: where those of one more meter would start.
    pub fn counts_end(&self) -> usize
        ensures { (result ≡ arcs_end self.now.layout.meters self.now.layout.deepest self.now.links + self.now.layout.meters * self.now.d) × (result ≤ 15744) }
    {
        self.count_start(self.layout.meters + 1)
    }

    /// Adds A times the sum over meters of (1 - neighbour-count bits)² to row i. A neighbour-count bit belongs to one
    /// meter, and only that meter's square has it; no other bit is in any.
    pub fn add_counts(&self, row: &mut [i64], i: usize, penalty: u64)
        requires { (1 ≤ self.now.d) × TableRow (2 ^ 59) self.now.layout.meters self.now.layout.deepest self.now.links self.now.d penalty i row.old }
        ensures { row.new ≡ add_terms (count_terms penalty self.now.layout.meters self.now.layout.deepest self.now.links self.now.d) i row.old }
    {
        let first = self.layout.arcs_end(self.links);
        if i < first {
            return;
        }
        let meter = count_meter(first, self.d, i);
        let run = qubo::Run {
            start: self.count_start(meter),
            step: 1,
            count: self.d,
        };
        qubo::add_one_hot(row, i, run, penalty as i64);
    }

    /// The sum over meters of (1 - neighbour-count bits)²: behind the bits of depths and arcs these are one-hot choices among d.
    pub fn count_misses(&self, bits: &[u8]) -> u64
        requires { Assignment (arcs_end self.now.layout.meters self.now.layout.deepest self.now.links + self.now.layout.meters * self.now.d) bits.now }
        ensures { (result ≡ misses self.now.layout.meters self.now.d (count_at self.now.layout.meters self.now.layout.deepest self.now.links self.now.d bits.now)) × (result ≤ 106032) }
    {
        let base = self.layout.arcs_end(self.links);
        onehot::misses_of(&bits[base..], self.layout.meters, self.d)
    }
}

impl Neighbours<'_> {
    /// Where their bits stand.
    pub fn counts(&self) -> Counts
        ensures layout { result.layout ≡ self.now.arcs.layout }
        ensures links { result.links ≡ length self.now.arcs.links.now }
        ensures d { result.d ≡ self.now.d }
    {
        Counts {
            layout: self.arcs.layout,
            links: self.arcs.links.len(),
            d: self.d,
        }
    }
}
