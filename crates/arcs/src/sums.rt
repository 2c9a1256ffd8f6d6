// The sums of depths and arcs in an assignment. What is counted for meter v at depth t stands in the place of that depth's bit.
ghost use Rattle.std.specs.Prelude.{ℕ, pred, ◌+◌, ◌-◌, ◌*◌, ◌≤◌, ◌<◌, ◌≡◌, List, length, get_or};
ghost use Rattle.lists.specs.Sums.{sum_to, same, gap, nth};
ghost use Rattle.links.specs.Links.{weights};
ghost use Rattle.links.specs.declared.Link.{Link};
ghost use Rattle.qubo.specs.Formula.{Bits};
ghost use Rattle.arcs.specs.Arcs.{arcs, depth_bit, depths_end, arcs_end, depth_at, arc_at};
ghost use Rattle.arcs.specs.Sums.{root_miss, depth_misses, entries_of, entry_gaps, end_misses, arc_cost};
ghost use Rattle.arcs.specs.Inner.{link_set, arc_miss, Used, LinkFits, LinkAdded};

use crate::{Arcs, Layout};
use links::Link;

// 48 meters at 25 depths.
const PLACES: usize = 1200;

// Adds the bits of a part to as many counts, all in bytes, so that the loop compiles to wide byte operations.
fn add_bits(counts: &mut [u8], part: &[u8])
    requires { (length part.now ≡ length counts.old) × Bits part.now × ((i : ℕ) → i < length counts.old → get_or counts.old i 0 < 255) }
    ensures { (length counts.new ≡ length counts.old) × ((i : ℕ) → i < length counts.old → get_or counts.new i 0 ≡ get_or counts.old i 0 + get_or part.now i 0) }
{
    // By index: what an adapter of `iter_mut` wrote is not told to a proof.
    for (i, bit) in part.iter().enumerate() {
        counts[i] += *bit;
    }
}

// The squared gaps between one meter's depth bits and the arcs counted, from depth 1 on. For a bit b, which is its own
// square, (b - c)² is b + c² - 2bc; 24 of these fit in 16 bits.
fn part_gaps(part: &[u8], counts: &[u8]) -> u64
    requires { (1 ≤ length part.now) × (length part.now ≤ 25) × (length counts.now ≡ length part.now) × Bits part.now × ((t : ℕ) → 1 ≤ t → t < length part.now → get_or counts.now t 0 ≤ 48) }
    ensures { (result ≡ sum_to (pred (length part.now)) (λ t. gap (get_or part.now t 0) (get_or counts.now t 0) * gap (get_or part.now t 0) (get_or counts.now t 0))) × (result ≤ 55296) }
{
    let mut sum: u16 = 0;
    for (bit, count) in part[1..].iter().zip(&counts[1..]) {
        let b = *bit as u16;
        let c = *count as u16;
        sum += b + c * c - 2 * b * c;
    }
    sum as u64
}

// Over an arc's bits: the bit times (2 - [parent one less deep] - [child as deep]). At most 24 bits give a sum that fits
// in a byte, so that the loop compiles to wide byte operations.
fn part_misses(part: &[u8], above: &[u8], below: &[u8]) -> u64
    requires { (length part.now ≤ 24) × (length above.now ≡ length part.now) × (length below.now ≡ length part.now) × Bits part.now × Bits above.now × Bits below.now }
    ensures { (result ≡ sum_to (length part.now) (λ i. nth part.now i * (2 - (nth above.now i + nth below.now i)))) × (result ≤ 48) }
{
    let mut sum: u8 = 0;
    // By index: three slices go by it, and nested pairs of a zip are no plainer.
    for (i, bit) in part.iter().enumerate() {
        let set = above[i] + below[i];
        sum += *bit * (2 - set);
    }
    sum as u64
}

impl Layout {
    // How many bits of the two arcs of link k are set: they lie one behind the other.
    fn link_set(&self, bits: &[u8], k: usize) -> u8
        requires { (k < 256) × Bits bits.now × (arcs_end self.now.meters self.now.deepest (k + 1) ≤ length bits.now) }
        ensures { result ≡ link_set self.now.meters self.now.deepest bits.now k }
    {
        let start = self.arc_start(2 * k);
        let count = onehot::set_count(&bits[start..start + 2 * self.deepest]);
        count as u8
    }

    /// How many bits of its two arcs are set, for each of so many links in its place, and 0 in each place behind these. The sums over arcs are lent
    /// these counts, so that the bits are counted once; few links of a tree have any set, and the others are passed over.
    // The counts are lent beside the bits: a struct of both would have to hold the layout and the number of links too,
    // of which they are the counts, beside the `Arcs` that has these.
    pub fn count_used(&self, links: usize, bits: &[u8]) -> [u8; 256]
        requires { Bits bits.now × (links ≤ 256) × (arcs_end self.now.meters self.now.deepest links ≤ length bits.now) }
        ensures counts { Used self.now.meters self.now.deepest links bits.now result }
        ensures rest { (k : ℕ) → links ≤ k → get_or result k 0 ≡ 0 }
    {
        let mut used = [0; 256];
        // By index: what an adapter of `iter_mut` wrote is not told to a proof.
        for k in 0..links {
            used[k] = self.link_set(bits, k);
        }
        used
    }

    // How many depth-0 bits are set.
    fn root_count(&self, bits: &[u8]) -> usize
        requires { Bits bits.now × (depths_end self.now.meters self.now.deepest ≤ length bits.now) }
        ensures { (result ≡ sum_to self.now.meters (λ v. depth_at self.now.deepest bits.now v 0)) × (result ≤ 48) }
    {
        let mut sum = 0;
        // By number: where a meter's bits stand the layout says.
        for v in 1..=self.meters {
            sum += bits[self.depth_start(v)] as usize;
        }
        sum
    }

    /// (1 - number of depth-0 bits)².
    pub fn root_miss(&self, bits: &[u8]) -> u64
        requires { Bits bits.now × (depths_end self.now.meters self.now.deepest ≤ length bits.now) }
        ensures { (result ≡ root_miss self.now.meters (depth_at self.now.deepest bits.now)) × (result ≤ 2209) }
    {
        onehot::miss_squared(self.root_count(bits))
    }

    /// Per meter (1 - its depth bits)²: the bits of depths are one-hot choices among deepest + 1.
    pub fn depth_misses(&self, bits: &[u8]) -> u64
        requires { Bits bits.now × (depths_end self.now.meters self.now.deepest ≤ length bits.now) }
        ensures { (result ≡ depth_misses self.now.meters self.now.deepest (depth_at self.now.deepest bits.now)) × (result ≤ 106032) }
    {
        onehot::misses_of(&bits[..self.depths_end()], self.meters, self.depth_width())
    }

    // Counts an arc into its child's places, at each depth that it has.
    fn count_arc(&self, counts: &mut [u8], bits: &[u8], number: usize, child: usize)
        requires { (number < 512) × (1 ≤ child) × (child ≤ self.now.meters) × Bits bits.now × (depths_end self.now.meters self.now.deepest + number * self.now.deepest + self.now.deepest ≤ length bits.now) × (length counts.old ≡ 1200) × ((t : ℕ) → 1 ≤ t → t ≤ self.now.deepest → get_or counts.old (depth_bit self.now.deepest child t) 0 < 255) }
        ensures { (length counts.new ≡ 1200) × ((v t : ℕ) → 1 ≤ v → 1 ≤ t → t ≤ self.now.deepest → get_or counts.new (depth_bit self.now.deepest v t) 0 ≡ get_or counts.old (depth_bit self.now.deepest v t) 0 + same child v * get_or bits.now (depths_end self.now.meters self.now.deepest + number * self.now.deepest + pred t) 0) }
    {
        let first = self.depth_bit(child, 1);
        let start = self.arc_start(number);
        add_bits(
            &mut counts[first..first + self.deepest],
            &bits[start..start + self.deepest],
        );
    }

    // Counts the two arcs of link k, of whose bits n are set.
    fn count_link(&self, counts: &mut [u8], bits: &[u8], k: usize, link: Link, n: u8)
        requires { LinkFits self.now.meters self.now.deepest bits.now k link counts.old × (n ≡ link_set self.now.meters self.now.deepest bits.now k) }
        ensures { LinkAdded self.now.meters self.now.deepest bits.now k link counts.old counts.new }
    {
        if n == 0 {
            return;
        }
        self.count_arc(counts, bits, 2 * k, link.v as usize);
        self.count_arc(counts, bits, 2 * k + 1, link.u as usize);
    }

    // The squared gaps between each meter's depth bits and the arcs counted, from depth 1 on.
    fn meter_gaps(&self, bits: &[u8], counts: &[u8]) -> u64
        requires { Bits bits.now × (depths_end self.now.meters self.now.deepest ≤ length bits.now) × (length counts.now ≡ 1200) × ((v t : ℕ) → 1 ≤ v → 1 ≤ t → t ≤ self.now.deepest → get_or counts.now (depth_bit self.now.deepest v t) 0 ≤ 48) }
        ensures { (result ≡ sum_to self.now.meters (λ v. sum_to self.now.deepest (λ t. gap (depth_at self.now.deepest bits.now v t) (get_or counts.now (depth_bit self.now.deepest v t) 0) * gap (depth_at self.now.deepest bits.now v t) (get_or counts.now (depth_bit self.now.deepest v t) 0)))) × (result ≤ 2654208) }
    {
        let mut sum = 0;
        // By number, as in `root_count`.
        for v in 1..=self.meters {
            let first = self.depth_start(v);
            let end = first + self.depth_width();
            sum += part_gaps(&bits[first..end], &counts[first..end]);
        }
        sum
    }

    // Over an arc's bits: the bit times (2 - [parent one less deep] - [child as deep]).
    fn arc_misses(&self, bits: &[u8], number: usize, parent: usize, child: usize) -> u64
        requires { (number < 512) × (1 ≤ parent) × (parent ≤ self.now.meters) × (1 ≤ child) × (child ≤ self.now.meters) × Bits bits.now × (depths_end self.now.meters self.now.deepest + number * self.now.deepest + self.now.deepest ≤ length bits.now) }
        ensures { (result ≡ arc_miss self.now.meters self.now.deepest bits.now number parent child) × (result ≤ 48) }
    {
        let start = self.arc_start(number);
        let above = self.depth_start(parent);
        let below = self.depth_bit(child, 1);
        part_misses(
            &bits[start..start + self.deepest],
            &bits[above..above + self.deepest],
            &bits[below..below + self.deepest],
        )
    }

    // The same for both arcs of link k, of whose bits n are set.
    fn link_misses(&self, bits: &[u8], k: usize, link: Link, n: u8) -> u64
        requires { (k < 256) × (1 ≤ link.u) × (link.u ≤ self.now.meters) × (1 ≤ link.v) × (link.v ≤ self.now.meters) × Bits bits.now × (depths_end self.now.meters self.now.deepest + (2 * k + 1) * self.now.deepest + self.now.deepest ≤ length bits.now) × (n ≡ link_set self.now.meters self.now.deepest bits.now k) }
        ensures { (result ≡ arc_miss self.now.meters self.now.deepest bits.now (2 * k) link.u link.v + arc_miss self.now.meters self.now.deepest bits.now (2 * k + 1) link.v link.u) × (result ≤ 96) }
    {
        if n == 0 {
            return 0;
        }
        let u = link.u as usize;
        let v = link.v as usize;
        self.arc_misses(bits, 2 * k, u, v) + self.arc_misses(bits, 2 * k + 1, v, u)
    }
}

impl Arcs<'_> {
    // The arcs into each meter at each depth, in one walk of the links. A meter has at most 47 links, so each count fits in a byte.
    fn gather_entries(&self, bits: &[u8], used: &[u8]) -> [u8; PLACES]
        requires { Bits bits.now × (arcs_end self.now.layout.meters self.now.layout.deepest (length self.now.links.now) ≤ length bits.now) × Used self.now.layout.meters self.now.layout.deepest (length self.now.links.now) bits.now used.now }
        ensures { (length result ≡ 1200) × ((v t : ℕ) → 1 ≤ v → 1 ≤ t → t ≤ self.now.layout.deepest → get_or result (depth_bit self.now.layout.deepest v t) 0 ≡ entries_of (arcs self.now.links.now) (arc_at self.now.layout.meters self.now.layout.deepest bits.now) v t) }
    {
        let mut counts = [0; PLACES];
        // k numbers the link's arcs too, so used goes by it.
        for (k, link) in self.links.iter().enumerate() {
            self.layout.count_link(&mut counts, bits, k, *link, used[k]);
        }
        counts
    }

    /// Per meter and depth i ≥ 1 (its depth-i bit - depth-i arcs into it)².
    pub fn entry_gaps(&self, bits: &[u8], used: &[u8]) -> u64
        requires { Bits bits.now × (arcs_end self.now.layout.meters self.now.layout.deepest (length self.now.links.now) ≤ length bits.now) × Used self.now.layout.meters self.now.layout.deepest (length self.now.links.now) bits.now used.now }
        ensures { (result ≡ entry_gaps self.now.layout.meters self.now.layout.deepest (arcs self.now.links.now) (depth_at self.now.layout.deepest bits.now) (arc_at self.now.layout.meters self.now.layout.deepest bits.now)) × (result ≤ 2654208) }
    {
        let counts = self.gather_entries(bits, used);
        self.layout.meter_gaps(bits, &counts)
    }

    /// Per arc and depth, its bit times (2 - [parent one less deep] - [child as deep]).
    pub fn end_misses(&self, bits: &[u8], used: &[u8]) -> u64
        requires { Bits bits.now × (arcs_end self.now.layout.meters self.now.layout.deepest (length self.now.links.now) ≤ length bits.now) × Used self.now.layout.meters self.now.layout.deepest (length self.now.links.now) bits.now used.now }
        ensures { (result ≡ end_misses self.now.layout.deepest (arcs self.now.links.now) (depth_at self.now.layout.deepest bits.now) (arc_at self.now.layout.meters self.now.layout.deepest bits.now)) × (result ≤ 24576) }
    {
        let mut sum = 0;
        // k numbers the link's arcs too, so used goes by it.
        for (k, link) in self.links.iter().enumerate() {
            sum += self.layout.link_misses(bits, k, *link, used[k]);
        }
        sum
    }
}

/// The weight of every arc bit set, whatever the ends of the links are and the bits of which these are the counts.
pub fn arc_cost(links: &[Link], used: &[u8]) -> u64
    requires { (length links.now ≤ 256) × (length links.now ≤ length used.now) × ((k : ℕ) → k < length links.now → get_or used.now k 0 ≤ 48) }
    ensures { ((N D : ℕ) (x : List ℕ) (ls : List Link) → weights ls ≡ weights links.now → Used N D (length ls) x used.now → result ≡ arc_cost D (arcs ls) (arc_at N D x)) × (result ≤ 805294080) }
{
    let mut sum = 0;
    for (link, n) in links.iter().zip(used) {
        sum += (link.weight as u64) * (*n as u64);
    }
    sum
}
