// An assignment on its way to a plan: the channel of one meter more.
ghost use Rattle.std.specs.Prelude.{ℕ, ◌+◌, ◌*◌, ◌≤◌, ◌<◌, ◌≡◌, length, get_or};
ghost use Rattle.lists.specs.Sums.{least_at};
ghost use Rattle.qubo.specs.Formula.{Assignment};
ghost use Rattle.channels.specs.Repair.{bears, heard, quietest, repair_one};

use crate::Channels;

/// The plan so far holds the channels of the first meters; the others bear their bits as they came.
#[derive(Clone, Copy)]
pub struct Repairing<'a, 'b> {
    /// What the assignment is one of.
    pub channels: Channels<'a>,
    /// The assignment.
    pub bits: &'b [u8],
    /// The plan so far.
    pub plan: &'b [u8],
    pub ghost assigned: { Assignment (channels.survey.meters * channels.n) bits.now },
}

// The channel of 1..n with the least sum, ties to the lowest.
fn least_sum(sums: &[u64], n: usize) -> usize
    requires { (1 ≤ n) × (n < length sums.now) }
    ensures { result ≡ least_at n (λ i. get_or sums.now i 0) }
{
    // `(1..=n).min_by_key(..)` was tried: no lemma of std says which item it picks, and the proof did not close; nor would its `None` ever come.
    let mut best = 1;
    for next in 2..=n {
        if sums[next] < sums[best] {
            best = next;
        }
    }
    best
}

impl Repairing<'_, '_> {
    // Adds w to the sum of each channel that meter m bears: its repaired channel where the plan has it already, else its bits as they came.
    fn add_borne(&self, sums: &mut [u64], m: usize, w: u64)
        requires meter { (1 ≤ m) × (m ≤ self.now.channels.survey.meters) }
        requires room { (length sums.old ≡ 256) × (w ≤ 65535) × ((i : ℕ) → get_or sums.old i 0 < 4294967296) }
        ensures { (length sums.new ≡ 256) × ((i : ℕ) → 1 ≤ i → i ≤ self.now.channels.n → get_or sums.new i 0 ≡ get_or sums.old i 0 + w * bears self.now.channels.n self.now.bits.now self.now.plan.now m i) × ((i : ℕ) → get_or sums.new i 0 ≤ get_or sums.old i 0 + w) }
    {
        if m <= self.plan.len() {
            sums[self.plan[m - 1] as usize] += w;
        } else {
            let start = (m - 1) * self.channels.n;
            onehot::add_part(sums, &self.bits[start..start + self.channels.n], w);
        }
    }

    // The channel on which meter m hears least: its sum is the total weight of the links of m to neighbours that bear it. A channel's number is a byte.
    // Links rise by their lower end, so those to lower neighbours stand before the first link from m up, and those to higher ones together from there on.
    fn quietest_at(&self, m: usize) -> usize
        ensures { result ≡ quietest self.now.channels.n self.now.channels.survey.links.now self.now.bits.now self.now.plan.now m }
    {
        // A local of this function: as a result by value the 2 KB were copied for each silent meter, and decoding took a quarter longer.
        let mut sums = [0; 256];
        let (below_m, from_m) = links::split_at_meter(self.channels.survey.links, m);
        for link in below_m {
            if link.v as usize == m {
                self.add_borne(&mut sums, link.u as usize, link.weight as u64);
            }
        }
        for link in from_m.iter().take_while(|link| link.u as usize == m) {
            self.add_borne(&mut sums, link.v as usize, link.weight as u64);
        }
        least_sum(&sums, self.channels.n)
    }

    /// The channel of meter m: kept, the lowest of several, or with no bit set the one on which it hears least of its neighbours.
    pub fn channel_of(&self, m: usize) -> usize
        requires { (1 ≤ m) × (m ≤ self.now.channels.survey.meters) }
        ensures { result ≡ repair_one self.now.channels.n self.now.bits.now (quietest self.now.channels.n self.now.channels.survey.links.now self.now.bits.now self.now.plan.now m) m }
    {
        let start = (m - 1) * self.channels.n;
        match onehot::lowest_set(&self.bits[start..start + self.channels.n]) {
            Some(channel) => channel,
            None => self.quietest_at(m),
        }
    }
}
