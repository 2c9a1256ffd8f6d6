// Kind 1, channels: penalty, energy and mending.
use crate::choices::Choices;
use crate::numbers::of_meter;
use crate::sites::Site;

/// "A is 1 plus the greatest sum of link weights at one meter."
pub fn penalty(site: &Site) -> u64 {
    (1..=site.meters())
        .map(|v| site.sum_at(v))
        .max()
        .unwrap_or(0)
        .wrapping_add(1)
}

/// "A times the sum over meters of (1 - bits set at it)², plus, for each link and channel, the weight if both ends have that channel."
pub fn energy(site: &Site, a: u64, choices: Choices<'_>) -> u64 {
    a.wrapping_mul(choices.misses(site.meters()))
        .wrapping_add(choices.clash_sum(site))
}

/// How far the bits are mended.
#[derive(Clone, Copy)]
struct Mending<'a> {
    site: &'a Site,
    choices: Choices<'a>,
    /// the channels of the lower-numbered meters, which are mended
    lower: &'a [u8],
}

impl Mending<'_> {
    /// Whether neighbour u bears channel i: "Lower-numbered neighbours bear their mended channel, higher ones the bits as they came."
    fn bears(self, u: usize, i: usize) -> bool {
        match of_meter(self.lower, u) {
            Some(channel) => channel == i,
            None => self.choices.bit(u, i) == 1,
        }
    }

    /// The total weight of links of meter v to neighbours bearing channel i.
    fn heard(self, v: usize, i: usize) -> u64 {
        self.site
            .links()
            .iter()
            .filter(|link| link.has_end(v) && self.bears(link.other_end(v), i))
            .map(|link| link.weight)
            .fold(0, u64::wrapping_add)
    }

    /// "the channel with the least total weight of links to neighbours bearing it, ties to the lowest channel".
    fn quietest(self, v: usize) -> usize {
        // No kind has no channels: 0 is never given.
        (1..=self.choices.n)
            .min_by_key(|i| self.heard(v, *i))
            .unwrap_or(0)
    }

    /// What the next meter is mended to: "Just one bit set: kept. Several: the lowest channel set is kept. None: the channel with the least total weight".
    fn mended(self, v: usize) -> usize {
        (1..=self.choices.n)
            .find(|i| self.choices.bit(v, *i) == 1)
            .unwrap_or_else(|| self.quietest(v))
    }
}

/// Puts the channels that the bits are mended to into the plan, one for each meter.
pub fn mend(site: &Site, choices: Choices<'_>, plan: &mut [u8]) {
    // By index: each meter reads the part of the list that is written by then.
    for k in 0..plan.len() {
        let mending = Mending {
            site,
            choices,
            lower: &plan[..k],
        };
        let channel = mending.mended(k + 1);
        plan[k] = (channel % 256) as u8;
    }
}
