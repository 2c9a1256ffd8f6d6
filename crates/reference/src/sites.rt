// Sites: their meters, and their links in chain order.
ghost use Rattle.std.specs.Prelude.{◌≤◌, length};

/// The most meters, and the most links between them.
const METERS: usize = 6;

const LINKS: usize = 15;

/// Weights, that of the link of u < v at row u and column v; 0 where there is no link.
pub type Weights = [[u16; 50]; 50];

/// A link of u < v.
#[derive(Debug, Clone, Copy, PartialEq, Eq)]
pub struct Link {
    pub u: usize,
    pub v: usize,
    pub weight: u64,
}

impl Link {
    /// Whether a meter is an end.
    pub fn has_end(&self, v: usize) -> bool {
        self.u == v || self.v == v
    }

    /// Whether it is the link of u and v, either way round.
    pub fn joins(&self, u: usize, v: usize) -> bool {
        self.u == u && self.v == v || self.u == v && self.v == u
    }

    /// The end that is not v.
    pub fn other_end(&self, v: usize) -> usize {
        if self.u == v { self.v } else { self.u }
    }
}

/// A site of up to six meters. Its links stand in chain order: by u, then by v.
#[derive(Clone, Copy)]
pub struct Site {
    meters: usize,
    // Fixed places, of which the first `count` are taken: a `Vec` would want an allocator in every function that makes one.
    links: [Link; LINKS],
    count: usize,
    ghost few: { count ≤ 15 },
}

impl Site {
    /// A site of so many meters, or of six where there are more, with the links of these weights between them.
    pub fn new(meters: usize, weights: &Weights) -> Site {
        let meters = meters.min(METERS);
        let mut site = Site::unlinked(meters);
        for u in 1..meters {
            for v in u + 1..=meters {
                let weight = u64::from(weights[u][v]);
                if weight != 0 {
                    site.push(Link { u, v, weight });
                }
            }
        }
        site
    }

    /// A site with no links.
    fn unlinked(meters: usize) -> Site {
        let none = Link {
            u: 0,
            v: 0,
            weight: 0,
        };
        Site {
            meters,
            links: [none; LINKS],
            count: 0,
        }
    }

    /// Adds a link behind the others, where there is room for it.
    fn push(&mut self, link: Link) {
        let k = self.count;
        if k < LINKS {
            self.links[k] = link;
            self.count = k + 1;
        }
    }

    /// How many meters there are.
    pub fn meters(&self) -> usize {
        self.meters
    }

    /// The links in chain order.
    pub fn links(&self) -> &[Link]
        ensures { length result.now ≤ 15 }
    {
        &self.links[..self.count]
    }

    /// The weight of the link of u and v, either way round; `None` where there is none.
    pub fn weight(&self, u: usize, v: usize) -> Option<u64> {
        self.links()
            .iter()
            .find(|link| link.joins(u, v))
            .map(|link| link.weight)
    }

    /// The sum of all weights.
    pub fn total(&self) -> u64 {
        self.links()
            .iter()
            .map(|link| link.weight)
            .fold(0, u64::wrapping_add)
    }

    /// The sum of link weights at one meter.
    pub fn sum_at(&self, v: usize) -> u64 {
        self.links()
            .iter()
            .filter(|link| link.has_end(v))
            .map(|link| link.weight)
            .fold(0, u64::wrapping_add)
    }

    /// Of how many links a meter is an end.
    pub fn links_at(&self, v: usize) -> usize {
        self.links().iter().filter(|link| link.has_end(v)).count()
    }

    /// The site with the links of a subset alone: link k in chain order, from 0, is in where 2^k is in the number.
    pub fn with_links(&self, subset: u32) -> Site {
        let mut kept = Site::unlinked(self.meters);
        let mut rest = subset;
        for link in self.links() {
            if rest % 2 == 1 {
                kept.push(*link);
            }
            rest /= 2;
        }
        kept
    }
}
