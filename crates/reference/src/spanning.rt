// Spanning trees: "any N - 1 of the image's links over which each meter can be reached from every other, with no root or
// depth asked; it is within the neighbour limit when no meter is an end of more
// than d of them, and its weight is the sum of theirs".
use crate::sites::{Link, Site};

/// The meters that have been reached.
#[derive(Clone, Copy)]
struct Reached {
    // Place v is that of meter v, from 1 to 6: fixed places, as a site has.
    marks: [bool; 7],
}

impl Reached {
    /// Meter 1 alone.
    fn first() -> Reached {
        let mut marks = [false; 7];
        marks[1] = true;
        Reached { marks }
    }

    /// Whether a meter has been reached.
    fn has(&self, v: usize) -> bool {
        self.marks.get(v) == Some(&true)
    }

    /// Marks a meter.
    fn mark(&mut self, v: usize) {
        if v < self.marks.len() {
            self.marks[v] = true;
        }
    }

    /// Marks both ends of a link where one of them is marked.
    fn cross(&mut self, link: &Link) {
        if self.has(link.u) || self.has(link.v) {
            self.mark(link.u);
            self.mark(link.v);
        }
    }
}

/// The meters that can be reached from meter 1, in at most N steps.
fn reach(site: &Site) -> Reached {
    let mut reached = Reached::first();
    for _ in 0..site.meters() {
        for link in site.links() {
            reached.cross(link);
        }
    }
    reached
}

/// The weight of all the site's links, where they are a spanning tree within the neighbour limit.
fn tree_weight(site: &Site, d: usize) -> Option<u64> {
    if site.links().len() + 1 != site.meters() {
        return None;
    }
    let reached = reach(site);
    let fits = (1..=site.meters()).all(|v| reached.has(v) && site.links_at(v) <= d);
    fits.then_some(site.total())
}

/// The least weight of the spanning trees within the neighbour limit, over all subsets of the links.
pub fn best(site: &Site, d: usize) -> Option<u64> {
    (0..1u32 << site.links().len())
        .filter_map(|subset| tree_weight(&site.with_links(subset), d))
        .min()
}
