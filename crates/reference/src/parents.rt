// Plans of trees: "each meter's parent, 0 for the single root; parents are linked neighbours, nobody has more than d
// neighbours in the tree, and no depth exceeds D".
use crate::layout::{Arc, Layout};
use crate::numbers;
use crate::sites::Site;

/// A list of parents for the meters of a site.
#[derive(Clone, Copy)]
pub struct Parents<'a> {
    pub site: &'a Site,
    pub list: &'a [u8],
}

impl Parents<'_> {
    /// The parent of a meter; `None` for the root, and for what is no meter.
    fn parent(self, v: usize) -> Option<usize> {
        numbers::of_meter(self.list, v).filter(|parent| *parent != 0)
    }

    /// The depth of a meter: "0 at the root and otherwise one more than the parent's". It walks up at most as many steps
    /// as there are meters; a walk that goes on is in a ring.
    fn depth(self, v: usize) -> Option<usize> {
        let mut at = v;
        for steps in 0..self.site.meters() {
            match self.parent(at) {
                Some(parent) => at = parent,
                None => return Some(steps),
            }
        }
        None
    }

    /// Whether one of u and v is the other's parent.
    fn joined(self, u: usize, v: usize) -> bool {
        self.parent(u) == Some(v) || self.parent(v) == Some(u)
    }

    /// The number of neighbours in the tree of a meter.
    fn neighbours(self, v: usize) -> usize {
        (1..=self.site.meters())
            .filter(|u| self.joined(*u, v))
            .count()
    }

    /// Whether a meter is the root or its parent is a linked neighbour.
    fn parent_fits(self, v: usize) -> bool {
        match self.parent(v) {
            Some(parent) => self.site.weight(parent, v).is_some(),
            None => true,
        }
    }

    /// Whether a meter has a parent that fits, no more than d neighbours and a depth of at most D.
    fn meter_fits(self, layout: Layout, v: usize) -> bool {
        let deepest = layout.greatest_depth();
        self.parent_fits(v)
            && self.neighbours(v) <= layout.limit
            && self.depth(v).is_some_and(|depth| depth <= deepest)
    }

    /// Whether the list is a plan.
    pub fn is_plan(self, layout: Layout) -> bool {
        let roots = self.list.iter().filter(|parent| **parent == 0).count();
        roots == 1 && (1..=self.site.meters()).all(|v| self.meter_fits(layout, v))
    }

    /// "its tree's weight (the links from meters to their parents)".
    pub fn weight(self) -> u64 {
        (1..=self.site.meters())
            .filter_map(|v| self
                .parent(v)
                .and_then(|parent| self.site.weight(parent, v)))
            .fold(0, u64::wrapping_add)
    }

    /// The arc from a meter's parent.
    fn arc_in(self, v: usize) -> Option<Arc> {
        let parent = self.parent(v)?;
        let links = self.site.links();
        let link = links.iter().position(|link| link.joins(parent, v))?;
        Some(Arc {
            link,
            back: v < parent,
        })
    }

    /// "sets each meter's depth, the arc from its parent, if any, at that depth, and its number of neighbours in the tree", of one meter.
    fn set_meter(self, layout: Layout, v: usize, bits: &mut [u8]) {
        let Some(i) = self.depth(v) else { return };
        numbers::set_bit(bits, layout.depth(v, i));
        if let Some(arc) = self.arc_in(v) {
            numbers::set_bit(bits, layout.arc(arc, i));
        }
        numbers::set_bit(bits, layout.count(v, self.neighbours(v)));
    }

    /// Sets the code of a tree.
    pub fn set_code(self, layout: Layout, bits: &mut [u8]) {
        for v in 1..=self.site.meters() {
            self.set_meter(layout, v, bits);
        }
    }
}
