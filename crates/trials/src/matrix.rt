// A second implementation of a site, which shares nothing with `site` but what a link and a refusal are called: the
// weights in a plain matrix, 0 where there is no link.
ghost use Rattle.std.specs.Prelude.{◌<◌, ◌≤◌, IfSome};

use crate::calls::{Link, Refusal};
use crate::edits::Edit;
use reference::{Site, Weights};

/// The most meters, and the most links.
const METERS: usize = 48;

const LINKS: usize = 256;

/// The meters, and the weights, that of the link of u < v at row u and column v.
#[derive(Drop)]
pub struct Matrix {
    meters: usize,
    weights: Weights,
    ghost few: { meters ≤ 48 },
}

impl Matrix {
    /// No links, and so many meters, of which there are at most 48.
    pub fn new(meters: usize) -> Matrix {
        Matrix {
            meters: meters.min(METERS),
            weights: [[0; 50]; 50],
        }
    }

    /// How many meters there are.
    pub fn meters(&self) -> usize {
        self.meters
    }

    /// How many links there are.
    pub fn count(&self) -> usize {
        self.weights
            .iter()
            .map(|row| row.iter().filter(|weight| **weight != 0).count())
            .fold(0, usize::wrapping_add)
    }

    /// The small site with these links.
    pub fn site(&self) -> Site {
        Site::new(self.meters, &self.weights)
    }

    /// The ends u and v of a link in their order; `None` where they are ends of none in a site of that many meters.
    fn ends(&self, u: usize, v: usize) -> Option<(usize, usize)>
        ensures { IfSome result (λ ends. (ends.0 < 50) × (ends.1 < 50)) }
    {
        let least = u.min(v);
        let greatest = u.max(v);
        let are_ends = 1 <= least && least < greatest && greatest <= self.meters;
        are_ends.then_some((least, greatest))
    }

    /// Begins anew, with no links.
    fn begin(&mut self, meters: usize) -> Result<(), Refusal> {
        if meters < 1 || METERS < meters {
            return Err(Refusal::Kind);
        }
        *self = Matrix::new(meters);
        Ok(())
    }

    /// Takes the link of u and v out.
    fn remove(&mut self, u: usize, v: usize) -> Result<(), Refusal> {
        let (u, v) = self.ends(u, v).ok_or(Refusal::Ends)?;
        if self.weights[u][v] == 0 {
            return Err(Refusal::Absent);
        }
        self.weights[u][v] = 0;
        Ok(())
    }

    /// Puts the link of u and v in.
    fn add(&mut self, u: usize, v: usize, weight: u16) -> Result<(), Refusal> {
        let (u, v) = self.ends(u, v).ok_or(Refusal::Ends)?;
        if weight == 0 {
            return Err(Refusal::Weight);
        }
        if self.weights[u][v] != 0 {
            return Err(Refusal::Present);
        }
        if self.count() >= LINKS {
            return Err(Refusal::Full);
        }
        self.weights[u][v] = weight;
        Ok(())
    }

    /// Makes an edit, or gives what it is to be refused for.
    pub fn edit(&mut self, edit: Edit) -> Result<(), Refusal> {
        match edit {
            Edit::Begin { meters } => self.begin(meters),
            Edit::Remove { u, v } => self.remove(u, v),
            Edit::Add { u, v, weight } => self.add(u, v, weight),
        }
    }

    /// Whether these are the links, row by row.
    pub fn has_links(&self, links: &[Link]) -> bool {
        let mut rest = links.iter();
        for (u, row) in self.weights.iter().enumerate() {
            for (v, weight) in row.iter().enumerate() {
                if *weight == 0 {
                    continue;
                }
                let is_next = |link: &Link| {
                    (link.u as usize, link.v as usize, link.weight) == (u, v, *weight)
                };
                if !rest.next().is_some_and(is_next) {
                    return false;
                }
            }
        }
        rest.next().is_none()
    }
}
