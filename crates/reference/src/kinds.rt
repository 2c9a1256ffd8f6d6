// The kinds, with their parameters.
use crate::layout::Layout;
use crate::numbers;

/// A kind, with its parameter.
#[derive(Debug, Clone, Copy, PartialEq, Eq)]
pub enum Kind {
    /// n channels
    Channels(usize),
    /// m groups
    Groups(usize),
    /// a tree within the neighbour limit d
    Tree(usize),
}

impl Kind {
    /// The kind with a number and a parameter, for so many meters. `None` where 7 refuses it, "kind not 1..3, its
    /// parameter outside its limits, or kind 3 with N = 1": "Kind 1, channels, carries n from 1
    /// to 16; kind 2, groups, carries m from 2 to 16; kind 3, tree, carries a neighbour limit d from 1 to 47 and needs N ≥ 2."
    pub fn new(number: u64, parameter: u64, meters: usize) -> Option<Kind> {
        let size = parameter as usize;
        match (number, size) {
            (1, 1..=16) => Some(Kind::Channels(size)),
            (2, 2..=16) => Some(Kind::Groups(size)),
            (3, 1..=47) if meters >= 2 => Some(Kind::Tree(size)),
            _ => None,
        }
    }

    /// How many bits there are, for a site of so many meters and links, which need not be small.
    pub fn bits_of(self, meters: usize, links: usize) -> usize {
        match self {
            Kind::Channels(n) | Kind::Groups(n) => numbers::index_of(meters, n, 0),
            Kind::Tree(d) => Layout::new(meters, links, d).bits(),
        }
    }
}
