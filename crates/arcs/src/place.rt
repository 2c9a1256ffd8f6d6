// What a bit of a tree stands for.

/// The bit of a meter at a depth; of an arc (its number, parent, child and weight) at a depth; or one behind these.
#[derive(Clone, Copy, Debug, PartialEq, Eq)]
pub enum Place {
    OfDepth {
        meter: usize,
        depth: usize,
    },
    // Its fields stand here by themselves: an arc of the definitions has no depth, and a place is matched by case.
    OfArc {
        number: usize,
        parent: usize,
        child: usize,
        weight: u64,
        depth: usize,
    },
    // A case of its own and no None: neighbour-count bits stand there.
    Behind,
}
