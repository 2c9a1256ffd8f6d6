// The six sums that A multiplies, in an assignment, for any D: three that look at no arc, and three that do.
ghost use Rattle.std.specs.Prelude.{◌+◌, ◌*◌, ◌≤◌, ◌^◌, ◌≡◌, length};
ghost use Rattle.qubo.specs.Formula.{Assignment};
ghost use Rattle.arcs.specs.Arcs.{arcs, arcs_end};
ghost use Rattle.arcs.specs.Inner.{Used};
ghost use Rattle.tree.specs.Formula.{bits_of};
ghost use Rattle.tree.specs.Inner.{broken_choices, broken_arcs};

use neighbours::Neighbours;

/// How far the bits are from one root, and from one depth and one number of neighbours for each meter.
pub fn broken_choices(neighbours: &Neighbours, bits: &[u8]) -> u64
    requires { Assignment (arcs_end neighbours.now.arcs.layout.meters neighbours.now.arcs.layout.deepest (length neighbours.now.arcs.links.now) + neighbours.now.arcs.layout.meters * neighbours.now.d) bits.now }
    ensures { (result ≡ broken_choices neighbours.now.arcs.layout.meters neighbours.now.arcs.layout.deepest neighbours.now.d (bits_of neighbours.now.arcs.layout.meters neighbours.now.arcs.layout.deepest (length neighbours.now.arcs.links.now) neighbours.now.d bits.now)) × (result ≤ 2 ^ 32) }
{
    let roots = neighbours.arcs.layout.root_miss(bits);
    let depths = neighbours.arcs.layout.depth_misses(bits);
    let counts = neighbours.counts().count_misses(bits);
    roots + depths + counts
}

/// How far the arcs are from those into each meter at its depth, and from as many at each meter as it has neighbours. How
/// many bits each link's arcs have set is lent.
pub fn broken_arcs(neighbours: &Neighbours, bits: &[u8], used: &[u8]) -> u64
    requires { Assignment (arcs_end neighbours.now.arcs.layout.meters neighbours.now.arcs.layout.deepest (length neighbours.now.arcs.links.now) + neighbours.now.arcs.layout.meters * neighbours.now.d) bits.now × Used neighbours.now.arcs.layout.meters neighbours.now.arcs.layout.deepest (length neighbours.now.arcs.links.now) bits.now used.now }
    ensures { (result ≡ broken_arcs neighbours.now.arcs.layout.meters neighbours.now.arcs.layout.deepest neighbours.now.d (arcs neighbours.now.arcs.links.now) (bits_of neighbours.now.arcs.layout.meters neighbours.now.arcs.layout.deepest (length neighbours.now.arcs.links.now) neighbours.now.d bits.now)) × (result ≤ 2 ^ 34) }
{
    let entries = neighbours.arcs.entry_gaps(bits, used);
    let degrees = neighbours.degree_gaps(bits, used);
    let ends = neighbours.arcs.end_misses(bits, used);
    entries + degrees + ends
}
