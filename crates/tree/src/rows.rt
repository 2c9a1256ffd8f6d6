// Rows of the table: zeros, and then the seven families of terms, one after another. What bit i is, is found once; each family then adds what it has at bit i.
ghost use Rattle.std.specs.Prelude.{◌+◌, ◌*◌, ◌≤◌, ◌^◌, ◌≡◌, length};
ghost use Rattle.qubo.specs.Table.{row_of};
ghost use Rattle.qubo.specs.Rows.{add_terms};
ghost use Rattle.arcs.specs.Arcs.{arcs_end};
ghost use Rattle.arcs.specs.Arcs as of_links;
ghost use Rattle.arcs.specs.Inner.{Row, IsPlace, weight_in};
ghost use Rattle.tree.specs.Formula.{formula_to};
ghost use Rattle.neighbours.specs.Inner.{TableRow};
ghost use Rattle.tree.specs.Inner.{depth_part, count_part, arc_part};

use arcs::{Arcs, Place};
use neighbours::Neighbours;

// Adds the families of depths.
fn add_depth_part(arcs: &Arcs, row: &mut [i64], i: usize, place: Place, penalty: u64)
    requires place { IsPlace arcs.now.layout.meters arcs.now.layout.deepest arcs.now.links.now i place }
    requires row { Row (2 ^ 58) arcs.now.layout.meters arcs.now.layout.deepest penalty (length arcs.now.links.now) i row.old }
    ensures { row.new ≡ add_terms (depth_part penalty arcs.now.layout.meters arcs.now.layout.deepest (of_links.arcs arcs.now.links.now)) i row.old }
{
    arcs.layout.add_root(row, i, penalty);
    arcs.layout.add_depths(row, i, penalty);
    arcs.add_entries(row, i, place, penalty);
}

// Adds those of neighbour counts.
fn add_count_part(neighbours: &Neighbours, row: &mut [i64], i: usize, place: Place, penalty: u64)
    requires low { 1 ≤ neighbours.now.d }
    requires place { IsPlace neighbours.now.arcs.layout.meters neighbours.now.arcs.layout.deepest neighbours.now.arcs.links.now i place }
    requires row { TableRow (2 ^ 58) neighbours.now.arcs.layout.meters neighbours.now.arcs.layout.deepest (length neighbours.now.arcs.links.now) neighbours.now.d penalty i row.old }
    ensures { row.new ≡ add_terms (count_part penalty neighbours.now.arcs.layout.meters neighbours.now.arcs.layout.deepest (length neighbours.now.arcs.links.now) neighbours.now.d (of_links.arcs neighbours.now.arcs.links.now)) i row.old }
{
    neighbours.counts().add_counts(row, i, penalty);
    neighbours.add_degrees(row, i, place, penalty);
}

// Adds those of arcs.
fn add_arc_part(arcs: &Arcs, row: &mut [i64], i: usize, place: Place, penalty: u64)
    requires place { IsPlace arcs.now.layout.meters arcs.now.layout.deepest arcs.now.links.now i place × (weight_in place ≤ 65535) }
    requires row { Row (2 ^ 58) arcs.now.layout.meters arcs.now.layout.deepest penalty (length arcs.now.links.now) i row.old }
    ensures { row.new ≡ add_terms (arc_part penalty arcs.now.layout.meters arcs.now.layout.deepest (of_links.arcs arcs.now.links.now)) i row.old }
{
    arcs.add_ends(row, i, place, penalty);
    arcs::add_weights(row, i, place);
}

/// Row i, which fills the slice, for any D.
pub fn row_into(neighbours: &Neighbours, row: &mut [i64], i: usize, penalty: u64)
    requires { (1 ≤ neighbours.now.d) × (penalty ≤ 20000000) × (i + length row.old ≡ arcs_end neighbours.now.arcs.layout.meters neighbours.now.arcs.layout.deepest (length neighbours.now.arcs.links.now) + neighbours.now.arcs.layout.meters * neighbours.now.d) × (1 ≤ length row.old) }
    ensures { row.new ≡ row_of (formula_to neighbours.now.arcs.layout.deepest penalty neighbours.now.arcs.layout.meters neighbours.now.d neighbours.now.arcs.links.now) (arcs_end neighbours.now.arcs.layout.meters neighbours.now.arcs.layout.deepest (length neighbours.now.arcs.links.now) + neighbours.now.arcs.layout.meters * neighbours.now.d) i }
{
    let place = neighbours.arcs.place_of(i);
    qubo::clear(row);
    add_depth_part(&neighbours.arcs, row, i, place, penalty);
    add_count_part(neighbours, row, i, place, penalty);
    add_arc_part(&neighbours.arcs, row, i, place, penalty);
}
