// The code of a plan, and the parents that an assignment's arcs give.
ghost use Rattle.std.specs.Prelude.{ℕ, ◌+◌, ◌*◌, ◌≤◌, ◌<◌, true, cond, ◌≡◌, length, get_or, take};
ghost use Rattle.links.specs.Survey.{IsGraph};
ghost use Rattle.qubo.specs.Formula.{Bits};
ghost use Rattle.onehot.specs.Choices.{code};
ghost use Rattle.spanning.specs.Parents as parents;
ghost use Rattle.arcs.specs.Arcs.{Arc};
ghost use Rattle.arcs.specs.Inner.{Used};
ghost use Rattle.tree.specs.Formula.{bit_count};
ghost use Rattle.tree.specs.Plans.{depth_choices, arc_choice, arc_choices, count_choices, is_plan, code_of};
ghost use Rattle.tree.specs.Decoding.{candidate_to};
ghost use Rattle.tree.specs.Inner.{placed, set_from, added, Readable};

use crate::{Tree, plans};
use arcs::Arcs;
use links::Link;

// Which of its bits the arc from u to v has set, from 1: that of the depth of v where u is its parent, else none.
// The bits of depths are lent, since they are found once for each meter.
// 0 and no Option: the code of choices takes bytes in which 0 sets no bit.
// What is promised is of each arc with these ends, whatever its number and weight are.
fn arc_choice(plan: &[u8], depths: &[u8], u: u8, v: u8) -> u8
    requires { (1 ≤ v) × (v ≤ length plan.now) × (depths.now ≡ depth_choices (length plan.now) plan.now) }
    ensures { (a : Arc) → a.parent ≡ u → a.child ≡ v → result ≡ arc_choice (length plan.now) plan.now a }
{
    if !plans::is_parent(plan, u, v) {
        return 0;
    }
    depths[(v as usize) - 1].saturating_sub(1)
}

// Which of its bits each arc has set: for each link that of u to v, then that of v to u.
// Fixed places, cut by the caller: the library has no heap.
fn arc_choices(arcs: &Arcs, plan: &[u8], depths: &[u8]) -> [u8; 512]
    requires { (length plan.now ≡ arcs.now.layout.meters) × (depths.now ≡ depth_choices (length plan.now) plan.now) }
    ensures { (length result ≡ 512) × (take (2 * length arcs.now.links.now) result ≡ arc_choices (length plan.now) arcs.now.links.now plan.now) }
{
    let mut choices = [0; 512];
    // k numbers the link's arcs, so their choices go by it.
    for (k, link) in arcs.links.iter().enumerate() {
        let at = 2 * k;
        choices[at] = arc_choice(plan, depths, link.u, link.v);
        choices[at + 1] = arc_choice(plan, depths, link.v, link.u);
    }
    choices
}

// Which of its count bits each meter has set: its number of neighbours.
// Fixed places, cut by the caller: the library has no heap.
fn neighbour_choices(plan: &[u8]) -> [u8; 256]
    requires { length plan.now ≤ 48 }
    ensures { (length result ≡ 256) × (take (length plan.now) result ≡ count_choices (length plan.now) plan.now) }
{
    let children = onehot::count_choices(plan);
    let mut choices = [0; 256];
    // By index: what an adapter of `iter_mut` wrote is not told to a proof.
    for v in 0..plan.len() {
        choices[v] = plans::neighbours_at(&children, plan, v + 1);
    }
    choices
}

// Puts the code of choices, n bits for each, in place of the bits from `start` on.
fn encode_part(choices: &[u8], n: usize, start: usize, bits: &mut [u8])
    requires { ((v : ℕ) → v < length choices.now → get_or choices.now v 0 ≤ n) × (start + length choices.now * n ≤ length bits.old) }
    ensures { bits.new ≡ placed start (code n choices.now) bits.old }
{
    let end = start + choices.len() * n;
    onehot::encode(choices, choices.len(), n, &mut bits[start..end]);
}

// The code of a plan: depths, whose bits are lent, arcs and numbers of neighbours.
fn encode(arcs: &Arcs, d: usize, plan: &[u8], depths: &[u8], bits: &mut [u8])
    requires deepest { arcs.now.layout.deepest ≡ parents.deepest arcs.now.layout.meters }
    requires plan { is_plan arcs.now.layout.meters d arcs.now.links.now plan.now ≡ true }
    requires depths { depths.now ≡ depth_choices arcs.now.layout.meters plan.now }
    requires bits { length bits.old ≡ bit_count arcs.now.layout.meters (length arcs.now.links.now) d }
    ensures { bits.new ≡ code_of arcs.now.layout.meters d arcs.now.links.now plan.now }
{
    let layout = &arcs.layout;
    let links = arcs.links.len();
    let chosen = arc_choices(arcs, plan, depths);
    let counts = neighbour_choices(plan);
    encode_part(depths, layout.depth_width(), 0, bits);
    encode_part(
        &chosen[..2 * links],
        layout.deepest,
        layout.depths_end(),
        bits,
    );
    encode_part(&counts[..layout.meters], d, layout.arcs_end(links), bits);
}

/// Whether the bytes are a plan for any limit d, whatever the weights are: parents that make a tree within the limit,
/// with no depth over D. Where they are, the bits are then its code.
// Depths take a walk up from each meter, so they are found once for the test and the code.
pub fn encode_plan(meters: usize, links: &[Link], d: usize, plan: &[u8], bits: &mut [u8]) -> bool
    requires graph { IsGraph meters links.now }
    requires bits { length bits.old ≡ bit_count meters (length links.now) d }
    ensures plan { result ≡ is_plan meters d links.now plan.now }
    ensures bits { bits.new ≡ cond (is_plan meters d links.now plan.now) (code_of meters d links.now plan.now) bits.old }
{
    let arcs = Arcs {
        layout: Tree::layout(meters),
        links,
    };
    let Some(depths) = plans::plan_depths(&arcs, d, plan) else {
        return false;
    };
    encode(&arcs, d, plan, &depths[..meters], bits);
    true
}

// Adds the parent u of an arc to the entry of its child v, once for each of the arc's bits that is set; they are the D bits from `start` on.
#[tactic(auto, using(crate::proofs::ReadParents::parent_once))]
fn read_arc(bits: &[u8], start: usize, deepest: usize, u: u8, v: u8, plan: &mut [u8])
    requires bits { Bits bits.now × (deepest ≤ 24) × (start + deepest ≤ length bits.now) × (set_from bits.now start deepest ≤ 1) }
    requires u_bound { (u ≤ 48) × (1 ≤ v) × (v ≤ length plan.old) × ((k : ℕ) → get_or plan.old k 0 ≤ 48) }
    ensures { plan.new ≡ added v (set_from bits.now start deepest * u) plan.old }
{
    let end = start + deepest;
    let count = onehot::set_count(&bits[start..end]);
    let at = (v as usize) - 1;
    let sum = (plan[at] as usize) + count * (u as usize);
    plan[at] = sum as u8;
}

// Adds the parents that the two arcs of a link give; their bits lie one behind the other from `start` on, and n of them
// are set. Few links are in a tree: most have none.
fn read_link(bits: &[u8], start: usize, deepest: usize, link: &Link, n: u8, plan: &mut [u8])
    requires bits { Bits bits.now × (deepest ≤ 24) × (start + deepest + deepest ≤ length bits.now) × (set_from bits.now start deepest ≤ 1) × (set_from bits.now (start + deepest) deepest ≤ 1) × (n ≡ set_from bits.now start deepest + set_from bits.now (start + deepest) deepest) }
    requires ends { (1 ≤ link.now.u) × (link.now.u < link.now.v) × (link.now.v ≤ 48) × (link.now.v ≤ length plan.old) × ((k : ℕ) → get_or plan.old k 0 ≤ 48) × ((k : ℕ) → get_or (added link.now.v (set_from bits.now start deepest * link.now.u) plan.old) k 0 ≤ 48) }
    ensures { plan.new ≡ added link.now.u (set_from bits.now (start + deepest) deepest * link.now.v) (added link.now.v (set_from bits.now start deepest * link.now.u) plan.old) }
{
    if n == 0 {
        return;
    }
    let middle = start + deepest;
    read_arc(bits, start, deepest, link.u, link.v, plan);
    read_arc(bits, middle, deepest, link.v, link.u, plan);
}

/// The parents read off the arcs, where no meter has more than one arc set into it. How many bits each link's arcs have set is lent.
pub fn read_parents(arcs: &Arcs, bits: &[u8], used: &[u8], plan: &mut [u8])
    requires { Readable arcs.now.layout.meters arcs.now.layout.deepest arcs.now.links.now bits.now × (length plan.old ≡ arcs.now.layout.meters) × Used arcs.now.layout.meters arcs.now.layout.deepest (length arcs.now.links.now) bits.now used.now }
    ensures { plan.new ≡ candidate_to arcs.now.layout.deepest arcs.now.layout.meters arcs.now.links.now bits.now }
{
    onehot::clear_bits(plan);
    // k numbers the link's arcs too, so used goes by it.
    for (k, link) in arcs.links.iter().enumerate() {
        read_link(
            bits,
            arcs.layout.arc_start(2 * k),
            arcs.layout.deepest,
            link,
            used[k],
            plan,
        );
    }
}
