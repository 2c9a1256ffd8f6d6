// Whether bytes are a plan: one root, parents that are linked neighbours, no depth over D, and no meter with more than d neighbours.
// That a plan has a byte for each meter stays a clause: a struct of a survey and a plan would be made for three short functions.
ghost use Rattle.std.specs.Prelude.{MatchOption, ◌+◌, ◌≤◌, ◌<◌, true, false, ◌≡◌, length, take, eqb};
ghost use Rattle.lists.specs.Tests.{all, from};
ghost use Rattle.lists.specs.Sums.{sum_of, same, nth};
ghost use Rattle.spanning.specs.Parents.{depth_of, at_most, neighbours, is_used};
ghost use Rattle.tree.specs.Plans.{bit_of_depth, depth_choices, few_neighbours, is_plan, tree_weight};
ghost use Rattle.tree.specs.Inner.{Counted};

use arcs::Arcs;
use links::{Link, Survey};

/// Whether u is the parent of meter v. Ends of links are meters, so their parents are read with no further test.
pub fn is_parent(plan: &[u8], u: u8, v: u8) -> bool
    requires { (1 ≤ v) × (v ≤ length plan.now) }
    ensures { result ≡ eqb (nth plan.now v) u }
{
    plan[(v as usize) - 1] == u
}

// How many links join a meter to its parent; one that joins each of its ends to the other is counted twice.
fn parent_links(arcs: &Arcs, plan: &[u8]) -> usize
    requires { length plan.now ≡ arcs.now.layout.meters }
    ensures { result ≡ sum_of arcs.now.links.now (λ l. same (nth plan.now l.u) l.v + same (nth plan.now l.v) l.u) }
{
    let mut count = 0;
    for link in arcs.links {
        let up = is_parent(plan, link.v, link.u);
        let down = is_parent(plan, link.u, link.v);
        count += (up as usize) + (down as usize);
    }
    count
}

// Whether one of the ends of a link is the other's parent.
fn is_used(plan: &[u8], link: &Link) -> bool
    requires { (1 ≤ link.now.u) × (link.now.u < link.now.v) × (link.now.v ≤ length plan.now) }
    ensures { result ≡ is_used plan.now link.now }
{
    is_parent(plan, link.v, link.u) || is_parent(plan, link.u, link.v)
}

/// The weight of the tree: of the links that join a meter to its parent.
pub fn tree_weight(plan: &[u8], survey: &Survey) -> u64
    requires { length plan.now ≡ survey.now.meters }
    ensures { result ≡ tree_weight survey.now.links.now plan.now }
{
    let mut sum = 0;
    for link in survey.links {
        if is_used(plan, link) {
            sum += link.weight as u64;
        }
    }
    sum
}

// Which of its depth bits meter v has set, from 1: 1 more than its depth, and 0 in a ring of parents, as the code of
// choices has it.
fn depth_bit(plan: &[u8], v: usize, meters: usize) -> usize
    ensures { (result ≡ bit_of_depth (depth_of plan.now meters v)) × (result ≤ meters) }
{
    spanning::depth_of(plan, v, meters).map_or(0, |depth| depth + 1)
}

// The bits of all depths, of each meter in its place; a byte holds each, and 0 where it is none, as the code of choices has it.
// Fixed places, cut by the caller: the library has no heap.
fn depth_bits(plan: &[u8], meters: usize) -> [u8; 256]
    requires { meters ≤ 48 }
    ensures { (length result ≡ 256) × (take meters result ≡ depth_choices meters plan.now) }
{
    let mut depths = [0; 256];
    // By index: what an adapter of `iter_mut` wrote is not told to a proof.
    for v in 0..meters {
        depths[v] = depth_bit(plan, v + 1, meters) as u8;
    }
    depths
}

/// How many neighbours meter v has in the tree: its children, and its parent if it has one.
pub fn neighbours_at(children: &[u8], plan: &[u8], v: usize) -> u8
    requires { Counted plan.now children.now × (v < 256) }
    ensures { (result ≡ neighbours (length plan.now) plan.now v) × (result ≤ 49) }
{
    match spanning::parent_of(plan, v) {
        Some(_) => children[v] + 1,
        None => children[v],
    }
}

// Whether nobody has more than d neighbours.
fn within_limit(children: &[u8], plan: &[u8], d: usize) -> bool
    requires { Counted plan.now children.now }
    ensures { result ≡ few_neighbours (length plan.now) d plan.now }
{
    // From 0: a proof has no law of what `..=` yields to `all`.
    (0..plan.len()).all(|v| neighbours_at(children, plan, v + 1) as usize <= d)
}

/// Where the bytes are a plan, the bits of its depths. With one root, all parents are linked neighbours exactly where
/// meters - 1 links join a meter to its parent. Depths come last, since they take a walk up from each meter; no depth
/// exceeds D, and none is that of a ring, where each bit is one of 1..D+1.
pub fn plan_depths(arcs: &Arcs, d: usize, plan: &[u8]) -> Option<[u8; 256]>
    ensures { MatchOption result (is_plan arcs.now.layout.meters d arcs.now.links.now plan.now ≡ false) (λ depths. (is_plan arcs.now.layout.meters d arcs.now.links.now plan.now ≡ true) × (length depths ≡ 256) × (take arcs.now.layout.meters depths ≡ depth_choices arcs.now.layout.meters plan.now)) }
{
    let meters = arcs.layout.meters;
    if plan.len() != meters {
        return None;
    }
    let children = onehot::count_choices(plan);
    if children[0] != 1 {
        return None;
    }
    if parent_links(arcs, plan) != meters - 1 {
        return None;
    }
    if !within_limit(&children, plan, d) {
        return None;
    }
    let depths = depth_bits(plan, meters);
    let width = spanning::deepest(meters) + 1;
    if !onehot::are_choices(&depths[..meters], meters, width) {
        return None;
    }
    Some(depths)
}
