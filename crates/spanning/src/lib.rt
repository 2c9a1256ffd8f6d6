// Rooted trees over a site's links: the depth of a meter, found by recursion up its parents. Definitions are in specs/;
// that every spanning tree has a root with no depth over N/2 is proved in proofs/.
#![tactic(auto)]

ghost use Rattle.std.specs.Prelude.{MatchOption, ◌≡◌, ◌≤◌};
ghost use Rattle.lists.specs.Sums.{nth};
ghost use Rattle.spanning.specs.Parents.{deepest, depth_of};

/// D, which no depth in a plan exceeds: half the number of meters, rounded down.
#[tactic(auto, unfolding(crate::specs::Parents::deepest))]
pub fn deepest(meters: usize) -> usize
    ensures { result ≡ deepest meters }
{
    meters / 2
}

/// The parent of meter v, if it has one.
pub fn parent_of(parents: &[u8], v: usize) -> Option<usize>
    ensures { MatchOption result (nth parents.now v ≡ 0) (λ u. (1 ≤ u) × (u ≡ nth parents.now v)) }
{
    let at = v.checked_sub(1)?;
    let parent = *parents.get(at)?;
    if parent == 0 {
        return None;
    }
    Some(parent as usize)
}

/// The depth of meter v: 0 at the root, otherwise one more than the parent's. Each step up uses up one of those allowed,
/// so a ring of parents ends too: there the steps do not lead to a root.
#[tactic(auto, using(crate::proofs::Recursion::depth_none))]
pub fn depth_of(parents: &[u8], v: usize, allowance: usize) -> Option<usize>
    ensures { result ≡ depth_of parents.now allowance v }
{
    if allowance == 0 {
        return None;
    }
    let Some(parent) = parent_of(parents, v) else {
        return Some(0);
    };
    let up = depth_of(parents, parent, allowance - 1)?;
    Some(up + 1)
}
