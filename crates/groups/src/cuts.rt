// Sums over the links: what an assignment cuts, and the cut weight of a plan.
ghost use Rattle.std.specs.Prelude.{◌*◌, ◌≤◌, ◌≡◌, length};
ghost use Rattle.qubo.specs.Formula.{Assignment};
ghost use Rattle.onehot.specs.Choices.{bit_at};
ghost use Rattle.groups.specs.Formula.{bit_count, cutting_of};
ghost use Rattle.groups.specs.Plans.{cut_weight};

use crate::Groups;
use links::Survey;

impl Groups<'_> {
    /// For each link and group, the weight if exactly one end is in it.
    // Bits are lent beside the struct: it is made before they are known.
    pub(crate) fn cutting(&self, bits: &[u8]) -> u64
        requires { Assignment (bit_count self.now.survey.meters self.now.m) bits.now }
        ensures { (result ≡ cutting_of self.now.m self.now.survey.links.now (bit_at self.now.m bits.now)) × (result ≤ 268431360) }
    {
        let mut sum = 0;
        // A for and no chain: what the callee asks is at hand of one link at a time, and for a chain it is to be shown of
        // all of them at once.
        for link in self.survey.links {
            let apart = onehot::unshared(bits, link.u, link.v, self.m);
            sum += (link.weight as u64) * apart;
        }
        sum
    }
}

/// The cut weight of a plan, each link once: all weights but those of links with both ends in one group.
pub fn cut_weight(plan: &[u8], survey: &Survey) -> u64
    requires { length plan.now ≡ survey.now.meters }
    ensures { result ≡ cut_weight survey.now.links.now plan.now }
{
    links::total_weight(survey.links) - onehot::alike_weight(plan, survey)
}
