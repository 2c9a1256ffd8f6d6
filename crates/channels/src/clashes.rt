// What clashes in an assignment, added up over the links.
ghost use Rattle.std.specs.Prelude.{◌*◌, ◌≤◌, ◌≡◌};
ghost use Rattle.qubo.specs.Formula.{Assignment};
ghost use Rattle.onehot.specs.Choices.{bit_at};
ghost use Rattle.channels.specs.Formula.{clashing_of};

use crate::Channels;

impl Channels<'_> {
    /// For each link and channel, the weight if both ends have that channel.
    // Bits are lent beside the struct: it is made before they are known.
    pub(crate) fn clashing(&self, bits: &[u8]) -> u64
        requires { Assignment (self.now.survey.meters * self.now.n) bits.now }
        ensures value { result ≡ clashing_of self.now.n self.now.survey.links.now (bit_at self.now.n bits.now) }
        ensures bound { result ≤ 268431360 }
    {
        let mut sum = 0;
        // A for and no chain, as in `repaired_count`: what the callee asks is at hand of one link at a time.
        for link in self.survey.links {
            sum += (link.weight as u64) * onehot::shared(bits, link.u, link.v, self.n);
        }
        sum
    }
}
