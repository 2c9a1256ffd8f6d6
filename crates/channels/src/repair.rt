// Decoding: meter by meter upward, each by its own part of the bits.
ghost use Rattle.std.specs.Prelude.{◌*◌, ◌≡◌, length};
ghost use Rattle.qubo.specs.Formula.{Assignment};
ghost use Rattle.channels.specs.Repair.{decoded, repaired};

use crate::Channels;
use crate::repairing::Repairing;

impl Channels<'_> {
    /// The plan of an assignment.
    // Bits are lent beside the struct: it is made before they are known.
    pub(crate) fn repair_all(&self, bits: &[u8], plan: &mut [u8])
        requires { Assignment (self.now.survey.meters * self.now.n) bits.now × (length plan.old ≡ self.now.survey.meters) }
        ensures { plan.new ≡ decoded self.now.survey.meters self.now.n self.now.survey.links.now bits.now }
    {
        // By index: each meter reads the part of the plan that is written by then.
        for v in 0..self.survey.meters {
            let so_far = Repairing {
                channels: *self,
                bits,
                plan: &plan[..v],
            };
            plan[v] = so_far.channel_of(v + 1) as u8;
        }
    }

    /// How many meters have not exactly one bit set.
    // Bits are lent beside the struct: it is made before they are known.
    pub(crate) fn repaired_count(&self, bits: &[u8]) -> u64
        requires { Assignment (self.now.survey.meters * self.now.n) bits.now }
        ensures { result ≡ repaired self.now.survey.meters self.now.n bits.now }
    {
        let mut count = 0;
        // A `filter` with `count` was tried: the closure proves, and that each part is bits, which the loop has of the part
        // at hand, is to be shown of all parts at once.
        for part in bits.chunks_exact(self.n) {
            if onehot::set_count(part) != 1 {
                count += 1;
            }
        }
        count
    }
}
