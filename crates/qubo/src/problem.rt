// What a table is made for, of whichever kind.
// That lent bytes are bits, and so many, stays a clause here and above: most functions cut them into parts, each of which
// would be a value of its own to be made, with its proof.
ghost use Rattle.std.specs.Prelude.{◌≡◌, ◌+◌, ◌<◌, ◌≤◌, length};
ghost use Rattle.qubo.specs.Formula.{Assignment};
ghost use Rattle.qubo.specs.Table.{constant_of, row_of};

/// What bits decode to: the weight of the plan, which lies in the lent buffer, and how many meters were repaired.
#[derive(Clone, Copy, Debug, PartialEq, Eq)]
pub struct Decoded {
    pub weight: u64,
    pub repaired: u64,
}

/// A kind over a survey, with its parameter and the penalty A: what a table is made for.
pub trait Problem {
    ghost use Rattle.qubo.specs.Instance.{Instance, energy_of};
    ghost use Rattle.qubo.specs.Decoding.{row_filled, code_after, answer_of, plan_after};

    // the number of bits, the energy as a formula, and the plans with their codes, weights and decoding
    ghost instance: { Self → Instance };

    /// The number of bits.
    fn bits(&self) -> usize
        ensures { result ≡ (instance self.now).bits };

    /// The constant of the table.
    fn constant(&self) -> i64
        ensures { result ≡ constant_of (instance self.now).formula };

    /// Row i of the table, which fills the lent slice.
    fn row_into(&self, i: usize, row: &mut [i64])
        requires { (i < (instance self.now).bits) × (i + length row.old ≡ (instance self.now).bits) }
        ensures { row.new ≡ row_of (instance self.now).formula (instance self.now).bits i };

    /// Row i of the table in front of the lent slice; the rest is unaltered.
    fn fill_row(&self, i: usize, out: &mut [i64])
        requires { (i < (instance self.now).bits) × ((instance self.now).bits ≤ i + length out.old) }
        ensures { out.new ≡ row_filled (instance self.now) i out.old }
    {
        let len = self.bits() - i;
        self.row_into(i, &mut out[..len]);
    }

    /// The energy of an assignment.
    fn energy(&self, bits: &[u8]) -> i64
        requires { Assignment (instance self.now).bits bits.now }
        ensures { result ≡ energy_of (instance self.now) bits.now };

    /// Whether the bytes are a plan; where they are, the bits are then its code.
    // A bool and no Option: the contract says by one equation that it is the plan test, and no value comes with it.
    fn encode(&self, plan: &[u8], bits: &mut [u8]) -> bool
        requires { length bits.old ≡ (instance self.now).bits }
        ensures plan { result ≡ (instance self.now).is_plan plan.now }
        ensures bits { bits.new ≡ code_after (instance self.now) plan.now bits.old };

    /// What an assignment decodes to, if anything; a plan is then in the lent one.
    fn decode(&self, bits: &[u8], plan: &mut [u8]) -> Option<Decoded>
        requires { Assignment (instance self.now).bits bits.now × (length plan.old ≡ (instance self.now).plan_bytes) }
        ensures answer { result ≡ answer_of (instance self.now) bits.now }
        ensures plan { plan.new ≡ plan_after (instance self.now) bits.now plan.old };
}
