// The C interface: the public calls of `plans`, one function each, under the names of include/meterplan.h. A slice
// crosses as a pointer and a length; `meterplan_ask` of the header is `plans::Ask` itself, by value; a result crosses as
// a number, or as a struct of its number and values. A refusal of 0 says that the result is there.
#![tactic(auto)]

ghost use Rattle.std.specs.Prelude.{◌≡◌, ℕ, ℤ, length, pos};
ghost use Rattle.qubo.specs.Table.{constant_of};
ghost use Rattle.qubo.specs.Instance.{energy_of};
ghost use Rattle.site.specs.Refusal.{number_told};
ghost use Rattle.site.specs.Edits.{begin_refusal, begin_image, add_refusal, add_image, remove_refusal, remove_image};
ghost use Rattle.plans.specs.Answers.{answer as answer_of, told, NumberIs, DecodedIs};
ghost use Rattle.plans.specs.Calls.{instance_in, accept_number_in, row_number_in, row_after_in, energy_number_in, code_number_in, code_after_in, decode_number_in, decode_after_in};

use plans::{Ask, Decoded, Refusal};

/// `meterplan_number` of the header: a number, 0 where it is refused.
#[repr(C)]
#[derive(Clone, Copy, Debug, PartialEq, Eq)]
pub struct MeterplanNumber {
    /// 0 where there is a value.
    pub refusal: u64,
    /// The number asked for.
    pub value: i64,
}

/// `meterplan_decoded` of the header: the weight of the plan in the lent buffer and how many meters were repaired, both 0 where it is refused.
#[repr(C)]
#[derive(Clone, Copy, Debug, PartialEq, Eq)]
pub struct MeterplanDecoded {
    /// 0 where there is a plan.
    pub refusal: u64,
    /// The plan's weight.
    pub weight: u64,
    /// How many meters were repaired.
    pub repaired: u64,
}

// The number of a refusal, 0 for none. A function and no `impl`: to C the number is a `u64`, and neither that type nor `Result` is of this crate.
fn refusal_of(answer: Result<(), Refusal>) -> u64
    ensures { result ≡ number_told answer }
{
    match answer {
        Ok(()) => 0,
        Err(refusal) => refusal.number(),
    }
}

/// Makes the image a new one of that many meters, with no links.
#[unsafe(no_mangle)]
pub extern "C" fn meterplan_begin(image: &mut [u8], meters: u64) -> u64
    ensures value { result ≡ begin_refusal image.old meters }
    ensures image_after { image.new ≡ begin_image image.old meters }
{
    refusal_of(plans::begin(image, meters))
}

/// Adds the link between u and v, either way round.
#[unsafe(no_mangle)]
pub extern "C" fn meterplan_add(image: &mut [u8], u: u64, v: u64, weight: u16) -> u64
    ensures value { result ≡ add_refusal image.old u v weight }
    ensures image_after { image.new ≡ add_image image.old u v weight }
{
    refusal_of(plans::add(image, u, v, weight))
}

/// Removes the link between u and v, either way round.
#[unsafe(no_mangle)]
pub extern "C" fn meterplan_remove(image: &mut [u8], u: u64, v: u64) -> u64
    ensures value { result ≡ remove_refusal image.old u v }
    ensures image_after { image.new ≡ remove_image image.old u v }
{
    refusal_of(plans::remove(image, u, v))
}

impl From<Result<i64, Refusal>> for MeterplanNumber {
    ghost from_gives = { λ answer n. (r : ℕ) (z : ℤ) → told answer ≡ answer_of r z → NumberIs n.refusal n.value r z };

    fn from(answer: Result<i64, Refusal>) -> MeterplanNumber {
        match answer {
            Ok(value) => MeterplanNumber { refusal: 0, value },
            Err(refusal) => MeterplanNumber {
                refusal: refusal.number(),
                value: 0,
            },
        }
    }
}

impl From<Result<Decoded, Refusal>> for MeterplanDecoded {
    ghost from_gives = { λ answer d. (r w k : ℕ) → told answer ≡ answer_of r (record { weight = w; repaired = k }) → DecodedIs d.refusal d.weight d.repaired r w k };

    fn from(answer: Result<Decoded, Refusal>) -> MeterplanDecoded {
        match answer {
            Ok(Decoded { weight, repaired }) => MeterplanDecoded {
                refusal: 0,
                weight,
                repaired,
            },
            Err(refusal) => MeterplanDecoded {
                refusal: refusal.number(),
                weight: 0,
                repaired: 0,
            },
        }
    }
}

/// The number of bits.
#[unsafe(no_mangle)]
pub extern "C" fn meterplan_bits(image: &[u8], ask: Ask) -> MeterplanNumber
    ensures lent { image.exit.now ≡ image.entry.now }
    ensures number { NumberIs result.refusal result.value (accept_number_in image.now ask) (pos (instance_in image.now ask).bits) }
{
    MeterplanNumber::from(plans::bit_count(image, ask).map(|bits| bits as i64))
}

/// The penalty A.
#[unsafe(no_mangle)]
pub extern "C" fn meterplan_penalty(image: &[u8], ask: Ask) -> MeterplanNumber
    ensures lent { image.exit.now ≡ image.entry.now }
    ensures number { NumberIs result.refusal result.value (accept_number_in image.now ask) (pos (instance_in image.now ask).penalty) }
{
    MeterplanNumber::from(plans::penalty(image, ask).map(|penalty| penalty as i64))
}

/// The constant of the table.
#[unsafe(no_mangle)]
pub extern "C" fn meterplan_constant(image: &[u8], ask: Ask) -> MeterplanNumber
    ensures lent { image.exit.now ≡ image.entry.now }
    ensures number { NumberIs result.refusal result.value (accept_number_in image.now ask) (constant_of (instance_in image.now ask).formula) }
{
    MeterplanNumber::from(plans::constant(image, ask))
}

/// Row i in front of the lent slice: bits - i numbers; the rest is unaltered.
#[unsafe(no_mangle)]
pub extern "C" fn meterplan_row(image: &[u8], ask: Ask, i: u64, out: &mut [i64]) -> u64
    ensures lent { image.exit.now ≡ image.entry.now }
    ensures number { result ≡ row_number_in image.now ask i (length out.old) }
    ensures row { out.new ≡ row_after_in image.now ask i out.old }
{
    refusal_of(plans::fill_row(image, ask, i, out))
}

/// The energy of an assignment.
#[unsafe(no_mangle)]
pub extern "C" fn meterplan_energy(image: &[u8], ask: Ask, bits: &[u8]) -> MeterplanNumber
    ensures lent { (image.exit.now ≡ image.entry.now) × (bits.exit.now ≡ bits.entry.now) }
    ensures number { NumberIs result.refusal result.value (energy_number_in image.now ask bits.now) (energy_of (instance_in image.now ask) bits.now) }
{
    MeterplanNumber::from(plans::energy(image, ask, bits))
}

/// The code of a plan, in the lent bits.
#[unsafe(no_mangle)]
pub extern "C" fn meterplan_code(image: &[u8], ask: Ask, plan: &[u8], bits: &mut [u8]) -> u64
    ensures lent { (image.exit.now ≡ image.entry.now) × (plan.exit.now ≡ plan.entry.now) }
    ensures number { result ≡ code_number_in image.now ask plan.now bits.old }
    ensures bits { bits.new ≡ code_after_in image.now ask plan.now bits.old }
{
    refusal_of(plans::encode(image, ask, plan, bits))
}

/// The plan of an assignment, in the lent plan, its weight and how many meters were repaired.
#[unsafe(no_mangle)]
pub extern "C" fn meterplan_decode(
    image: &[u8],
    ask: Ask,
    bits: &[u8],
    plan: &mut [u8],
) -> MeterplanDecoded
    ensures lent { (image.exit.now ≡ image.entry.now) × (bits.exit.now ≡ bits.entry.now) }
    ensures plan { plan.new ≡ decode_after_in image.now ask bits.now plan.old }
    ensures number { DecodedIs result.refusal result.weight result.repaired (decode_number_in image.now ask bits.now plan.old) ((instance_in image.now ask).weight ((instance_in image.now ask).decoded bits.now)) ((instance_in image.now ask).repaired bits.now) }
{
    MeterplanDecoded::from(plans::decode(image, ask, bits, plan))
}
