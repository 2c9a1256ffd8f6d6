// The public calls: the image of a site and what is asked of it in; table, energies, codes and plans out. None asks
// anything of its caller: each gives its result, or the first refusal that applies and then alters nothing lent to it.
// The contracts state all of that. What the slice lent to `row` holds is stated for the time when the part's loan ends, in the clause `rest`.
// Two lines in each call pose the problem: one function that is lent a closure was tried, and what a call that is
// refused before the closure runs leaves of the bytes that the closure holds was not proved.
// Image and ask are two arguments in each call, as the header has them.
// What each call gives is defined in specs/Calls.antt; the three demands are stated in proofs/Demands.antt.
// The files: the calls here, but for those that edit an image, which are those of `site`; posing.rt reads the image and
// poses the problem, for all of them; refusals.rt has the tests; kinds.rt and problem.rt every `match` on the kind.
#![tactic(auto)]

mod kinds;
mod posing;
mod problem;
mod refusals;

ghost use Rattle.std.specs.Prelude.{◌≡◌, ◌≤◌, ◌<◌, ◌^◌, length, IfOk, MatchResult};
ghost use Rattle.std.specs.Borrow.{sem};
ghost use Rattle.site.specs.Refusal.{number_of, number_told};
ghost use Rattle.plans.specs.Answers.{told};
ghost use Rattle.plans.specs.Refusals.{most_bits};
ghost use Rattle.plans.specs.Calls.{bits_answer_in, penalty_answer_in, constant_answer_in, row_number_in, row_part_in, row_after_in, row_rest_in, energy_answer_in, code_number_in, code_after_in, decode_answer_in, decode_after_in};

pub use qubo::Decoded;
use qubo::Problem;
// `begin` is refused by 1 or 7, `add` by 1, 2, 3, 4 or 6, `remove` by 1, 2 or 5; their contracts are in site/src/lib.rt.
pub use site::{Refusal, add, begin, remove};
// The places that the links of an image are read into.
use site::NO_LINKS;

/// What a caller asks for: the number of a kind, its parameter, and a margin that is added to A.
// C passes it by value, so the kind is a number here.
#[repr(C)]
#[derive(Clone, Copy, Debug, PartialEq, Eq)]
pub struct Ask {
    /// 1 channels, 2 groups, 3 tree.
    pub kind: u64,
    /// n, m or d.
    pub parameter: u64,
    /// What is added to A.
    pub margin: u64,
}

/// A kind, with its parameter.
#[derive(Clone, Copy, Debug, PartialEq, Eq)]
pub enum Kind {
    /// n channels.
    Channels(usize),
    /// m groups.
    Groups(usize),
    /// A tree with at most d neighbours for each meter.
    Tree(usize),
}

/// The number of bits. Refused by 1, 7, 18 or 8.
pub fn bit_count(image: &[u8], ask: Ask) -> Result<usize, Refusal>
    ensures lent { image.exit.now ≡ image.entry.now }
    ensures answer { told result ≡ bits_answer_in image.now ask }
    ensures few { IfOk result (λ b. b ≤ most_bits) }
{
    let mut links = NO_LINKS;
    let posed = posing::pose(image, ask, &mut links)?;
    Ok(posed.bits())
}

/// The penalty A, the margin included. Refused by 1, 7, 18 or 8.
pub fn penalty(image: &[u8], ask: Ask) -> Result<u64, Refusal>
    ensures lent { image.exit.now ≡ image.entry.now }
    ensures answer { told result ≡ penalty_answer_in image.now ask }
    ensures small { IfOk result (λ p. p < 2 ^ 33) }
{
    let mut links = NO_LINKS;
    let posed = posing::pose(image, ask, &mut links)?;
    Ok(posed.penalty())
}

/// The constant of the table. Refused by 1, 7, 18 or 8.
pub fn constant(image: &[u8], ask: Ask) -> Result<i64, Refusal>
    ensures lent { image.exit.now ≡ image.entry.now }
    ensures answer { told result ≡ constant_answer_in image.now ask }
{
    let mut links = NO_LINKS;
    let posed = posing::pose(image, ask, &mut links)?;
    Ok(posed.constant())
}

// Row i in front of the lent slice, and its length.
fn fill(image: &[u8], ask: Ask, i: u64, out: &mut [i64]) -> Result<usize, Refusal>
    ensures number { MatchResult result (λ len. (row_number_in image.now ask i (length out.old) ≡ 0) × (len ≡ length (row_part_in image.now ask i (length out.old)))) (λ r. number_of r ≡ row_number_in image.now ask i (length out.old)) }
    ensures row { out.new ≡ row_after_in image.now ask i out.old }
{
    let mut links = NO_LINKS;
    let posed = posing::pose(image, ask, &mut links)?;
    let bits = posed.bits();
    refusals::of_row(bits, i, out.len())?;
    let at = i as usize;
    posed.fill_row(at, out);
    Ok(bits - at)
}

// The lent slice itself, with row i in front of it and the rest unaltered, and the length of that row, 0 on refusal.
fn filled<'a>(image: &[u8], ask: Ask, i: u64, out: &'a mut [i64]) -> (&'a mut [i64], usize)
    ensures same { (result.0.ghost_name ≡ out.entry.ghost_name) × (result.0.ref_ptr ≡ out.entry.ref_ptr) }
    ensures row { result.0.now ≡ row_after_in image.now ask i out.old }
    ensures len { result.1 ≡ length (row_part_in image.now ask i (length out.old)) }
{
    let len = fill(image, ask, i, &mut out[..]).unwrap_or(0);
    (out, len)
}

/// Row i of the table as the front part of the lent slice, empty only on refusal; `row_refusal` gives the refusal.
// `rest`: when the part's loan ends, the lent slice holds what the part then holds, and behind it what it held before.
pub fn row<'a>(image: &[u8], ask: Ask, i: u64, out: &'a mut [i64]) -> &'a mut [i64]
    ensures lent { image.exit.now ≡ image.entry.now }
    ensures part { result.now ≡ row_part_in image.now ask i (length out.old) }
    ensures place { result.ref_ptr ≡ out.entry.ref_ptr }
    ensures* rest { sem 𝓛 (row_rest_in image.now ask i out.entry result) }
{
    let (all, len) = filled(image, ask, i, out);
    &mut all[..len]
}

/// Whether `row` takes the same input, or the refusal: 1, 7, 18, 8, 10 or 9. It alters nothing.
pub fn row_refusal(image: &[u8], ask: Ask, i: u64, out: &[i64]) -> Result<(), Refusal>
    ensures lent { (image.exit.now ≡ image.entry.now) × (out.exit.now ≡ out.entry.now) }
    ensures value { number_told result ≡ row_number_in image.now ask i (length out.now) }
{
    let mut links = NO_LINKS;
    let posed = posing::pose(image, ask, &mut links)?;
    refusals::of_row(posed.bits(), i, out.len())
}

/// Row i in front of the lent slice, the rest of it unaltered. Refused by 1, 7, 18, 8, 10 or 9.
pub fn fill_row(image: &[u8], ask: Ask, i: u64, out: &mut [i64]) -> Result<(), Refusal>
    ensures lent { image.exit.now ≡ image.entry.now }
    ensures number { number_told result ≡ row_number_in image.now ask i (length out.old) }
    ensures row { out.new ≡ row_after_in image.now ask i out.old }
{
    fill(image, ask, i, out)?;
    Ok(())
}

/// The energy of an assignment. Refused by 1, 7, 18, 8, 9 or 11.
pub fn energy(image: &[u8], ask: Ask, bits: &[u8]) -> Result<i64, Refusal>
    ensures lent { (image.exit.now ≡ image.entry.now) × (bits.exit.now ≡ bits.entry.now) }
    ensures answer { told result ≡ energy_answer_in image.now ask bits.now }
{
    let mut links = NO_LINKS;
    let posed = posing::pose(image, ask, &mut links)?;
    refusals::of_energy(&posed, bits)?;
    Ok(posed.energy(bits))
}

/// The code of a plan, in the lent bits. Refused by 1, 7, 18, 8, 9 or 12.
pub fn encode(image: &[u8], ask: Ask, plan: &[u8], bits: &mut [u8]) -> Result<(), Refusal>
    ensures lent { (image.exit.now ≡ image.entry.now) × (plan.exit.now ≡ plan.entry.now) }
    ensures number { number_told result ≡ code_number_in image.now ask plan.now bits.old }
    ensures bits { bits.new ≡ code_after_in image.now ask plan.now bits.old }
{
    let mut links = NO_LINKS;
    let posed = posing::pose(image, ask, &mut links)?;
    refusals::of_lengths(&posed, plan.len(), bits.len())?;
    if !posed.encode(plan, bits) {
        return Err(Refusal::NoPlan);
    }
    Ok(())
}

/// The plan of an assignment, in the lent plan, its weight and how many meters were repaired. Refused by 1, 7, 18, 8, 9, 11 or 12.
pub fn decode(image: &[u8], ask: Ask, bits: &[u8], plan: &mut [u8]) -> Result<Decoded, Refusal>
    ensures lent { (image.exit.now ≡ image.entry.now) × (bits.exit.now ≡ bits.entry.now) }
    ensures answer { told result ≡ decode_answer_in image.now ask bits.now plan.old }
    ensures plan { plan.new ≡ decode_after_in image.now ask bits.now plan.old }
{
    let mut links = NO_LINKS;
    let posed = posing::pose(image, ask, &mut links)?;
    refusals::of_decoding(&posed, bits, plan.len())?;
    posed.decode(bits, plan).ok_or(Refusal::NoPlan)
}
