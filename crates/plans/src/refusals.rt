// The tests of the table of refusals, in the order of trial: each function gives the first of its refusals that applies.
ghost use Rattle.std.specs.Prelude.{◌≡◌, MatchResult};
ghost use Rattle.site.specs.Refusal.{refusal, number_of, number_told};
ghost use Rattle.plans.specs.Kinds.{kind_of};
ghost use Rattle.plans.specs.Refusals.{are_bits, ask_tests, count_tests, row_tests, energy_tests};
ghost use Rattle.plans.specs.Inner.{instance_for, code_lengths, decode_bytes};

use crate::problem::Posed;
use crate::{Ask, Kind, Refusal, kinds};
use qubo::Problem;

// The most bits that a table may have.
const MOST_BITS: usize = 8192;

// The greatest margin.
const MOST_MARGIN: u64 = 1000000;

/// The kind that is asked for of a site of so many meters. Refused by 7 or 18.
pub(crate) fn of_ask(ask: Ask, meters: usize) -> Result<Kind, Refusal>
    ensures { MatchResult result (λ k. (refusal (ask_tests meters ask) ≡ 0) × (k ≡ kind_of ask)) (λ r. number_of r ≡ refusal (ask_tests meters ask)) }
{
    let kind = kinds::kind_of(ask, meters).ok_or(Refusal::Kind)?;
    if MOST_MARGIN < ask.margin {
        return Err(Refusal::Margin);
    }
    Ok(kind)
}

/// A table of so many bits: 8.
#[tactic(auto, using(crate::proofs::Refusing::count_many, crate::proofs::Refusing::count_fine))]
pub(crate) fn of_count(bits: usize) -> Result<(), Refusal>
    ensures { number_told result ≡ refusal (count_tests bits) }
{
    if MOST_BITS < bits {
        return Err(Refusal::Bits);
    }
    Ok(())
}

/// Row i in a slice with that much room: 10, which comes first, and 9.
pub(crate) fn of_row(bits: usize, i: u64, room: usize) -> Result<(), Refusal>
    ensures { number_told result ≡ refusal (row_tests bits i room) }
{
    if (bits as u64) <= i {
        return Err(Refusal::Row);
    }
    if room < bits - (i as usize) {
        return Err(Refusal::Length);
    }
    Ok(())
}

// Whether each lent byte is 0 or 1: whether the greatest is. The loop goes through all of them, many bytes at a time: measured quicker than `all`.
fn are_bits(bits: &[u8]) -> bool
    ensures { result ≡ are_bits bits.now }
{
    let mut top: u8 = 0;
    for bit in bits {
        top = top.max(*bit);
    }
    top <= 1
}

/// The energy of lent bits: 9, 11.
pub(crate) fn of_energy(posed: &Posed, bits: &[u8]) -> Result<(), Refusal>
    ensures { number_told result ≡ refusal (energy_tests (instance_for posed.now).bits bits.now) }
{
    if bits.len() != posed.bits() {
        return Err(Refusal::Length);
    }
    if !are_bits(bits) {
        return Err(Refusal::NotBits);
    }
    Ok(())
}

/// A plan of that length to be coded into so many lent bits: 9. Whether it is a plan is seen when it is coded.
pub(crate) fn of_lengths(posed: &Posed, plan: usize, bits: usize) -> Result<(), Refusal>
    ensures { number_told result ≡ refusal (code_lengths (instance_for posed.now).bits (instance_for posed.now).plan_bytes plan bits) }
{
    if plan != posed.plan_bytes() || bits != posed.bits() {
        return Err(Refusal::Length);
    }
    Ok(())
}

/// Lent bits to be decoded into a lent plan of that length: 9, 11. Whether they code a plan is seen when they are decoded.
pub(crate) fn of_decoding(posed: &Posed, bits: &[u8], plan: usize) -> Result<(), Refusal>
    ensures { number_told result ≡ refusal (decode_bytes (instance_for posed.now).bits (instance_for posed.now).plan_bytes bits.now plan) }
{
    if plan != posed.plan_bytes() {
        return Err(Refusal::Length);
    }
    of_energy(posed, bits)
}
