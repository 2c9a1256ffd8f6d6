// Two large sites, with 4,000 random edits each, whose draws begin with the same seed. Every hundred edits the bit
// counts of all kinds are compared too: no small site has more than 8,192 bits, and large ones have more or less.
use crate::calls::{self, Ask, Refusal};
use crate::counts::{Counts, Subject};
use crate::draws::Draws;
use crate::edits::{Edit, Twins};
use crate::{Run, asks};
use reference::Kind;

/// How many edits are made of each site.
const EDITS: usize = 4000;

const MOST_BITS: usize = 8192;

/// One of 64 edits begins, with one of the 13 numbers of meters from `least` on, 23 remove and 40 add. The ends are 0 to
/// one above the meters. Weight 0 stands in for every weight that 16 divides.
fn draw_large(draws: &mut Draws, meters: usize, least: usize) -> Edit {
    let ends = meters.wrapping_add(2);
    let way = draws.below(64);
    let u = draws.below(ends);
    let v = draws.below(ends);
    let any = draws.below(65536) as u16;
    let more = draws.below(13);
    match way {
        0 => Edit::Begin {
            meters: least.wrapping_add(more),
        },
        1..24 => Edit::Remove { u, v },
        _ => Edit::Add {
            u,
            v,
            weight: if any % 16 == 0 { 0 } else { any },
        },
    }
}

/// The bit count of what is asked for, or its refusal.
fn bit_count(meters: usize, links: usize, ask: Ask) -> Result<usize, Refusal> {
    let kind = Kind::new(ask.kind, ask.parameter, meters).ok_or(Refusal::Kind)?;
    if !reference::allows_margin(ask.margin) {
        return Err(Refusal::Margin);
    }
    let bits = kind.bits_of(meters, links);
    if bits <= MOST_BITS {
        Ok(bits)
    } else {
        Err(Refusal::Bits)
    }
}

/// Compares one bit count.
fn compare_count(twins: &Twins, links: usize, ask: Ask, counts: &mut Counts) {
    let expected = bit_count(twins.matrix.meters(), links, ask);
    let given = calls::bit_count(&twins.image, ask);
    counts.called(Subject::Tables, expected.map(|_| ()), given == expected);
}

/// Compares the bit counts of kinds 0 to 3 with parameters 0 to 63, each with a drawn margin.
fn compare_counts(twins: &Twins, run: &mut Run) {
    let links = twins.matrix.count();
    for kind in 0..4 {
        for parameter in 0..64 {
            let margin = asks::draw_margin(&mut run.draws);
            let ask = Ask {
                kind,
                parameter,
                margin,
            };
            compare_count(twins, links, ask, &mut run.counts);
        }
    }
}

/// One site, begun with the meters given and later with `least` or more.
fn compare_site(start: usize, least: usize, run: &mut Run) {
    let mut twins = Twins::begin(start, &mut run.counts);
    run.draws = Draws::new(1);
    for k in 0..EDITS {
        let edit = draw_large(&mut run.draws, twins.matrix.meters(), least);
        twins.edit(edit, &mut run.counts);
        if k % 100 == 0 {
            compare_counts(&twins, run);
        }
    }
}

/// A site where many adds meet a link that is there, and one of 48 meters, which fills up.
pub fn compare_all(run: &mut Run) {
    compare_site(12, 0, run);
    compare_site(48, 48, run);
}
