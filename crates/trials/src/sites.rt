// The small sites: as many each of 1 to 5 meters, made by random edits.
use crate::draws::Draws;
use crate::edits::{Edit, Twins};
use crate::{Run, asks, cases};

/// How many sites there are, and how many edits are made of each.
const SITES: usize = 60;

const EDITS: usize = 20;

/// Any 16 bits in one of 8 draws, else 0 to 9.
fn draw_weight(draws: &mut Draws) -> u16 {
    let way = draws.below(8);
    let any = draws.below(65536);
    let weight = if way == 0 { any } else { any % 10 };
    weight as u16
}

/// One of 4 edits removes, the others add; the ends are 0 to one above the meters.
fn draw_edit(draws: &mut Draws, meters: usize) -> Edit {
    let ends = meters.wrapping_add(2);
    let way = draws.below(4);
    let u = draws.below(ends);
    let v = draws.below(ends);
    let weight = draw_weight(draws);
    match way {
        0 => Edit::Remove { u, v },
        _ => Edit::Add { u, v, weight },
    }
}

/// Makes a site.
fn make(meters: usize, run: &mut Run) -> Twins {
    let mut twins = Twins::begin(meters, &mut run.counts);
    for _ in 0..EDITS {
        let edit = draw_edit(&mut run.draws, meters);
        twins.edit(edit, &mut run.counts);
    }
    twins
}

/// One site, from its number. The most bits for every assignment: the first site of each number of meters has more than the others.
fn compare_site(s: usize, run: &mut Run) {
    let meters = s % 5 + 1;
    let most = if s < 5 { 16 } else { 12 };
    let twins = make(meters, run);
    cases::compare_cases(&twins, most, run);
    asks::compare_asks(&twins, run);
}

/// All sites.
pub fn compare_all(run: &mut Run) {
    for s in 0..SITES {
        compare_site(s, run);
    }
}
