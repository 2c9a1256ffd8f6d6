// Trees of three meters, with each set of their three links, at every assignment: few random sites have a tree and a table that is small enough for that.
use crate::calls::Ask;
use crate::cases::Case;
use crate::edits::{Edit, Twins};
use crate::{Run, asks};
use reference::Site;

/// The links: bit k of a set's number is link k.
const LINKS: [(usize, usize); 3] = [(1, 2), (1, 3), (2, 3)];

/// Puts a link into both, with a drawn weight of 1 to 9.
fn put(twins: &mut Twins, u: usize, v: usize, run: &mut Run) {
    let weight = (run.draws.below(9) + 1) as u16;
    twins.edit(Edit::Add { u, v, weight }, &mut run.counts);
}

/// The trees of a site with a neighbour limit.
fn compare_limit(image: &[u8], site: &Site, d: u64, run: &mut Run) {
    let margin = asks::draw_accepted_margin(&mut run.draws);
    let ask = Ask {
        kind: 3,
        parameter: d,
        margin,
    };
    Case::new(image, site, ask, 18).compare(run);
}

/// One set of links, by its number.
fn compare_set(set: usize, run: &mut Run) {
    let mut twins = Twins::begin(3, &mut run.counts);
    let mut rest = set;
    for (u, v) in LINKS {
        if rest % 2 == 1 {
            put(&mut twins, u, v, run);
        }
        rest /= 2;
    }
    let site = twins.site();
    compare_limit(&twins.image, &site, 1, run);
    compare_limit(&twins.image, &site, 2, run);
}

/// All sets.
pub fn compare_all(run: &mut Run) {
    for set in 0..8 {
        compare_set(set, run);
    }
}
