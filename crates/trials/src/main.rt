// Draws small sites at random, the same on every run, makes each with the public calls, and compares every answer of the
// library with `reference`, a second implementation that shares no code with it.
// Then makes 8,000 random edits of two large sites (large.rt), one of 12 meters at first and of other numbers later, and one of 48, which fills up.
// Each edit, of small sites and of large ones, is compared with a plain matrix of weights (edits.rt): what it is refused
// for, if it is, that it alters no byte where it is refused, and how `site` checks and reads the image after it. Of the
// large ones the bit counts of all kinds are compared now and then, and with them the refusal of too many bits.
// What the stored output holds against the papers is that nothing differs; its counts keep the comparison from becoming
// an empty one, and a separate model of the papers and of the draws gives the same for the random sites and edits; those
// of threes.rt can be worked out.
// All calls of the library stand in calls.rt.
#![tactic(auto)]

mod asks;
mod assignments;
mod calls;
mod candidates;
mod cases;
mod counts;
mod draws;
mod edits;
mod large;
mod matrix;
mod rows;
mod sites;
mod slices;
mod threes;

use counts::Counts;
use draws::Draws;
use std::io;

/// What goes through the whole run: the draws, and what was compared.
#[derive(Drop)]
struct Run {
    draws: Draws,
    counts: Counts,
}

/// The small sites, the trees of three meters, the large sites, then what was compared.
fn main(rt: HostRuntime) -> io::Result<()> {
    let mut run = Run {
        draws: Draws::new(0),
        counts: Counts::new(),
    };
    sites::compare_all(&mut run);
    threes::compare_all(&mut run);
    large::compare_all(&mut run);
    run.counts.show(&rt)
}
