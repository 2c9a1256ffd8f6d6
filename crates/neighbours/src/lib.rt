// Neighbour counts of relay trees: the bits that say how many neighbours a meter has, what they add to a row, and their
// sums in an assignment. Kind 3 stands above this.
#![tactic(auto)]

mod counts;
mod degrees;

pub use counts::{Counts, Neighbours, count_meter, count_number};
