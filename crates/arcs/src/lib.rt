// Depths and arcs of relay trees: the bits of both, what they add to a row, and their sums in an assignment. Kind 3 stands above this, and 02's kind 4 will.
#![tactic(auto)]

mod layout;
mod place;
mod rows;
mod sums;

pub use layout::{Arcs, Layout};
pub use place::Place;
pub use rows::add_weights;
pub use sums::arc_cost;
