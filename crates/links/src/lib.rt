// Links, lists of them, and surveys: what the kinds know of a site. Definitions are in specs/, their laws in proofs/.
// Widening casts stay `as` here and above: a proof reads a cast where it stands, and each `from` is a call more to rewrite.
#![tactic(auto)]

mod sums;
mod survey;

pub use sums::{split_at_meter, total_weight};
pub use survey::Survey;

/// A link of a survey: its ends and its weight.
#[derive(Clone, Copy, Debug, PartialEq, Eq)]
pub struct Link {
    pub u: u8,
    pub v: u8,
    pub weight: u16,
}
