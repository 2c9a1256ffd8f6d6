// Kind 1, channels: what document 01 asks of it, over a survey and n.
// Definitions are in specs/; that the lowest assignments are the codes of the best plans is proved in proofs/.
#![tactic(auto)]

mod clashes;
mod loads;
mod problem;
mod repair;
mod repairing;
mod rows;

pub use problem::Channels;
