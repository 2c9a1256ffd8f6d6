// Kind 3, tree: what document 01 asks of it, over a survey and d.
// Definitions are in specs/ here and in `spanning` and `arcs`; that the assignments below A are the codes of plans, and
// the lowest those of the best spanning trees within the neighbour limit where there is any, is proved in proofs/.
#![tactic(auto)]

mod codes;
mod plans;
mod problem;
mod rows;
mod sums;

pub use codes::encode_plan;
pub use problem::Tree;
