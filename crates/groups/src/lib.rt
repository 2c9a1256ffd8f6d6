// Kind 2, groups: what document 01 asks of it.
// Definitions are in specs/; that the assignments below A are the codes of plans, and the lowest those of the best equal
// splits where there is any, is proved in proofs/.
#![tactic(auto)]

mod cuts;
mod problem;
mod rows;
mod sizes;

pub use problem::Groups;
