// Tests and sums over lists and over the numbers 1..n, in which the other crates write their definitions. The crate has
// definitions (specs/) and laws (proofs/) and no code.
#![tactic(auto)]
