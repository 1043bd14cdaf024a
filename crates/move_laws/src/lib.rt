//! The laws of moves: what each kind of move does to rows, references, lives, holders and readiness, and what a list
//! of moves does. Nothing is run here: other crates' proofs cite these laws.
#![tactic(auto)]
