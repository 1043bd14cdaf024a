//! The laws of states: the moves of each step fit, the state at boot is well-formed, and so is each state that a history
//! leaves. Nothing is run here: other crates' proofs cite these laws.
#![tactic(auto)]
