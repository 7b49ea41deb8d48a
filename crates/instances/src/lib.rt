// This crate has no code: its specs/ show where the theorems of the other crates bite, and what they exclude.
#![tactic(auto)]
