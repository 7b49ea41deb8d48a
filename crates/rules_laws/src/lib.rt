// This crate has no code: its specs/ hold theorems on the rules, those on which proofs of functions rest among them.
#![tactic(auto)]
