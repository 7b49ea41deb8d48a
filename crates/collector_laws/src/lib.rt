// This crate has no code: its specs/ hold theorems on what a collection takes and leaves.
#![tactic(auto)]
