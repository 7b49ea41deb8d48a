// This crate has no code: its specs/ hold theorems on what loading accepts.
#![tactic(auto)]
