// This crate has no code: its specs/ hold theorems on writing a table back.
#![tactic(auto)]
