// This crate has no code: its specs/ hold theorems on what a listing shows.
#![tactic(auto)]
