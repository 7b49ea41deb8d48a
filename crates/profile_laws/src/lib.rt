// This crate has no code: its specs/ hold theorems on the rental-shop profile.
#![tactic(auto)]
