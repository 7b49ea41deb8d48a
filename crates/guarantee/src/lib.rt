// This crate has no code: its specs/ hold the claim over every list of calls.
#![tactic(auto)]
