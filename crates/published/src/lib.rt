// This crate has no code: its specs/ hold the rules that 002 prints, as they are printed, and theorems on them.
#![tactic(auto)]
