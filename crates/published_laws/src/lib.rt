// This crate has no code: its specs/ hold the agent of 002 that a state stands for, and theorems that the engine's moves are reductions of it.
#![tactic(auto)]
